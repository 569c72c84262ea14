// The options of a run.
ghost use Rattle.std.specs.Prelude.{◌≡◌};
ghost use Rattle.dart_words.specs.Options.{first_time, options_of, with_checked, with_option};

use crate::budget::{Budget, number_within};
use dart_base::limit::{STEPS, STORE_UNITS, USUAL_STEPS, USUAL_STORE_UNITS};

/// What the options of a run ask.
#[derive(Clone, Copy, Debug, PartialEq, Eq)]
pub struct Options {
    /// Whether values are checked against annotations: checked mode (ECMA-408, 19 Types).
    pub checked: bool,
    /// What each isolate may take.
    pub budget: Budget,
}

/// What options gave, where they gave it.
#[derive(Clone, Copy)]
pub struct Given {
    pub checked: bool,
    pub steps: Option<u64>,
    pub units: Option<u64>,
}

impl Given {
    /// The options and `--checked`, or None where it was given before.
    pub fn with_checked(self) -> Option<Given>
        ensures { result ≡ with_checked self }
    {
        if self.checked {
            return None;
        }
        Some(Given {
            checked: true,
            steps: self.steps,
            units: self.units,
        })
    }

    /// The options and this one, or None where it is no option, has no number within its limit or was given before.
    pub fn with_option(self, option: &str, number: &str) -> Option<Given>
        ensures { result ≡ with_option self option.now number.now }
    {
        match option {
            "--steps" => Some(Given {
                checked: self.checked,
                steps: Some(first_time(self.steps, number_within(STEPS, number))?),
                units: self.units,
            }),
            "--units" => Some(Given {
                checked: self.checked,
                steps: self.steps,
                units: Some(first_time(self.units, number_within(STORE_UNITS, number))?),
            }),
            _ => None,
        }
    }

    /// What they ask, the usual budget in what no option gave.
    pub fn options(self) -> Options
        ensures { result ≡ options_of self }
    {
        Options {
            checked: self.checked,
            budget: Budget {
                steps: self.steps.unwrap_or(USUAL_STEPS),
                units: self.units.unwrap_or(USUAL_STORE_UNITS),
            },
        }
    }
}

// The number of an option that was not given before.
fn first_time(before: Option<u64>, number: Option<u64>) -> Option<u64>
    ensures { result ≡ first_time before number }
{
    match before {
        None => number,
        Some(_) => None,
    }
}
