// The words of a command line.
ghost use Rattle.std.specs.Prelude.{◌≡◌, map, MatchOption, IfSome, None, Some};
ghost use Rattle.std.specs.String.{string_bytes};
ghost use Rattle.dart_words.specs.Words.{KeepsLimits, erase_command, is_operand, nothing_given, command_of, run_command};

use crate::options::{Given, Options};

/// What a command does with its file. Another one is also a case of `command_of` in specs/Words.antt.
#[derive(Clone, Copy, Debug, PartialEq, Eq)]
pub enum Verb {
    /// Runs the program that it is, as these options ask.
    Run(Options),
    /// Writes it without its annotations.
    Erase,
}

// The word names a file.
fn is_operand(word: &String) -> bool
    ensures { result ≡ is_operand (string_bytes word.now) }
{
    !word.is_empty() && !word.as_str().starts_with('-')
}

// What the words behind `run` ask.
fn run_command(words: &[String]) -> Option<(Verb, &String)>
    ensures { let read = run_command nothing_given (map string_bytes words.now) in
        MatchOption result (read ≡ None)
        (λ asked. read ≡ Some (record { verb = asked.0; file = string_bytes asked.1.now })) }
{
    let mut given = Given {
        checked: false,
        steps: None,
        units: None,
    };
    let mut rest = words;
    while let [option, number, more @ ..] = rest {
        if option.as_str() == "--checked" {
            given = given.with_checked()?;
            rest = &rest[1..];
        } else {
            given = given.with_option(option.as_str(), number.as_str())?;
            rest = more;
        }
    }
    match rest {
        [file] if is_operand(file) => Some((Verb::Run(given.options()), file)),
        _ => None,
    }
}

// What the words behind `erase` ask.
fn erase_command(words: &[String]) -> Option<(Verb, &String)>
    ensures { let read = erase_command (map string_bytes words.now) in
        MatchOption result (read ≡ None)
        (λ asked. read ≡ Some (record { verb = asked.0; file = string_bytes asked.1.now })) }
{
    match words {
        [file] if is_operand(file) => Some((Verb::Erase, file)),
        _ => None,
    }
}

/// What the words ask, and of which file, or None where they are no command: `run`, options and a file, or `erase` and a
/// file. An option is `--checked`, or `--steps` or `--units` and, as a word of its own, its number of one to ten digits; each is
/// given once at most.
pub fn command(words: &[String]) -> Option<(Verb, &String)>
    ensures read { let read = command_of (map string_bytes words.now) in
        MatchOption result (read ≡ None)
        (λ asked. read ≡ Some (record { verb = asked.0; file = string_bytes asked.1.now })) }
    ensures limits { IfSome result (λ asked. KeepsLimits asked.0) }
{
    let [word, rest @ ..] = words else {
        return None;
    };
    match word.as_str() {
        "run" => run_command(rest),
        "erase" => erase_command(rest),
        _ => None,
    }
}
