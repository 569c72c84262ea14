// What each isolate of a run may take, and the numbers that say it.
ghost use Rattle.std.specs.Prelude.{◌≡◌};
ghost use Rattle.std.specs.Char.{is_ascii_digit};
ghost use Rattle.std.specs.List.{list_all};
ghost use Rattle.dart_words.specs.Budget.{is_numeral, number_of, number_within};

/// What each isolate of a run may take.
#[derive(Clone, Copy, Debug, PartialEq, Eq)]
pub struct Budget {
    /// Steps of evaluation.
    pub steps: u64,
    /// Units of its store.
    pub units: u64,
}

fn are_digits(word: &str) -> bool
    ensures { result ≡ list_all is_ascii_digit word.now }
{
    word.bytes().all(|byte| byte.is_ascii_digit())
}

// One to ten digits.
fn is_numeral(word: &str) -> bool
    ensures { result ≡ is_numeral word.now }
{
    1 <= word.len() && word.len() <= 10 && are_digits(word)
}

// The number that a word of one to ten digits writes.
fn number_of(word: &str) -> Option<u64>
    ensures { result ≡ number_of word.now }
{
    if is_numeral(word) {
        word.parse::<u64>().ok()
    } else {
        None
    }
}

/// The number that a word writes, where it is from 1 to the greatest.
pub fn number_within(greatest: u64, word: &str) -> Option<u64>
    ensures { result ≡ number_within greatest word.now }
{
    number_of(word).filter(|number| 1 <= *number && *number <= greatest)
}
