//! The word of a number.
ghost use Rattle.std.specs.Prelude.{◌≡◌, ◌↔◌, ◌^◌, min, Some, ℕ, IsTrue};
ghost use Rattle.std.specs.Char.{is_ascii_digit};
ghost use Rattle.std.specs.List.{AllPass};
ghost use Rattle.std.specs.Str.Parse.{digits_value};
ghost use Rattle.line_words.specs.Numbers.{IsNumberWord, IsCanonical};

// One more than the largest number that a word may spell.
const LIMIT: u128 = 1 << 64;

// Whether all bytes are decimal digits.
fn are_digits(word: &[u8]) -> bool
    ensures { IsTrue result ↔ AllPass is_ascii_digit word.now }
{
    word.iter().all(|byte| byte.is_ascii_digit())
}

// Whether a word is one decimal digit or more, with no leading zero.
fn is_canonical(word: &[u8]) -> bool
    ensures { IsTrue result ↔ IsCanonical word.now }
{
    match word.first() {
        Some(first) => are_digits(word) && (*first != b'0' || word.len() == 1),
        None => false,
    }
}

// The number that digits spell, or 2^64 where it is larger.
fn value_of(word: &[u8]) -> u128
    requires { AllPass is_ascii_digit word.now }
    ensures { result ≡ min (digits_value 10 word.now) (2 ^ 64) }
{
    let mut value: u128 = 0;
    for digit in word {
        value = LIMIT.min(value * 10 + u128::from(*digit - b'0'));
    }
    value
}

/// The number that a word spells in decimal digits, with no sign and no leading zero. `None` where the word is of another form, or the
/// number is above `most`.
pub fn number_of(word: &[u8], most: u64) -> Option<u64>
    ensures { (number : ℕ) → (result ≡ Some number) ↔ IsNumberWord most word.now number }
{
    if !is_canonical(word) {
        return None;
    }
    let value = value_of(word);
    if value <= u128::from(most) {
        Some(value as u64)
    } else {
        None
    }
}
