// The words behind a service's name.
ghost use Rattle.std.specs.Prelude.{◌≡◌, ◌↔◌, ℕ, List, None, Some, MatchOption, IsTrue, length, slice_get};
ghost use Rattle.line_words.specs.Words.{words_left};
ghost use Rattle.operator_text.specs.WordValues.{IsWord, IsNameWord, AreWords};

use crate::forms::WordType;
use crate::names::number_named;
use line_words::{bytes_length, first_word, number_of};

/// The type at a place, counted from 0, where there is one.
pub fn type_at(types: &[WordType], place: usize) -> Option<WordType>
    ensures { result ≡ slice_get types.now place }
{
    match types.get(place) {
        Some(word_type) => Some(*word_type),
        None => None,
    }
}

/// The word at a place, counted from 0, where there is one.
pub fn word_at(words: Option<&[u8]>, place: usize) -> Option<&[u8]>
    ensures { MatchOption result (slice_get (words_left words.entry) place ≡ None) (λ word. slice_get (words_left words.entry) place ≡ Some word.now) }
{
    match words {
        None => None,
        Some(line) => {
            let first = first_word(line);
            if place == 0 {
                return Some(first.word);
            }
            word_at(first.rest, place - 1)
        }
    }
}

// Whether the word is a number of one byte.
fn is_byte(word: &[u8]) -> bool
    ensures { IsTrue result ↔ ((value : List ℕ) × IsWord WordType.Byte word.now value) }
{
    match number_of(word, 0xff) {
        Some(_) => true,
        None => false,
    }
}

// Whether the word is a number of four bytes.
fn is_quad(word: &[u8]) -> bool
    ensures { IsTrue result ↔ ((value : List ℕ) × IsWord WordType.Quad word.now value) }
{
    match number_of(word, 0xffff_ffff) {
        Some(_) => true,
        None => false,
    }
}

// Whether the word is a name of the type.
fn is_name(word_type: WordType, word: &[u8]) -> bool
    ensures { IsTrue result ↔ ((value : List ℕ) × IsNameWord word_type word.now value) }
{
    match number_named(word_type, word) {
        Some(_) => true,
        None => false,
    }
}

// Whether the word spells bytes.
fn is_bytes(word: &[u8]) -> bool
    ensures { IsTrue result ↔ ((value : List ℕ) × IsWord WordType.Bytes word.now value) }
{
    match bytes_length(word) {
        Some(_) => true,
        None => false,
    }
}

// Whether the word spells at most 255 bytes.
fn is_short(word: &[u8]) -> bool
    ensures { IsTrue result ↔ ((value : List ℕ) × IsWord WordType.ShortBytes word.now value) }
{
    match bytes_length(word) {
        Some(count) => count <= 255,
        None => false,
    }
}

/// Whether the word is one of the type.
pub fn is_word(word_type: WordType, word: &[u8]) -> bool
    ensures { IsTrue result ↔ ((value : List ℕ) × IsWord word_type word.now value) }
{
    match word_type {
        WordType::Byte => is_byte(word),
        WordType::Quad => is_quad(word),
        WordType::Role => is_name(word_type, word),
        WordType::Kind => is_name(word_type, word),
        WordType::Domain => is_name(word_type, word),
        WordType::Export => is_name(word_type, word),
        WordType::Alg => is_name(word_type, word),
        WordType::Bytes => is_bytes(word),
        WordType::ShortBytes => is_short(word),
    }
}

/// Whether the words are one of each type, in this order.
pub fn are_words(types: &[WordType], words: Option<&[u8]>) -> bool
    ensures { IsTrue result ↔ ((values : List (List ℕ)) × AreWords types.now (words_left words.entry) values) }
{
    match types {
        [] => words.is_none(),
        [word_type, more @ ..] => match words {
            None => false,
            Some(line) => {
                let first = first_word(line);
                is_word(*word_type, first.word) && are_words(more, first.rest)
            }
        },
    }
}

/// The number of bytes of the value that a word of the type spells.
pub fn value_length(word_type: WordType, word: &[u8]) -> usize
    ensures { (value : List ℕ) → IsWord word_type word.now value → result ≡ length value }
{
    match word_type {
        WordType::Quad => 4,
        WordType::Bytes | WordType::ShortBytes => bytes_length(word).unwrap_or(0),
        WordType::Byte
        | WordType::Role
        | WordType::Kind
        | WordType::Domain
        | WordType::Export
        | WordType::Alg => 1,
    }
}
