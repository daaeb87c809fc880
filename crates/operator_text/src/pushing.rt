// How the values of words become a body.
ghost use Rattle.std.specs.Prelude.{◌≡◌, ◌≤◌, ◌+◌, ◌%◌, ◌++◌, ℕ, List, [], ◌∷◌, Some, length, ◌<◌, slice_index};
ghost use Rattle.std.specs.Option.{option_map};
ghost use Rattle.std.specs.Int.{to_be_bytes, w32};
ghost use Rattle.bits_core.specs.declared.limits.TheConstants.{LARGEST_BODY};
ghost use Rattle.line_words.specs.Words.{words_left};
ghost use Rattle.line_words.specs.Bytes.{bytes_of};
ghost use Rattle.operator_text.specs.WordValues.{IsWord, IsNameWord, AreWords};
ghost use Rattle.operator_text.specs.Spelling.{AppendsWithin, value_at, field_bytes, fields_bytes};

use crate::forms::{Field, WordType};
use crate::names::number_named;
use crate::words::{type_at, value_length, word_at};
use bits_core::LARGEST_BODY;
use line_words::{bytes_length, number_of, read_bytes};
use module_frames::Command;

// Puts a piece behind the body, where there is room for it.
fn push_within(into: &mut Command, piece: &[u8]) -> bool
    ensures { AppendsWithin into.old piece.now result into.new }
{
    if piece.len() > LARGEST_BODY - into.body().len() {
        return false;
    }
    into.push(piece);
    true
}

// The byte at a place of those that a word spells.
fn byte_at(word: &[u8], count: usize, place: usize) -> u8
    requires spelled { option_map length (bytes_of word.now) ≡ Some count }
    requires within { place < count }
    requires short { count ≤ LARGEST_BODY }
    ensures { (bytes : List ℕ) → bytes_of word.now ≡ Some bytes → result ≡ slice_index bytes place }
{
    let start = 2 * place;
    let pair = &word[start..start + 2];
    let mut byte = [0];
    read_bytes(pair, &mut byte);
    byte[0]
}

// Puts the bytes that a word spells behind the body, for which there is room.
fn push_spelled(word: &[u8], count: usize, into: &mut Command)
    requires spelled { option_map length (bytes_of word.now) ≡ Some count }
    requires room { length into.old.body + count ≤ LARGEST_BODY }
    ensures { (bytes : List ℕ) → bytes_of word.now ≡ Some bytes → into.new ≡ record into.old { body = into.old.body ++ bytes } }
{
    for place in 0..count {
        let byte = [byte_at(word, count, place)];
        into.push(&byte);
    }
}

// Puts the bytes that a word spells behind the body, where there is room for them.
fn push_bytes(word: &[u8], into: &mut Command) -> bool
    ensures { (bytes : List ℕ) → bytes_of word.now ≡ Some bytes → AppendsWithin into.old bytes result into.new }
{
    match bytes_length(word) {
        Some(count) => {
            if count > LARGEST_BODY - into.body().len() {
                return false;
            }
            push_spelled(word, count, into);
            true
        }
        None => false,
    }
}

// Puts the number that a word spells behind the body, in one byte, where there is room for it.
fn push_byte(word: &[u8], into: &mut Command) -> bool
    ensures { (value : List ℕ) → IsWord WordType.Byte word.now value → AppendsWithin into.old value result into.new }
{
    match number_of(word, 0xff) {
        Some(number) => push_within(into, &number.to_be_bytes()[7..]),
        None => false,
    }
}

// Puts the number that a word spells behind the body, in four bytes, where there is room for it.
fn push_quad(word: &[u8], into: &mut Command) -> bool
    ensures { (value : List ℕ) → IsWord WordType.Quad word.now value → AppendsWithin into.old value result into.new }
{
    match number_of(word, 0xffff_ffff) {
        Some(number) => push_within(into, &number.to_be_bytes()[4..]),
        None => false,
    }
}

// Puts the number whose name the word is behind the body, where there is room for it.
fn push_name(word_type: WordType, word: &[u8], into: &mut Command) -> bool
    ensures { (value : List ℕ) → IsNameWord word_type word.now value → AppendsWithin into.old value result into.new }
{
    match number_named(word_type, word) {
        Some(number) => push_within(into, &[number]),
        None => false,
    }
}

// Puts the value that a word of the type spells behind the body, where there is room for it.
fn push_value(word_type: WordType, word: &[u8], into: &mut Command) -> bool
    ensures { (value : List ℕ) → IsWord word_type word.now value → AppendsWithin into.old value result into.new }
{
    match word_type {
        WordType::Byte => push_byte(word, into),
        WordType::Quad => push_quad(word, into),
        WordType::Role => push_name(word_type, word, into),
        WordType::Kind => push_name(word_type, word, into),
        WordType::Domain => push_name(word_type, word, into),
        WordType::Export => push_name(word_type, word, into),
        WordType::Alg => push_name(word_type, word, into),
        WordType::Bytes => push_bytes(word, into),
        WordType::ShortBytes => push_bytes(word, into),
    }
}

// The number of bytes of the value of the word at a place.
fn length_at(types: &[WordType], words: Option<&[u8]>, place: usize) -> usize
    ensures { (values : List (List ℕ)) → AreWords types.now (words_left words.entry) values → result ≡ length (value_at values place) }
{
    match type_at(types, place) {
        Some(word_type) => match word_at(words, place) {
            Some(word) => value_length(word_type, word),
            None => 0,
        },
        None => 0,
    }
}

// Puts the value of the word at a place behind the body, where there is room for it.
fn push_value_at(types: &[WordType], words: Option<&[u8]>, place: usize, into: &mut Command) -> bool
    ensures { (values : List (List ℕ)) → AreWords types.now (words_left words.entry) values → AppendsWithin into.old (value_at values place) result into.new }
{
    match type_at(types, place) {
        Some(word_type) => match word_at(words, place) {
            Some(word) => push_value(word_type, word, into),
            None => push_within(into, &[]),
        },
        None => push_within(into, &[]),
    }
}

// Puts a field behind the body, where there is room for it.
fn push_field(field: Field, types: &[WordType], words: Option<&[u8]>, into: &mut Command) -> bool
    ensures { (values : List (List ℕ)) → AreWords types.now (words_left words.entry) values → AppendsWithin into.old (field_bytes values field) result into.new }
{
    match field {
        Field::Value(place) => push_value_at(types, words, place, into),
        Field::Length(place) => {
            let length = length_at(types, words, place);
            push_within(into, &[(length % 256) as u8])
        }
        Field::LongLength(place) => {
            let length = length_at(types, words, place) as u64;
            push_within(into, &length.to_be_bytes()[4..])
        }
    }
}

/// Puts fields behind the body, one behind the other, where there is room for all.
pub fn push_fields(
    fields: &[Field],
    types: &[WordType],
    words: Option<&[u8]>,
    into: &mut Command,
) -> bool
    ensures { (values : List (List ℕ)) → AreWords types.now (words_left words.entry) values → AppendsWithin into.old (fields_bytes values fields.now) result into.new }
{
    match fields {
        [] => push_within(into, &[]),
        [field, more @ ..] => {
            push_field(*field, types, words, into) && push_fields(more, types, words, into)
        }
    }
}
