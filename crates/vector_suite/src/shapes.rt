//! Words of bytes, so many and no more.
ghost use Rattle.std.specs.Prelude.{◌≡◌, ◌≤◌, ◌+◌, ◌*◌, List, ℕ, Some, None, MatchOption, IfSome, length};
ghost use Rattle.line_words.specs.Words.{total_length};
ghost use Rattle.vector_suite.specs.Shapes.{first_bytes, first_answer, answer_of, answer_length, alone};

use crate::vector::Expected;
use line_words::{HexWord, Words};

/// The bytes that the next word spells.
pub fn next_bytes<'a>(words: &mut Words<'a>) -> Option<HexWord<'a>>
    ensures value { MatchOption result (first_bytes words.old ≡ None) (λ bytes. first_bytes words.old ≡ Some (record { value = bytes; rest = words.new })) }
    ensures short { IfSome result (λ bytes. 2 * length bytes + total_length words.new ≤ total_length words.old) }
{
    HexWord::read(words.next()?)
}

// The answer that a word says to expect.
fn answer_of<'a>(word: &'a [u8]) -> Option<Expected<'a>>
    ensures value { result ≡ answer_of word.now }
    ensures short { IfSome result (λ answer. 2 * answer_length answer ≤ length word.now) }
{
    if word == b"fail".as_slice() {
        return Some(Expected::Refusal);
    }
    Some(Expected::Bytes(HexWord::read(word)?))
}

/// The answer that the next word says to expect.
pub fn next_answer<'a>(words: &mut Words<'a>) -> Option<Expected<'a>>
    ensures value { MatchOption result (first_answer words.old ≡ None) (λ answer. first_answer words.old ≡ Some (record { value = answer; rest = words.new })) }
    ensures short { IfSome result (λ answer. 2 * answer_length answer + total_length words.new ≤ total_length words.old) }
{
    answer_of(words.next()?)
}
