//! Words one after the other.
ghost use Rattle.std.specs.Prelude.{◌≡◌, ◌≤◌, ℕ, List, [], ◌∷◌, length, MatchOption, IsTrue, ◌↔◌};
ghost use Rattle.line_words.specs.Words.{words_of, words_left, total_length};

use crate::words::first_word;
use std::marker::Model;

/// The words of a line that are still to be read. Contracts see them as a list.
#[derive(Drop)]
pub struct Words<'a> {
    rest: Option<&'a [u8]>,
}

impl<'a> Model for Words<'a> {
    ghost Value = { List (List ℕ) };

    ghost view = { λ w. words_left w.rest };
}

impl<'a> Words<'a> {
    /// All words of a line of any length.
    pub fn of(line: &'a [u8]) -> Words<'a>
        ensures words { result ≡ words_of line.now }
        ensures short { total_length result ≤ length line.now }
    {
        Words { rest: Some(line) }
    }

    /// Whether all words were read.
    pub fn is_done(&self) -> bool
        ensures { IsTrue result ↔ (self.now ≡ []) }
    {
        self.rest.is_none()
    }

    /// The next word, if one is left.
    pub fn next(&mut self) -> Option<&'a [u8]>
        ensures { MatchOption result ((self.old ≡ []) × (self.new ≡ [])) (λ word. self.old ≡ word.now ∷ self.new) }
    {
        let line = self.rest?;
        let first = first_word(line);
        self.rest = first.rest;
        Some(first.word)
    }
}
