// Lines and what they spell.
ghost use Rattle.std.specs.Prelude.{◌≡◌, ◌≤◌, length};
ghost use Rattle.line_input.specs.declared.limits.TheConstants.{LARGEST_LINE};
ghost use Rattle.line_words.specs.Words.{words_left};
ghost use Rattle.operator_text.specs.Spelling.{Reads, Fills, MatchSpelled, begins_comment};

use crate::forms::{body_fields, word_types};
use crate::names::service_named;
use crate::pushing::push_fields;
use crate::words::are_words;
use line_input::LARGEST_LINE;
use line_words::first_word;
use module_frames::Command;
use service_table::Service;

/// What a line is.
#[derive(Clone, Copy, Debug, PartialEq, Eq)]
pub enum LineRead {
    /// The line spells a command.
    Command,
    /// The line is a comment, and makes no command.
    Comment,
    /// The line is neither.
    Bad,
}

// Whether a line is empty or begins with the sign that begins a comment.
fn begins_comment(line: &[u8]) -> bool
    ensures { result ≡ begins_comment line.now }
{
    match line.first() {
        Some(first) => *first == b'#',
        None => true,
    }
}

// Makes it the command of the service in whose line these words stand behind the name, where they are of their types and the body has room.
fn fill(service: Service, words: Option<&[u8]>, into: &mut Command) -> bool
    ensures { Fills service (words_left words.entry) result into.new }
{
    into.start(service.number());
    let types = word_types(service);
    if !are_words(types, words) {
        return false;
    }
    push_fields(body_fields(service), types, words, into)
}

// Makes it the command that the line spells. False where it spells none.
fn spell(line: &[u8], into: &mut Command) -> bool
    requires { length line.now ≤ LARGEST_LINE }
    ensures { MatchSpelled line.now result into.new }
{
    let first = first_word(line);
    match service_named(first.word) {
        Some(service) => fill(service, first.rest, into),
        None => false,
    }
}

/// Reads a line of any length, without its LF. A comment is empty, or has at most 131,400 bytes and begins with the sign `#`. A command is
/// spelled by a line of at most 131,400 bytes: the service's name and the words behind it, parted by single spaces. Where the line is
/// a comment or bad, the command is cleared.
pub fn read_line(line: &[u8], into: &mut Command) -> LineRead
    ensures { Reads line.now result into.new }
{
    if line.len() > LARGEST_LINE {
        into.clear();
        return LineRead::Bad;
    }
    if begins_comment(line) {
        into.clear();
        return LineRead::Comment;
    }
    if spell(line, into) {
        return LineRead::Command;
    }
    into.clear();
    LineRead::Bad
}
