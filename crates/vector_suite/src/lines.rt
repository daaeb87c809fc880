//! A vector's line.
ghost use Rattle.std.specs.Prelude.{◌≡◌, ◌≤◌, ◌*◌, IfSome, length, true};
ghost use Rattle.bits_core.specs.ByteList.{zeros};
ghost use Rattle.line_words.specs.Words.{total_length};
ghost use Rattle.vector_suite.specs.Lines.{found_in, is_comment, line_found, read_of};
ghost use Rattle.vector_suite.specs.Lengths.{has_allowed_lengths};
ghost use Rattle.vector_suite.specs.Vectors.{bytes_in, shape_of, vector_of, vector_of_words};

use crate::allowed::has_allowed_lengths;
use crate::checking::check;
use crate::kind::Kind;
use crate::names::kind_of;
use crate::reading::{
    read_cmac, read_cmac_kdf, read_derive, read_drbg, read_hash, read_mac, read_open, read_seal,
    read_unwrap, read_wrap,
};
use crate::vector::Vector;
use bits_core::wipe;
use engine_core::Engine;
use line_words::Words;

/// What a line is found to be.
#[derive(Clone, Copy, Debug, PartialEq, Eq)]
pub enum VectorRead {
    /// A vector, and each answer is the expected one.
    Pass,
    /// A vector, and an answer is another.
    Fail,
    /// An empty line, or one that begins with `#`.
    Comment,
    /// None of these.
    Bad,
}

// Reads the words behind a kind's name.
fn read_shape<'a>(kind: Kind, words: &mut Words<'a>) -> Option<Vector<'a>>
    ensures vector { result ≡ shape_of kind words.old }
    ensures short { IfSome result (λ vector. 2 * bytes_in vector ≤ total_length words.old) }
{
    match kind {
        Kind::Hash(alg) => read_hash(alg, words),
        Kind::Mac(alg) => read_mac(alg, words),
        Kind::Seal => read_seal(words),
        Kind::Open => read_open(words),
        Kind::Wrap { pad } => read_wrap(pad, words),
        Kind::Unwrap { pad } => read_unwrap(pad, words),
        Kind::Derive => read_derive(words),
        Kind::Drbg => read_drbg(words),
        Kind::Cmac => read_cmac(words),
        Kind::CmacKdf(mode) => read_cmac_kdf(mode, words),
    }
}

// Reads the words of a line.
fn read_words<'a>(words: &mut Words<'a>) -> Option<Vector<'a>>
    ensures vector { result ≡ vector_of_words words.old }
    ensures short { IfSome result (λ vector. 2 * bytes_in vector ≤ total_length words.old) }
    ensures allowed { IfSome result (λ vector. has_allowed_lengths vector ≡ true) }
{
    let kind = kind_of(words.next()?)?;
    let vector = read_shape(kind, words)?;
    if !has_allowed_lengths(&vector) {
        return None;
    }
    Some(vector)
}

// The vector of a line, if it is one of a vector.
fn read_vector<'a>(line: &'a [u8]) -> Option<Vector<'a>>
    ensures vector { result ≡ vector_of line.now }
    ensures short { IfSome result (λ vector. 2 * bytes_in vector ≤ length line.now) }
    ensures allowed { IfSome result (λ vector. has_allowed_lengths vector ≡ true) }
{
    read_words(&mut Words::of(line))
}

// Whether a line is a comment.
fn is_comment(line: &[u8]) -> bool
    ensures { result ≡ is_comment line.now }
{
    match line.first() {
        Some(first) => *first == b'#',
        None => true,
    }
}

// What a vector is found to be.
fn pass_or_fail(passed: bool) -> VectorRead
    ensures { result ≡ read_of passed }
{
    if passed {
        VectorRead::Pass
    } else {
        VectorRead::Fail
    }
}

// What a line that is no comment finds.
fn check_vector<E: Engine>(engine: &mut E, line: &[u8], work: &mut [u8]) -> VectorRead
    requires line { length line.now ≤ 131400 }
    requires room { 131456 ≤ length work.old }
    ensures read { result ≡ (found_in E.calls engine.old (vector_of line.now)).read }
    ensures engine { engine.new ≡ (found_in E.calls engine.old (vector_of line.now)).engine }
{
    match read_vector(line) {
        Some(vector) => pass_or_fail(check(engine, &vector, work)),
        None => VectorRead::Bad,
    }
}

/// Checks the line of a test vector. A line is of a vector where its words, parted by single spaces, are a kind's name and then, by
/// kind, words of bytes or the word `fail` of lengths that the kind allows. The calls of a vector are made once each, in their order,
/// whatever the expected output is; a comment and a bad line leave the engine. The line has at most 131,400 bytes, its line feed not
/// counted; `work` has 131,456 or more, and is zero afterwards. (The form of the lines is this project's own.)
pub fn check_line<E: Engine>(engine: &mut E, line: &[u8], work: &mut [u8]) -> VectorRead
    requires line { length line.now ≤ 131400 }
    requires room { 131456 ≤ length work.old }
    ensures read { result ≡ (line_found E.calls engine.old line.now).read }
    ensures engine { engine.new ≡ (line_found E.calls engine.old line.now).engine }
    ensures wiped { work.new ≡ zeros (length work.old) }
{
    let read = if is_comment(line) {
        VectorRead::Comment
    } else {
        check_vector(engine, line, work)
    };
    wipe(work);
    read
}
