// Bytes in any pieces, and the lines that they make.
ghost use Rattle.std.specs.Prelude.{◌≡◌, ◌≢◌, ◌+◌, ◌≤◌, ◌<◌, ◌↔◌, ◌++◌, [], true, false, IfOk, IsTrue, length, take, drop, slice_index};
ghost use Rattle.bits_core.specs.ByteList.{zeros};
ghost use Rattle.line_input.specs.declared.limits.TheConstants.{LARGEST_LINE, LINE_FEED};
ghost use Rattle.line_input.specs.TextLines.{HasNoLineFeed};
ghost use Rattle.line_input.specs.HeldLines.{Feeds, StandsAfter, no_line, cleared_line, refused_line};

use crate::limits::{LARGEST_LINE, LINE_FEED};
use std::alloc::{AllocError, Global};
use std::marker::Model;

/// What `Lines` answers to a piece.
#[derive(Clone, Copy, Debug, PartialEq, Eq)]
pub enum LineFed {
    /// All of the piece was taken, and no line is whole.
    More,
    /// So many bytes of the piece were taken, the LF included, and one line stands.
    Whole(usize),
    /// The line has more than 131,400 bytes, its LF not counted.
    TooLong,
}

/// Makes lines of bytes that come in any pieces. Contracts see the bytes held of a line, whether it is whole, and whether a line was too
/// long. By a rule of the type the bytes held have no LF, and all memory is zero but for them.
#[derive(Drop)]
pub struct Lines {
    buffer: Vec<u8>,
    used: usize,
    whole: bool,
    too_long: bool,
}

impl Model for Lines {
    ghost use Rattle.line_input.specs.HeldLines.{HeldLine};

    ghost Value = { HeldLine };

    ghost use Rattle.line_input.specs.LineBuffers.{line_of, IsLineBuffer};

    ghost view = { line_of };

    ghost invariant = { IsLineBuffer };
}

// How many bytes stand in front of the first LF of a piece: all of them where it has none.
fn line_length(piece: &[u8]) -> usize
    ensures within { result ≤ length piece.now }
    ensures line { HasNoLineFeed (take result piece.now) }
    ensures end { result < length piece.now → slice_index piece.now result ≡ LINE_FEED }
{
    piece
        .iter()
        .position(|byte| *byte == LINE_FEED)
        .unwrap_or(piece.len())
}

// Puts a piece behind the bytes in use, and leaves all others.
fn put(buffer: &mut Vec<u8>, used: usize, piece: &[u8])
    requires { used + length piece.now ≤ length buffer.old.items }
    ensures { buffer.new.items ≡ take used buffer.old.items ++ (piece.now ++ drop (used + length piece.now) buffer.old.items) }
{
    let end = used + piece.len();
    buffer[used..end].copy_from_slice(piece);
}

// Makes the bytes in use zero, and leaves all others.
fn zero_used(buffer: &mut Vec<u8>, used: usize)
    requires { used ≤ length buffer.old.items }
    ensures { buffer.new.items ≡ zeros used ++ drop used buffer.old.items }
{
    for offset in 0..used {
        buffer[offset] = 0;
    }
}

impl Lines {
    /// Holds nothing; a stream of lines begins.
    pub fn new(alloc: Global) -> Result<Lines, AllocError>
        ensures { IfOk result (λ lines. lines ≡ no_line) }
    {
        let buffer = vec![in alloc; 0; LARGEST_LINE]?;
        Ok(Lines {
            buffer,
            used: 0,
            whole: false,
            too_long: false,
        })
    }

    // Adds bytes of the line, which has at most 131,400 then.
    fn push(&mut self, piece: &[u8])
        requires room { length self.old.text + length piece.now ≤ LARGEST_LINE }
        requires no_feed { HasNoLineFeed piece.now }
        requires not_refused { self.old.too_long ≡ false }
        ensures { self.new ≡ record self.old { text = self.old.text ++ piece.now } }
    {
        put(&mut self.buffer, self.used, piece);
        self.used += piece.len();
    }

    /// Takes bytes from the front of the next piece of the stream, up to the end of a line.
    /// `TooLong` is answered as soon as the line has more than 131,400 bytes, its LF not counted and whether or not that has come;
    /// nothing is held then, and the same is answered for good.
    /// No whole line stands.
    pub fn feed(&mut self, piece: &[u8]) -> LineFed
        requires { self.old.whole ≡ false }
        ensures fed { Feeds self.old piece.now result self.new }
        ensures stands { StandsAfter piece.now result self.new.whole }
    {
        if self.too_long {
            return LineFed::TooLong;
        }
        let count = line_length(piece);
        if count > LARGEST_LINE - self.used {
            self.refuse();
            return LineFed::TooLong;
        }
        self.push(&piece[..count]);
        if count == piece.len() {
            return LineFed::More;
        }
        self.whole = true;
        LineFed::Whole(count + 1)
    }

    // Forgets the bytes of a line that is too long.
    fn refuse(&mut self)
        ensures { self.new ≡ refused_line }
    {
        zero_used(&mut self.buffer, self.used);
        self.used = 0;
        self.whole = false;
        self.too_long = true;
    }

    /// The line that stands, without its LF.
    pub fn line(&self) -> &[u8]
        requires { self.now.whole ≡ true }
        ensures line { result.now ≡ self.now.text }
        ensures one_line { HasNoLineFeed self.now.text }
        ensures within { length self.now.text ≤ LARGEST_LINE }
    {
        &self.buffer[..self.used]
    }

    /// Forgets what is held, the line that stands or the beginning of one. No byte of it stays. That a line was too long does.
    pub fn clear(&mut self)
        ensures { self.new ≡ cleared_line self.old }
    {
        zero_used(&mut self.buffer, self.used);
        self.used = 0;
        self.whole = false;
    }

    /// Whether a whole line stands.
    pub fn stands(&self) -> bool
        ensures { result ≡ self.now.whole }
    {
        self.whole
    }

    /// Whether no byte is held, of a line that stands or of the beginning of one.
    pub fn is_empty(&self) -> bool
        ensures { IsTrue result ↔ (self.now.text ≡ []) }
    {
        self.used == 0
    }

    /// Says at the end of the stream whether bytes without an LF are held and no line was too long: they then stand as the last line.
    /// No whole line stands before.
    pub fn rest(&mut self) -> bool
        requires { self.old.whole ≡ false }
        ensures held { IsTrue result ↔ ((self.old.text ≢ []) × (self.old.too_long ≡ false)) }
        ensures stands { self.new ≡ record self.old { whole = result } }
    {
        self.whole = self.used > 0 && !self.too_long;
        self.whole
    }
}
