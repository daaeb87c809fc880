// Bytes in any pieces, and the commands that they encode.
ghost use Rattle.std.specs.Prelude.{◌≡◌, ◌+◌, ◌-◌, ◌^◌, ◌≤◌, ◌<◌, ◌↔◌, ◌++◌, [], true, false, IfOk, IfSome, IsTrue, length, take, drop, min, None};
ghost use Rattle.module_frames.specs.Readers.{TellsSequence};
ghost use Rattle.std.specs.Int.{to_be_bytes, w32};
ghost use Rattle.module_frames.specs.Streams.{first_fault, body_length, length_bytes, is_wrong_at, is_at, is_numbered, header_length, is_too_long};
ghost use Rattle.module_frames.specs.CommandFrames.{IsCommandFrame};
ghost use Rattle.module_frames.specs.Steps.{FeedsHeader};
ghost use Rattle.module_frames.specs.Fragments.{Feeds, IsComplete, IsIncomplete, new_fragment, cleared_fragment};

use crate::Command;
use bits_core::LARGEST_BODY;
use std::alloc::{AllocError, Global};
use std::marker::Model;

/// What `Frames` answers to a piece.
#[derive(Clone, Copy, Debug, PartialEq, Eq)]
pub enum Fed {
    /// All of the piece was taken, and no command is whole.
    More,
    /// So many bytes of the piece were taken, and one command stands.
    Whole(usize),
    /// The bytes show a fault at this offset in the whole stream: that of the wrong byte, or of the first byte
    /// of a length that is too large.
    BadFrame(u64),
}

/// Makes commands of bytes that come in any pieces. Contracts see the bytes held and where in the stream they begin.
/// By a rule of the type all its memory is zero but for the bytes held.
#[derive(Drop)]
pub struct Frames {
    start: u64,
    header: [u8; 12],
    count: usize,
    command: Command,
    fault: Option<u64>,
}

impl Model for Frames {
    ghost use Rattle.module_frames.specs.Fragments.{Fragment};

    ghost Value = { Fragment };

    ghost use Rattle.module_frames.specs.Readers.{fragment_of, IsReader};

    ghost view = { fragment_of };

    ghost invariant = { IsReader };
}

// The length of a header of version 1, in bytes, and that of one of version 2, which has a sequence number behind it.
const PLAIN_HEADER: usize = 8;

const NUMBERED_HEADER: usize = 12;

// Fills the header, of so many bytes, up with bytes from the front of the piece, and says how many.
fn fill(header: &mut [u8; 12], size: usize, count: usize, piece: &[u8]) -> usize
    requires within { count ≤ size }
    requires fits { size ≤ 12 }
    ensures taken { result ≡ min (size - count) (length piece.now) }
    ensures bytes { header.new ≡ take count header.old ++ (take result piece.now ++ drop (count + result) header.old) }
{
    let taken = piece.len().min(size - count);
    header[count..count + taken].copy_from_slice(&piece[..taken]);
    taken
}

// Whether the byte at the offset is there and isn't the wanted one.
fn is_wrong_at(header: &[u8], offset: usize, wanted: u8) -> bool
    ensures { result ≡ is_wrong_at header.now offset wanted }
{
    match header.get(offset) {
        Some(byte) => *byte != wanted,
        None => false,
    }
}

// Whether the byte at the offset is there and is the wanted one.
fn is_at(bytes: &[u8], offset: usize, wanted: u8) -> bool
    ensures { result ≡ is_at bytes.now offset wanted }
{
    match bytes.get(offset) {
        Some(byte) => *byte == wanted,
        None => false,
    }
}

// Whether a header is that of version 2 that begins with the bytes held and goes on with the piece.
fn is_numbered_with(held: &[u8], piece: &[u8]) -> bool
    ensures { result ≡ is_numbered (held.now ++ piece.now) }
{
    if held.len() < 2 {
        is_at(piece, 1 - held.len(), 0x02)
    } else {
        is_at(held, 1, 0x02)
    }
}

// How many bytes the header has that begins so.
#[tactic(auto, unfolding(crate::specs::Streams::header_length))]
fn header_length(header: &[u8]) -> usize
    ensures { result ≡ header_length header.now }
{
    if is_at(header, 1, 0x02) {
        NUMBERED_HEADER
    } else {
        PLAIN_HEADER
    }
}

// How many bytes the header has that begins with the bytes held and goes on with the piece.
#[tactic(auto, unfolding(crate::specs::Streams::header_length))]
fn length_with(held: &[u8], piece: &[u8]) -> usize
    ensures { result ≡ header_length (held.now ++ piece.now) }
{
    if is_numbered_with(held, piece) {
        NUMBERED_HEADER
    } else {
        PLAIN_HEADER
    }
}

// The sequence number that a whole header tells, where its version has one.
fn sequence_of(header: &[u8; 12]) -> Option<u32>
    ensures { TellsSequence result header.now }
{
    if is_at(header, 1, 0x02) {
        Some(u32::from_be_bytes([header[8], header[9], header[10], header[11]]))
    } else {
        None
    }
}

// The length of the body that a whole header tells.
fn body_length(header: &[u8]) -> usize
    requires { 8 ≤ length header.now }
    ensures known { result ≡ body_length header.now }
    ensures encoded { to_be_bytes w32 result ≡ length_bytes header.now }
{
    u32::from_be_bytes([header[4], header[5], header[6], header[7]]) as usize
}

// Whether a header tells a body that is too long.
fn is_too_long(header: &[u8]) -> bool
    ensures { result ≡ is_too_long header.now }
{
    header.len() >= PLAIN_HEADER && body_length(header) > LARGEST_BODY
}

// The offset of the first fault that the bytes of a header show.
#[tactic(auto, unfolding(crate::specs::Streams::first_fault))]
fn first_fault(header: &[u8]) -> Option<u64>
    ensures offset { result ≡ first_fault header.now }
    ensures front { IfSome result (λ offset. offset ≤ 4) }
{
    if is_wrong_at(header, 0, 0xc5) {
        Some(0)
    } else if is_wrong_at(header, 1, 0x01) && is_wrong_at(header, 1, 0x02) {
        Some(1)
    } else if is_wrong_at(header, 3, 0x00) {
        Some(3)
    } else if is_too_long(header) {
        Some(4)
    } else {
        None
    }
}

impl Frames {
    /// Holds nothing; a stream begins.
    pub fn new(alloc: Global) -> Result<Frames, AllocError>
        ensures new { IfOk result (λ frames. frames ≡ new_fragment) }
        ensures incomplete { IfOk result (λ frames. IsIncomplete frames.bytes) }
    {
        let command = Command::new(alloc)?;
        Ok(Frames {
            start: 0,
            header: [0; 12],
            count: 0,
            command,
            fault: None,
        })
    }

    // Fills the header up, and says how many bytes it took, or at which offset in the stream the bytes show a fault.
    fn take_header(&mut self, piece: &[u8]) -> Result<usize, u64>
        requires no_fault { self.old.fault ≡ None }
        requires short { self.old.start + length self.old.bytes + length piece.now ≤ 2 ^ 63 }
        ensures { FeedsHeader self.old piece.now result self.new }
    {
        if self.is_headed() {
            return Ok(0);
        }
        let size = length_with(&self.header[..self.count], piece);
        let taken = fill(&mut self.header, size, self.count, piece);
        self.count += taken;
        if let Some(within) = first_fault(&self.header[..self.count]) {
            let offset = self.start + within;
            self.header = [0; 12];
            self.count = 0;
            self.fault = Some(offset);
            return Err(offset);
        }
        if self.count == size {
            self.command
                .begin(self.header[2], sequence_of(&self.header));
        }
        Ok(taken)
    }

    // Whether a whole header is held.
    fn is_headed(&self) -> bool
        ensures yes { result ≡ true → header_length self.now.bytes ≤ length self.now.bytes }
        ensures short { result ≡ false → length self.now.bytes < header_length self.now.bytes }
        ensures incomplete { result ≡ false → IsIncomplete self.now.bytes }
    {
        self.count == header_length(&self.header)
    }

    // Takes bytes of the body, and says how many.
    fn take_body(&mut self, piece: &[u8]) -> usize
        requires no_fault { self.old.fault ≡ None }
        requires headed { header_length self.old.bytes ≤ length self.old.bytes }
        requires short { self.old.start + length self.old.bytes + length piece.now ≤ 2 ^ 63 }
        ensures taken { result ≡ min (header_length self.old.bytes + body_length self.old.bytes - length self.old.bytes) (length piece.now) }
        ensures held { self.new ≡ record self.old { bytes = self.old.bytes ++ take result piece.now } }
    {
        let missing = body_length(&self.header) - self.command.body().len();
        let taken = missing.min(piece.len());
        self.command.push(&piece[..taken]);
        taken
    }

    // Whether a whole command stands; where none does, one may go on so.
    fn is_whole(&self) -> bool
        requires { self.now.fault ≡ None }
        ensures whole { result ≡ true → IsComplete self.now }
        ensures incomplete { result ≡ false → IsIncomplete self.now.bytes }
        ensures short { result ≡ false → length self.now.bytes < header_length self.now.bytes + body_length self.now.bytes }
    {
        self.is_headed() && self.command.body().len() == body_length(&self.header)
    }

    /// Takes bytes from the front of the next piece of the stream, up to the end of a command.
    /// Once it has answered `BadFrame` it holds nothing, and answers the same offset for good.
    /// Where a command stands it takes nothing, and answers `Whole(0)`.
    /// All pieces of a stream together have at most 2^63 bytes.
    pub fn feed(&mut self, piece: &[u8]) -> Fed
        requires { self.old.start + length self.old.bytes + length piece.now ≤ 2 ^ 63 }
        ensures { Feeds self.old piece.now result self.new }
    {
        if let Some(offset) = self.fault {
            return Fed::BadFrame(offset);
        }
        let head = match self.take_header(piece) {
            Ok(head) => head,
            Err(offset) => return Fed::BadFrame(offset),
        };
        if !self.is_headed() {
            return Fed::More;
        }
        let taken = head + self.take_body(&piece[head..]);
        if self.is_whole() {
            Fed::Whole(taken)
        } else {
            Fed::More
        }
    }

    /// The command that stands.
    pub fn command(&self) -> &Command
        requires { IsComplete self.now }
        ensures { IsCommandFrame result.now self.now.bytes }
    {
        &self.command
    }

    /// Forgets what is held, a fragment or the command that stands. No byte of it stays; the offset of a fault does.
    pub fn clear(&mut self)
        ensures cleared { self.new ≡ cleared_fragment self.old }
        ensures incomplete { IsIncomplete self.new.bytes }
    {
        self.start += (self.count + self.command.body().len()) as u64;
        self.header = [0; 12];
        self.count = 0;
        self.command.clear();
    }

    /// Whether the stream may end here: nothing is held, and no fault came.
    pub fn at_boundary(&self) -> bool
        ensures { IsTrue result ↔ ((self.now.bytes ≡ []) × (self.now.fault ≡ None)) }
    {
        self.count == 0 && self.fault.is_none()
    }
}
