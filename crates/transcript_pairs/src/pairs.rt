// Bytes in any pieces, and the pairs of a transcript that they encode.
ghost use Rattle.std.specs.Prelude.{◌≡◌, ◌↔◌, ◌+◌, ◌-◌, ◌^◌, ◌≤◌, ◌<◌, [], true, false, None, IfOk, IsTrue, MatchResult, length};
ghost use Rattle.module_frames.specs.CommandFrames.{IsCommandFrame};
ghost use Rattle.transcript_pairs.specs.ReplyStreams.{head_size, payload_length};
ghost use Rattle.transcript_pairs.specs.PairStreams.{FeedsPair, HoldsPair, IsWholeReply, cleared_pair, held_length, new_pair};
ghost use Rattle.transcript_pairs.specs.PairSteps.{BreaksReply, Gathers, HoldsCommand, TakesCommand, TakesHead};

use crate::head_bytes::HeadBytes;
use crate::reply_faults::{head_size, read_whole, reply_fault};
use module_frames::{Command, Fed, Frames, ReplyHead};
use std::alloc::{AllocError, Global};
use std::marker::Model;

/// What `Pairs` answers to a piece.
#[derive(Clone, Copy, Debug, PartialEq, Eq)]
pub enum PairFed {
    /// All of the piece was taken, and no pair is whole.
    More,
    /// So many bytes of the piece were taken, and one pair stands.
    Whole(usize),
    /// The bytes show a fault at this offset in the whole transcript: that of the wrong byte, or of the first byte of a length that is
    /// too large.
    BadFrame(u64),
}

/// Makes pairs of the bytes of a transcript, each command's frame followed by its reply's, that come in any pieces. Payloads are skipped and
/// not kept. Contracts see the bytes held, how many of a payload came, and where in the transcript the pair begins.
#[derive(Drop)]
pub struct Pairs {
    start: u64,
    /// How long the commands before this pair's are together, and how many bytes of this one's came.
    commands: u64,
    taken: u64,
    frames: Frames,
    head: HeadBytes,
    skipped: usize,
    fault: Option<u64>,
}

impl Model for Pairs {
    ghost use Rattle.transcript_pairs.specs.PairStreams.{HeldPair};

    ghost Value = { HeldPair };

    ghost use Rattle.transcript_pairs.specs.PairSteps.{pair_of, IsPairReader};

    ghost view = { pair_of };

    ghost invariant = { IsPairReader };
}

impl Pairs {
    /// Holds nothing; a transcript begins.
    pub fn new(alloc: Global) -> Result<Pairs, AllocError>
        ensures { IfOk result (λ pairs. pairs ≡ new_pair 0 None) }
    {
        let frames = Frames::new(alloc)?;
        Ok(Pairs {
            start: 0,
            commands: 0,
            taken: 0,
            frames,
            head: HeadBytes::new(),
            skipped: 0,
            fault: None,
        })
    }

    // Takes bytes of the command's frame.
    fn take_command(&mut self, piece: &[u8]) -> Fed
        requires no_fault { self.old.fault ≡ None }
        requires short { self.old.start + held_length self.old + length piece.now ≤ 2 ^ 63 }
        ensures { TakesCommand self.old piece.now result self.new }
    {
        if !self.head.bytes().is_empty() {
            return Fed::Whole(0);
        }
        let answer = self.frames.feed(piece);
        match answer {
            Fed::More => {
                self.taken += piece.len() as u64;
            }
            Fed::Whole(count) => {
                self.taken += count as u64;
            }
            Fed::BadFrame(offset) => {
                let place = self.start + (offset - self.commands);
                self.taken = 0;
                self.fault = Some(place);
                return Fed::BadFrame(place);
            }
        }
        answer
    }

    // Takes bytes of the reply's head, up to the size that those held tell, and says how many, or at which offset they show a fault.
    fn gather(&mut self, piece: &[u8]) -> Result<usize, u64>
        requires no_fault { self.old.fault ≡ None }
        requires stands { HoldsCommand self.old }
        requires short { self.old.start + held_length self.old + length piece.now ≤ 2 ^ 63 }
        ensures { Gathers self.old piece.now result self.new }
    {
        let size = head_size(self.head.bytes());
        let count = self.head.fill(size, piece);
        let Some(within) = reply_fault(self.head.bytes()) else {
            return Ok(count);
        };
        let place = self.start + self.taken + within;
        self.commands += self.taken;
        self.taken = 0;
        self.frames.clear();
        self.head.clear();
        self.skipped = 0;
        self.fault = Some(place);
        Err(place)
    }

    // Takes bytes of the reply's head: in two steps, since the first 24 tell whether there are four more.
    fn take_head(&mut self, piece: &[u8]) -> Result<usize, u64>
        requires no_fault { self.old.fault ≡ None }
        requires stands { HoldsCommand self.old }
        requires short { self.old.start + held_length self.old + length piece.now ≤ 2 ^ 63 }
        ensures { MatchResult result (λ count. TakesHead self.old piece.now count self.new) (λ offset. BreaksReply self.old piece.now offset self.new) }
    {
        let front = self.gather(piece)?;
        let back = self.gather(&piece[front..])?;
        Ok(front + back)
    }

    // Whether a whole head is held.
    fn is_headed(&self) -> bool
        ensures { IsTrue result ↔ (head_size self.now.head ≤ length self.now.head) }
    {
        head_size(self.head.bytes()) <= self.head.bytes().len()
    }

    // Skips bytes of the payload, and says how many.
    fn skip_payload(&mut self, piece: &[u8]) -> usize
        requires no_fault { self.old.fault ≡ None }
        requires short { self.old.start + held_length self.old + length piece.now ≤ 2 ^ 63 }
        ensures within { result ≤ length piece.now }
        ensures held { self.new ≡ record self.old { skipped = self.old.skipped + result } }
        ensures part { length self.old.head < head_size self.old.head → result ≡ 0 }
        ensures all { head_size self.old.head ≤ length self.old.head → self.new.skipped < payload_length self.old.head → result ≡ length piece.now }
    {
        if !self.is_headed() {
            return 0;
        }
        let missing = read_whole(self.head.bytes()).length as usize - self.skipped;
        let taken = missing.min(piece.len());
        self.skipped += taken;
        taken
    }

    // Whether a whole pair is held; where none is, the command's frame being whole, one may go on so.
    fn is_whole(&self) -> bool
        requires no_fault { self.now.fault ≡ None }
        requires stands { HoldsCommand self.now }
        ensures whole { result ≡ true → HoldsPair self.now }
        ensures short { result ≡ false → length self.now.head + self.now.skipped < head_size self.now.head + payload_length self.now.head }
    {
        let head = self.head.bytes();
        if head.len() < head_size(head) {
            return false;
        }
        self.skipped == read_whole(head).length as usize
    }

    /// Takes bytes from the front of the next piece of the transcript, up to the end of a pair.
    /// Once it has answered `BadFrame` it holds nothing, and answers the same offset for good: a command's byte 0, 1 or 3 or its length is wrong,
    /// or a reply's byte 0, 1, 3, 4 or 5 is none that a reply has there, or its payload's length is above 65,664.
    /// Where a pair stands it takes nothing, and answers `Whole(0)`.
    /// All pieces of a transcript together have at most 2^63 bytes.
    pub fn feed(&mut self, piece: &[u8]) -> PairFed
        requires { self.old.start + held_length self.old + length piece.now ≤ 2 ^ 63 }
        ensures { FeedsPair self.old piece.now result self.new }
    {
        if let Some(offset) = self.fault {
            return PairFed::BadFrame(offset);
        }
        let command = match self.take_command(piece) {
            Fed::More => return PairFed::More,
            Fed::BadFrame(offset) => return PairFed::BadFrame(offset),
            Fed::Whole(count) => count,
        };
        let reply = &piece[command..];
        let head = match self.take_head(reply) {
            Ok(count) => count,
            Err(offset) => return PairFed::BadFrame(offset),
        };
        let payload = self.skip_payload(&reply[head..]);
        if self.is_whole() {
            PairFed::Whole(command + head + payload)
        } else {
            PairFed::More
        }
    }

    /// The command of the pair that stands.
    pub fn command(&self) -> &Command
        requires { HoldsPair self.now }
        ensures { IsCommandFrame result.now self.now.command }
    {
        self.frames.command()
    }

    /// The head of the reply of the pair that stands.
    pub fn head(&self) -> ReplyHead
        requires { HoldsPair self.now }
        ensures { IsWholeReply result self.now }
    {
        read_whole(self.head.bytes())
    }

    /// Forgets what is held, part of a pair or the one that stands. The offset of a fault stays.
    pub fn clear(&mut self)
        ensures { self.new ≡ cleared_pair self.old }
    {
        self.start += self.taken + self.head.bytes().len() as u64 + self.skipped as u64;
        self.commands += self.taken;
        self.taken = 0;
        self.frames.clear();
        self.head.clear();
        self.skipped = 0;
    }

    /// Whether the transcript may end here: nothing of a pair is held, and no fault came.
    pub fn at_boundary(&self) -> bool
        ensures { IsTrue result ↔ ((held_length self.now ≡ 0) × (self.now.fault ≡ None)) }
    {
        self.taken == 0 && self.fault.is_none()
    }
}
