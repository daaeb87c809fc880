// How commands are read from a stream, and replies written to one.
ghost use Rattle.std.specs.Prelude.{◌≡◌, ◌≤◌, ◌+◌, ◌++◌, ◌^◌, ◌↔◌, ℕ, List, [], ◌∷◌, OnOk, OnErr, IsTrue, length};
ghost use Rattle.outside.specs.Contents.{Appends};
ghost use Rattle.outside.specs.Faults.{FaultCounted};
ghost use Rattle.module_frames.specs.CommandFrames.{CommandFrame};
ghost use Rattle.module_frames.specs.Fragments.{Fragment};
ghost use Rattle.module_frames.specs.Replies.{frame_of};
ghost use Rattle.command_serving.specs.Grammars.{Grammar, IsEndMark, IsLawful};
ghost use Rattle.command_serving.specs.Decoding.{IsReady, Decodes, cleared};
ghost use Rattle.stream_calls.specs.PartialWrites.{AppendsPart};

use module_frames::{Command, Reply};
use outside::{Failed, Sink};

/// What a codec answers to a piece.
#[derive(Clone, Copy, Debug, PartialEq, Eq)]
pub enum Decoded {
    /// All of the piece was taken, and no unit is whole.
    More,
    /// So many bytes of the piece were taken, and one command stands.
    Command(usize),
    /// So many bytes of the piece were taken, and were the end of a unit that makes no command.
    Skipped(usize),
    /// The bytes show a fault, which has this number in the whole stream.
    Fault(u64),
}

/// How commands are read from bytes that come in any pieces, and how replies are written.
///
/// A stream is a sequence of units, each of which makes one command or none. Its faults have numbers: offsets, or any others that
/// grow with the units. The end of the source may complete a unit.
pub trait Codec {
    /// The grammar of commands and replies.
    ghost grammar: { Grammar };

    /// What is held of the stream, and the start from which the faults behind it are counted.
    ghost holds: { Self → Fragment };

    /// Takes bytes from the front of the next piece of the stream, up to the end of a unit.
    fn decode(&mut self, piece: &[u8]) -> Decoded
        requires ready { IsReady grammar (holds self.old) }
        requires short { (holds self.old).start + length (holds self.old).bytes + length piece.now ≤ 2 ^ 63 }
        ensures { Decodes grammar (holds self.old) piece.now result (holds self.new) };

    /// The command that stands.
    fn command(&self) -> &Command
        requires { (command : CommandFrame) × grammar.Encodes (holds self.now).bytes (command ∷ []) }
        ensures { grammar.Encodes (holds self.now).bytes (result.now ∷ []) };

    /// Forgets the command that stands. No byte of it stays.
    fn clear(&mut self)
        ensures { holds self.new ≡ cleared grammar (holds self.old) };

    /// Whether nothing is held.
    fn is_at_boundary(&self) -> bool
        requires { IsReady grammar (holds self.now) }
        ensures { IsTrue result ↔ ((holds self.now).bytes ≡ []) };

    /// The bytes that the end of the source is read as, at most one.
    fn end_mark() -> &'static [u8]
        ensures read { IsEndMark grammar result.now }
        ensures short { length result.now ≤ 1 };

    /// Writes a reply, and holds what it held.
    fn write<K: Sink>(&mut self, reply: &Reply, replies: &mut K) -> Result<(), Failed>
        ensures whole { OnOk result (Appends (K.gained replies.old) (grammar.reply_encoding (frame_of reply.now)) (K.gained replies.new)) }
        ensures part { OnErr result (AppendsPart (K.gained replies.old) (grammar.reply_encoding (frame_of reply.now)) (K.gained replies.new)) }
        ensures fault_counted { OnErr result (FaultCounted (K.faults replies.old) (K.faults replies.new)) }
        ensures faults_unchanged { OnOk result (K.faults replies.new ≡ K.faults replies.old) }
        ensures held { holds self.new ≡ holds self.old };

    // What each grammar keeps to.
    ghost lawful: { IsLawful grammar };
}
