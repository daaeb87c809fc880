// Frames: commands and replies in the encodings of module_frames.
ghost use Rattle.std.specs.Prelude.{◌≡◌, ◌+◌, OnOk, OnErr};
ghost use Rattle.outside.specs.Contents.{Appends};
ghost use Rattle.outside.specs.Faults.{FaultCounted};
ghost use Rattle.module_frames.specs.Replies.{frame_of};
ghost use Rattle.module_frames.specs.ReplyFrames.{reply_encoding};
ghost use Rattle.stream_calls.specs.PartialWrites.{AppendsPart};

use crate::codec::{Codec, Decoded};
use module_frames::{Command, Fed, Frames, Reply};
use outside::{Failed, Sink};
use stream_calls::write_all;

/// Writes a reply: its header, and then its payload where there is one.
pub fn send<K: Sink>(reply: &Reply, replies: &mut K) -> Result<(), Failed>
    ensures whole { OnOk result (Appends (K.gained replies.old) (reply_encoding (frame_of reply.now)) (K.gained replies.new)) }
    ensures part { OnErr result (AppendsPart (K.gained replies.old) (reply_encoding (frame_of reply.now)) (K.gained replies.new)) }
    ensures fault_counted { OnErr result (FaultCounted (K.faults replies.old) (K.faults replies.new)) }
    ensures faults_unchanged { OnOk result (K.faults replies.new ≡ K.faults replies.old) }
{
    let mut header = [0; 28];
    let length = reply.header(&mut header);
    write_all(replies, &header[..length])?;
    write_all(replies, reply.payload.bytes())
}

/// Each unit is a frame and makes a command. The number of a fault is its offset in the stream, and the end of the source is read as no byte.
impl Codec for Frames {
    ghost use Rattle.command_serving.specs.FrameGrammar.{frame_grammar, frame_grammar_is_lawful};

    ghost grammar = { frame_grammar };

    ghost holds = { λ frames. frames };

    ghost lawful = { frame_grammar_is_lawful };

    fn decode(&mut self, piece: &[u8]) -> Decoded {
        match self.feed(piece) {
            Fed::More => Decoded::More,
            Fed::Whole(count) => Decoded::Command(count),
            Fed::BadFrame(offset) => Decoded::Fault(offset),
        }
    }

    fn command(&self) -> &Command {
        self.command()
    }

    fn clear(&mut self) {
        self.clear();
    }

    fn is_at_boundary(&self) -> bool {
        self.at_boundary()
    }

    fn end_mark() -> &'static [u8] {
        &[]
    }

    fn write<K: Sink>(&mut self, reply: &Reply, replies: &mut K) -> Result<(), Failed> {
        send(reply, replies)
    }
}
