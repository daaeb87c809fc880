// Commands and replies as lines.
ghost use Rattle.std.specs.Prelude.{◌≡◌, ◌+◌, ◌++◌, ◌^◌, ◌<◌, ◌≤◌, ◌≢◌, [], true, None, IfOk, OnOk, OnErr, length};
ghost use Rattle.outside.specs.Contents.{Appends};
ghost use Rattle.outside.specs.Faults.{FaultCounted};
ghost use Rattle.bits_core.specs.OutboxContents.{holding};
ghost use Rattle.module_frames.specs.Fragments.{new_fragment};
ghost use Rattle.module_frames.specs.Replies.{frame_of};
ghost use Rattle.reply_lines.specs.ReplyLines.{reply_line};
ghost use Rattle.stream_calls.specs.PartialWrites.{AppendsPart};
ghost use Rattle.line_serving.specs.BadLines.{bad_line_text};

use crate::bad_line::write_bad_line;
use crate::limits::REPLY_ROOM;
use crate::taking::{Taken, take_line};
use bits_core::Outbox;
use command_serving::{Codec, Decoded};
use line_input::Lines;
use module_frames::{Command, Reply};
use outside::{Failed, Sink};
use reply_lines::write_line;
use std::alloc::{AllocError, Global};
use std::marker::Model;
use stream_calls::write_all;

/// Reads commands from lines, and writes replies as lines. Contracts see the bytes held of a line, how many lines ended before it, and the
/// number of a bad line once one came. By a rule of the type no command is held but that of a line that stands, and no byte of a reply.
#[derive(Drop)]
pub struct LineCodec {
    lines: Lines,
    command: Command,
    reply: Outbox,
    ended: u64,
    fault: Option<u64>,
}

impl Model for LineCodec {
    ghost use Rattle.module_frames.specs.Fragments.{Fragment};

    ghost Value = { Fragment };

    ghost use Rattle.line_serving.specs.LineCodecs.{fragment_of, IsLineCodec};

    ghost view = { fragment_of };

    ghost invariant = { IsLineCodec };
}

impl LineCodec {
    /// Holds nothing; a stream of lines begins.
    pub fn new(alloc: Global) -> Result<LineCodec, AllocError>
        ensures { IfOk result (λ codec. codec ≡ new_fragment) }
    {
        Ok(LineCodec {
            lines: Lines::new(alloc)?,
            command: Command::new(alloc)?,
            reply: Outbox::new(alloc, REPLY_ROOM)?,
            ended: 0,
            fault: None,
        })
    }
}

// Writes what the outbox holds, which is no more held then.
fn send_held<K: Sink>(outbox: &mut Outbox, replies: &mut K) -> Result<(), Failed>
    ensures whole { OnOk result (Appends (K.gained replies.old) outbox.old.bytes (K.gained replies.new)) }
    ensures part { OnErr result (AppendsPart (K.gained replies.old) outbox.old.bytes (K.gained replies.new)) }
    ensures fault_counted { OnErr result (FaultCounted (K.faults replies.old) (K.faults replies.new)) }
    ensures faults_unchanged { OnOk result (K.faults replies.new ≡ K.faults replies.old) }
    ensures gone { outbox.new ≡ holding [] outbox.old.room }
{
    let written = write_all(replies, outbox.bytes());
    outbox.clear();
    written
}

impl LineCodec {
    /// Writes the line that tells the number of a bad line, and holds what it held.
    pub(crate) fn tell_bad_line<K: Sink>(
        &mut self,
        number: u64,
        replies: &mut K,
    ) -> Result<(), Failed>
        ensures whole { OnOk result (Appends (K.gained replies.old) (bad_line_text number) (K.gained replies.new)) }
        ensures part { OnErr result (AppendsPart (K.gained replies.old) (bad_line_text number) (K.gained replies.new)) }
        ensures fault_counted { OnErr result (FaultCounted (K.faults replies.old) (K.faults replies.new)) }
        ensures faults_unchanged { OnOk result (K.faults replies.new ≡ K.faults replies.old) }
        ensures held { self.new ≡ self.old }
    {
        write_bad_line(number, &mut self.reply);
        send_held(&mut self.reply, replies)
    }
}

/// Each unit is a line, and makes a command or, as a comment, none. The number of a fault is its line's, counted from 1, and the end of the
/// source is read as an LF.
impl Codec for LineCodec {
    ghost use Rattle.line_serving.specs.LineGrammar.{line_grammar, line_grammar_is_lawful};

    ghost grammar = { line_grammar };

    ghost holds = { λ codec. codec };

    ghost lawful = { line_grammar_is_lawful };

    fn decode(&mut self, piece: &[u8]) -> Decoded {
        let number = self.ended + 1;
        match take_line(&mut self.lines, &mut self.command, piece) {
            Taken::More => Decoded::More,
            Taken::Command(count) => Decoded::Command(count),
            Taken::Comment(count) => {
                self.ended = number;
                Decoded::Skipped(count)
            }
            Taken::Bad => {
                self.fault = Some(number);
                Decoded::Fault(number)
            }
        }
    }

    fn command(&self) -> &Command {
        &self.command
    }

    fn clear(&mut self) {
        if self.lines.stands() {
            self.ended += 1;
        }
        self.lines.clear();
        self.command.clear();
    }

    fn is_at_boundary(&self) -> bool {
        self.lines.is_empty()
    }

    fn end_mark() -> &'static [u8] {
        b"\n"
    }

    fn write<K: Sink>(&mut self, reply: &Reply, replies: &mut K) -> Result<(), Failed> {
        write_line(reply, &mut self.reply);
        send_held(&mut self.reply, replies)
    }
}
