// Bytes that go to a writer of the standard library.
ghost use Rattle.std.specs.Prelude.{◌≡◌, ◌≤◌, ◌<◌, ℕ, None, IfOk, IfSome, OnOk, OnErr, IfNone, MatchOption, take, length};
ghost use Rattle.std.specs.Io.KnownBytes.{Appends as WriterAppends, Keeps};
ghost use Rattle.outside.specs.Faults.{FaultCounted};

use crate::{Failed, Sink};
use std::io::{ErrorKind, Write};
use std::marker::Model;

// How often a write that a signal interrupted is tried.
const TRIES: u32 = 1_000;

/// A sink over a writer. Each write is flushed, so that whoever waits for the bytes gets them.
/// It tells no content. A write that a signal interrupts is tried again, at most 1,000 times; each
/// other error of the writer is a fault, and so is a write that takes nothing of a nonempty piece.
#[derive(Drop)]
pub struct StdSink<W> {
    writer: W,
    faults: u64,
}

impl<W> Model for StdSink<W> {
    ghost use Rattle.outside.specs.Adapters.{Adapter};

    ghost Value = { Adapter W };

    ghost view = { λ a. record { inner = a.writer; faults = a.faults } };
}

impl<W> StdSink<W> {
    /// A sink over this writer, with no fault so far.
    pub fn new(writer: W) -> Self
        ensures { result ≡ record { inner = writer; faults = 0 } }
    {
        StdSink { writer, faults: 0 }
    }
}

// One write. None where the writer failed.
fn write_once<W: Write>(writer: &mut W, piece: &[u8]) -> Option<usize>
    ensures { MatchOption result (Keeps (W.contents writer.old) (W.contents writer.new)) (λ n.
        (n ≤ length piece.now) × WriterAppends (W.contents writer.old) (W.contents writer.new) (take n piece.now)) }
{
    for _ in 0..TRIES {
        match writer.write(piece) {
            Ok(count) => return Some(count),
            Err(error) => {
                if error.kind() != ErrorKind::Interrupted {
                    return None;
                }
            }
        }
    }
    None
}

// One write with its flush. None where the writer failed; it may then have taken some of the piece.
fn deliver<W: Write>(writer: &mut W, piece: &[u8]) -> Option<usize>
    ensures some { IfSome result (λ n. (n ≤ length piece.now)
        × WriterAppends (W.contents writer.old) (W.contents writer.new) (take n piece.now)) }
    ensures none { IfNone result ((k : ℕ) × (k ≤ length piece.now)
        × WriterAppends (W.contents writer.old) (W.contents writer.new) (take k piece.now)) }
{
    match write_once(writer, piece) {
        None => None,
        Some(count) => match writer.flush() {
            Ok(()) => Some(count),
            Err(_) => None,
        },
    }
}

impl<W: Write> Sink for StdSink<W> {
    ghost gained = { λ _. None };

    ghost faults = { λ sink. sink.faults };

    /// Where the writer tells its bytes, it gained these, and at a fault some first bytes of the piece.
    fn write(&mut self, piece: &[u8]) -> Result<usize, Failed>
        ensures size { IfOk result (λ n. n ≤ length piece.now) }
        ensures some { IfOk result (λ n. 0 < length piece.now → 0 < n) }
        ensures fault_counted { OnErr result (FaultCounted self.old.faults self.new.faults) }
        ensures faults_unchanged { OnOk result (self.new.faults ≡ self.old.faults) }
        ensures never_falls { self.old.faults ≤ self.new.faults }

        ensures delivered { IfOk result (λ n.
            WriterAppends (W.contents self.old.inner) (W.contents self.new.inner) (take n piece.now)) }
        ensures broken { OnErr result ((k : ℕ) × (k ≤ length piece.now)
            × WriterAppends (W.contents self.old.inner) (W.contents self.new.inner) (take k piece.now)) }
    {
        match deliver(&mut self.writer, piece) {
            Some(count) if count > 0 || piece.is_empty() => Ok(count),
            _ => {
                self.faults = self.faults.saturating_add(1);
                Err(Failed)
            }
        }
    }
}
