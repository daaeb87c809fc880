// Bytes that come from a reader of the standard library.
ghost use Rattle.std.specs.Prelude.{◌≡◌, ◌≤◌, ◌<◌, ℕ, None, IfOk, OnOk, OnErr, MatchOption, take, length};
ghost use Rattle.std.specs.Io.KnownBytes.{Consumes as ReaderConsumes, IsAtEnd as ReaderIsAtEnd, Keeps, ReadConsumes};
ghost use Rattle.outside.specs.Faults.{FaultCounted};

use crate::{Failed, Source};
use std::io::{ErrorKind, Read};
use std::marker::Model;

// How often a read that a signal interrupted is tried.
const TRIES: u32 = 1_000;

/// A source over a reader. It hands out what one read of the reader gives and never waits for more.
/// It tells no content. A read that a signal interrupts is tried again, at most 1,000 times; each
/// other error of the reader is a fault.
#[derive(Drop)]
pub struct StdSource<R> {
    reader: R,
    faults: u64,
}

impl<R> Model for StdSource<R> {
    ghost use Rattle.outside.specs.Adapters.{Adapter};

    ghost Value = { Adapter R };

    ghost view = { λ a. record { inner = a.reader; faults = a.faults } };
}

impl<R> StdSource<R> {
    /// A source over this reader, with no fault so far.
    pub fn new(reader: R) -> Self
        ensures { result ≡ record { inner = reader; faults = 0 } }
    {
        StdSource { reader, faults: 0 }
    }
}

// One read. None where the reader failed.
pub(crate) fn read_once<R: Read>(reader: &mut R, into: &mut [u8]) -> Option<usize>
    ensures { MatchOption result (Keeps (R.remaining reader.old) (R.remaining reader.new)) (λ n. (n ≤ length into.old)
        × ReaderConsumes (R.remaining reader.old) (R.remaining reader.new) (take n into.new)
        × (n ≡ 0 → 0 < length into.old → ReaderIsAtEnd (R.remaining reader.new))) }
{
    for _ in 0..TRIES {
        match reader.read(into) {
            Ok(count) => return Some(count),
            Err(error) => {
                if error.kind() != ErrorKind::Interrupted {
                    return None;
                }
            }
        }
    }
    None
}

impl<R: Read> Source for StdSource<R> {
    ghost left = { λ _. None };

    ghost faults = { λ source. source.faults };

    /// Where the reader tells its bytes, these come from their front, and a fault takes none of them.
    fn read(&mut self, into: &mut [u8]) -> Result<usize, Failed>
        ensures size { IfOk result (λ n. n ≤ length into.old) }
        ensures fault_counted { OnErr result (FaultCounted self.old.faults self.new.faults) }
        ensures faults_unchanged { OnOk result (self.new.faults ≡ self.old.faults) }
        ensures never_falls { self.old.faults ≤ self.new.faults }

        ensures handed { ReadConsumes (R.remaining self.old.inner) (R.remaining self.new.inner) result into.new }
    {
        match read_once(&mut self.reader, into) {
            Some(count) => Ok(count),
            None => {
                self.faults = self.faults.saturating_add(1);
                Err(Failed)
            }
        }
    }
}
