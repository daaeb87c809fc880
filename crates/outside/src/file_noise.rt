// Noise that comes from an open file.
ghost use Rattle.std.specs.Prelude.{◌≡◌, ◌≢◌, ◌≤◌, None};
ghost use Rattle.outside.specs.Adapters.{HandsSample};
ghost use Rattle.outside.specs.Faults.{FaultCounted};

use crate::std_source::read_once;
use crate::{Noise, Sample};
use std::io::Read;
use std::marker::Model;

/// Noise from an open file: its bytes, and then `Ended`. Each call reads one byte and no more, so that
/// a later reader of the file misses none. It tells no content. A read that a signal interrupts is
/// tried again, at most 1,000 times; each other error of the file is a fault.
#[derive(Drop)]
pub struct FileNoise<T> {
    file: T,
    faults: u64,
}

impl<T> Model for FileNoise<T> {
    ghost use Rattle.outside.specs.Adapters.{Adapter};

    ghost Value = { Adapter T };

    ghost view = { λ a. record { inner = a.file; faults = a.faults } };
}

impl<T> FileNoise<T> {
    // Noise from this file, with no fault so far.
    pub(crate) fn new(file: T) -> Self
        ensures { result ≡ record { inner = file; faults = 0 } }
    {
        FileNoise { file, faults: 0 }
    }
}

impl<T: Read + Drop> Noise for FileNoise<T> {
    ghost left = { λ _. None };

    ghost faults = { λ noise. noise.faults };

    /// Where the file tells its bytes, the answer is the first of those left, or that there is none.
    fn next(&mut self) -> Sample
        ensures fault_counted { result ≡ Sample.Failed → FaultCounted self.old.faults self.new.faults }
        ensures faults_unchanged { result ≢ Sample.Failed → self.new.faults ≡ self.old.faults }
        ensures never_falls { self.old.faults ≤ self.new.faults }

        ensures handed { HandsSample (T.remaining self.old.inner) (T.remaining self.new.inner) result }
    {
        let mut byte = [0];
        match read_once(&mut self.file, &mut byte) {
            Some(0) => Sample::Ended,
            Some(_) => Sample::Byte(byte[0]),
            None => {
                self.faults = self.faults.saturating_add(1);
                Sample::Failed
            }
        }
    }
}
