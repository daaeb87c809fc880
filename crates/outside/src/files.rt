// What files owe their callers.
ghost use Rattle.std.specs.Prelude.{◌≡◌, ◌≢◌, ◌≤◌, ℕ, Option, Err, IfSome, IfOk, IsErr, OnOk, OnErr, length};
ghost use Rattle.outside.specs.Faults.{FaultCounted};
ghost use Rattle.outside.specs.FilesContent.{FilesContent, HasFile, HasFileAbove, HandsOver};

use crate::{Failed, Noise};
use std::alloc::Global;
use thiserror::Error;

/// Why a file was not loaded.
#[derive(Clone, Copy, Debug, PartialEq, Eq, Drop, Error)]
pub enum LoadFault {
    /// The call failed, as it does where there is no file of the name.
    #[error("Failed")]
    Failed,
    /// The file has more bytes than the limit.
    #[error("TooLong")]
    TooLong,
    /// There was no memory for the bytes.
    #[error("NoMemory")]
    NoMemory,
}

/// Files and noise by name.
pub trait Files {
    /// The noise that a name stands for.
    type Stream: Noise;

    /// The files and noises by name, where they are told.
    ghost content: { Self → Option FilesContent };

    /// How many calls failed. The count never falls, and may stand still at 2^64 - 1.
    ghost faults: { Self → ℕ };

    /// The bytes of the file of this name, at most `limit`. `TooLong` comes for a longer file alone.
    /// The file stays.
    fn load(&mut self, alloc: Global, name: &str, limit: usize) -> Result<Vec<u8>, LoadFault>
        ensures size { IfOk result (λ bytes. length bytes.items ≤ limit) }
        ensures loaded { IfSome (content self.old) (λ all. IfOk result (λ bytes. HasFile all name.now bytes.items)) }
        ensures too_long { IfSome (content self.old) (λ all. result ≡ Err LoadFault.TooLong → HasFileAbove all name.now limit) }
        ensures kept { content self.new ≡ content self.old }
        ensures fault_counted { result ≡ Err LoadFault.Failed → FaultCounted (faults self.old) (faults self.new) }
        ensures faults_unchanged { result ≢ Err LoadFault.Failed → faults self.new ≡ faults self.old }
        ensures never_falls { faults self.old ≤ faults self.new };

    /// The noise of this name. Its events go out of the content, so that the name's next ones come next.
    fn noise(&mut self, name: &str) -> Result<Self::Stream, Failed>
        ensures handed { IfSome (content self.old) (λ all.
            IfOk result (λ stream. HandsOver all name.now (Self.Stream.left stream) (content self.new))) }
        ensures kept { IsErr result → content self.new ≡ content self.old }
        ensures fault_counted { OnErr result (FaultCounted (faults self.old) (faults self.new)) }
        ensures faults_unchanged { OnOk result (faults self.new ≡ faults self.old) }
        ensures never_falls { faults self.old ≤ faults self.new };
}
