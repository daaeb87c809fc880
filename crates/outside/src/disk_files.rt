// The files of a runtime.
ghost use Rattle.std.specs.Prelude.{◌≡◌, ◌≢◌, ◌≤◌, ◌<◌, None, Err, IfOk, OnOk, OnErr, IfSome, length};
ghost use Rattle.outside.specs.Faults.{FaultCounted};

use crate::{Failed, FileNoise, Files, LoadFault};
use std::alloc::Global;
use std::fs;
use std::fs::OpenFile;
use std::io::{ErrorKind, Read};
use std::marker::Model;
use std::rt::Files as RuntimeFiles;

/// The files of a runtime; a name is a path. They tell no content. A name that can't be opened or
/// read, as a folder's, is a fault. A named pipe is waited for, until its other end is opened.
#[derive(Drop)]
pub struct DiskFiles<'a, R> {
    runtime: &'a R,
    faults: u64,
}

impl<'a, R> Model for DiskFiles<'a, R> {
    ghost use Rattle.outside.specs.Adapters.{DiskState};

    ghost Value = { DiskState };

    ghost view = { λ a. record { faults = a.faults } };
}

impl<'a, R> DiskFiles<'a, R> {
    /// The files of this runtime, with no fault so far.
    pub fn new(runtime: &'a R) -> Self
        ensures { result ≡ record { faults = 0 } }
    {
        DiskFiles { runtime, faults: 0 }
    }
}

// Opens a file to read it. None where it can't be opened, and for a folder.
fn open_to_read<R: RuntimeFiles>(runtime: &R, name: &str) -> Option<R::File> {
    let file = fs::open(runtime, name).ok()?;
    let metadata = file.metadata().ok()?;
    if metadata.is_dir() { None } else { Some(file) }
}

// The bytes of a reader, at most `limit`. It asks for one byte past them at most.
pub(crate) fn read_within<T: Read + Drop>(
    alloc: Global,
    reader: T,
    limit: usize,
) -> Result<Vec<u8>, LoadFault>
    ensures size { IfOk result (λ bytes. length bytes.items ≤ limit) }
    ensures whole { IfOk result (λ bytes. IfSome (T.remaining reader) (λ all. bytes.items ≡ all)) }
    ensures too_long { result ≡ Err LoadFault.TooLong → IfSome (T.remaining reader) (λ all. limit < length all) }
{
    let most = (limit as u64).saturating_add(1);
    let mut bytes = Vec::new(alloc);
    match reader.take(most).read_to_end(&mut bytes) {
        Ok(count) if count > limit => Err(LoadFault::TooLong),
        Ok(count) if (count as u64) < most => Ok(bytes),
        // No memory holds 2^64 - 1 bytes.
        Ok(_) => Err(LoadFault::NoMemory),
        Err(error) if error.kind() == ErrorKind::OutOfMemory => Err(LoadFault::NoMemory),
        Err(_) => Err(LoadFault::Failed),
    }
}

impl<'a, R: RuntimeFiles> Files for DiskFiles<'a, R> {
    type Stream = FileNoise<R::File>;

    ghost content = { λ _. None };

    ghost faults = { λ files. files.faults };

    /// The file is read to one byte past `limit` at most, whatever its size.
    fn load(&mut self, alloc: Global, name: &str, limit: usize) -> Result<Vec<u8>, LoadFault>
        ensures size { IfOk result (λ bytes. length bytes.items ≤ limit) }
        ensures fault_counted { result ≡ Err LoadFault.Failed → FaultCounted self.old.faults self.new.faults }
        ensures faults_unchanged { result ≢ Err LoadFault.Failed → self.new.faults ≡ self.old.faults }
        ensures never_falls { self.old.faults ≤ self.new.faults }
    {
        let loaded = match open_to_read(self.runtime, name) {
            Some(file) => read_within(alloc, file, limit),
            None => Err(LoadFault::Failed),
        };
        if let Err(LoadFault::Failed) = loaded {
            self.faults = self.faults.saturating_add(1);
        }
        loaded
    }

    /// The bytes of the file from its beginning. Each call opens the file anew.
    fn noise(&mut self, name: &str) -> Result<FileNoise<R::File>, Failed>
        ensures fresh { IfOk result (λ stream. stream.faults ≡ 0) }
        ensures fault_counted { OnErr result (FaultCounted self.old.faults self.new.faults) }
        ensures faults_unchanged { OnOk result (self.new.faults ≡ self.old.faults) }
        ensures never_falls { self.old.faults ≤ self.new.faults }
    {
        match open_to_read(self.runtime, name) {
            Some(file) => Ok(FileNoise::new(file)),
            None => {
                self.faults = self.faults.saturating_add(1);
                Err(Failed)
            }
        }
    }
}
