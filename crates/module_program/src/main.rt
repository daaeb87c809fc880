//! The program: the words after its name, the files that they name, standard input and standard output, and the exit status.
#![tactic(auto)]

#[cfg(test)]
mod file_tests;
#[cfg(test)]
mod noise_rows;
#[cfg(test)]
mod noise_tests;
#[cfg(test)]
mod runs;
#[cfg(test)]
mod tests;

use engine_core::Shipped;
use module_top::{RunFault, run};
use outside::{DiskFiles, StdSink, StdSource};
use std::env::{self, Env};
use std::io;
use std::process::ExitCode;

const USAGE: u8 = 2;

const OUT_OF_MEMORY: u8 = 7;

// The words after the program's name.
fn words_of<R: Env + AllocGlobal>(rt: &R) -> io::Result<Vec<String>> {
    let words = env::args(rt)?.skip(1).collect(rt.alloc())?;
    Ok(words)
}

// Runs on real files and streams. A word that isn't UTF-8 is a faulty command line.
fn main(rt: HostRuntime) -> ExitCode {
    let status = match words_of(&rt) {
        Ok(words) => run(
            rt.alloc(),
            &words,
            &mut DiskFiles::new(&rt),
            &mut StdSource::new(rt.stdin()),
            &mut StdSink::new(rt.stdout()),
            Shipped::new(),
        ),
        Err(error) if error.kind() == io::ErrorKind::InvalidData => USAGE,
        Err(_) => OUT_OF_MEMORY,
    };
    if let Some(fault) = RunFault::of(status) {
        let _ = eprintln!(rt; "{fault}");
    }
    ExitCode::from(status)
}
