//! Stored runs of the program over backups: each is given its words and its input, and what it writes goes to standard output.
//!
//! A word of this program's own describes runs: the name of a file with their inputs, and behind it the words that each of them is
//! given, parted by one space. Where the first of these is `restore`, the third names a file of backups, each behind its length in two
//! bytes, big-endian; each is in turn what the run finds under this name. There is a run for each input and each backup; a separator
//! parts inputs. Behind what a run writes stands a line with its description and its exit status.
#![tactic(auto)]

use engine_core::Shipped;
use module_top::run;
use outside::{DiskFiles, Files, LoadFault, MemFiles, MemSource, Sample, StdSink};
use std::env::{self, Env};
use std::io;
use std::process::ExitCode;

const RESTORE: &str = "restore";

// The place of the word that names backups.
const BACKUPS: usize = 2;

// Parts the inputs of a file: no line has it.
const SEPARATOR: u8 = 0x1e;

// More bytes than any file has.
const LONGEST: usize = 1_048_576;

// How many bytes of an input come at a time: fewer than most lines have, so that these are cut anywhere.
const STEP: usize = 13;

const COULD_NOT_BEGIN: u8 = 255;

fn copied(rt: &HostRuntime, word: &str) -> Option<String> {
    String::from_str(rt.alloc(), word).ok()
}

fn samples_of(rt: &HostRuntime, bytes: &[u8]) -> Option<Vec<Sample>> {
    let mut samples = Vec::new(rt.alloc());
    for byte in bytes {
        samples.push(Sample::Byte(*byte)).ok()?;
    }
    Some(samples)
}

// The files and the noises of a run, by the words that name them; where there is a backup, it is the file that is named for it.
fn files_of(rt: &HostRuntime, words: &[String], backup: Option<&[u8]>) -> Option<MemFiles> {
    let mut files = Vec::new(rt.alloc());
    let mut noises = Vec::new(rt.alloc());
    if let Some(bytes) = backup {
        let name = copied(rt, words.get(BACKUPS)?.as_str())?;
        files.push((name, bytes.to_vec(rt.alloc()).ok()?)).ok()?;
    }
    for word in words.iter().skip(1) {
        match DiskFiles::new(rt).load(rt.alloc(), word.as_str(), LONGEST) {
            Ok(content) => {
                let samples = samples_of(rt, &content)?;
                noises.push((copied(rt, word.as_str())?, samples)).ok()?;
                files.push((copied(rt, word.as_str())?, content)).ok()?;
            }
            Err(LoadFault::Failed) => {}
            Err(_) => return None,
        }
    }
    Some(MemFiles::new(files, noises, Vec::new(rt.alloc())))
}

// Has one run, and tells its end. None where it could not begin, or its end could not be written.
fn have(
    rt: &HostRuntime,
    description: &str,
    words: &[String],
    input: &[u8],
    backup: Option<&[u8]>,
) -> Option<()> {
    let status = run(
        rt.alloc(),
        words,
        &mut files_of(rt, words, backup)?,
        &mut MemSource::new(input.to_vec(rt.alloc()).ok()?, STEP, Vec::new(rt.alloc())),
        &mut StdSink::new(rt.stdout()),
        Shipped::new(),
    );
    println!(rt; "{description} {status}").ok()
}

// Has a run for each of these backups, one behind the other.
fn have_each(
    rt: &HostRuntime,
    description: &str,
    words: &[String],
    input: &[u8],
    backups: &[u8],
) -> Option<()> {
    let mut rest = backups;
    // Each takes two bytes at least, so that these are turns enough.
    for _ in 0..backups.len() {
        let [high, low, more @ ..] = rest else {
            return Some(());
        };
        let length = usize::from(u16::from_be_bytes([*high, *low]));
        let (backup, others) = more.split_at_checked(length)?;
        have(rt, description, words, input, Some(backup))?;
        rest = others;
    }
    Some(())
}

// The words that stand behind the name of the file.
fn words_of(rt: &HostRuntime, description: &str) -> Option<Vec<String>> {
    let mut words = Vec::new(rt.alloc());
    for word in description.split(' ').skip(1) {
        words.push(copied(rt, word)?).ok()?;
    }
    Some(words)
}

// The backups that the words name. None where they name none, or none that is there.
fn backups_of(rt: &HostRuntime, words: &[String]) -> Option<Vec<u8>> {
    if words.first()?.as_str() != RESTORE {
        return None;
    }
    DiskFiles::new(rt)
        .load(rt.alloc(), words.get(BACKUPS)?.as_str(), LONGEST)
        .ok()
}

// Has the runs that are described.
fn have_all(rt: &HostRuntime, description: &str) -> Option<()> {
    let name = description.split(' ').next()?;
    let words = words_of(rt, description)?;
    let backups = backups_of(rt, &words);
    let inputs = DiskFiles::new(rt).load(rt.alloc(), name, LONGEST).ok()?;
    for input in inputs.split(|byte| *byte == SEPARATOR) {
        match &backups {
            Some(all) => have_each(rt, description, &words, input, all)?,
            None => have(rt, description, &words, input, None)?,
        }
    }
    Some(())
}

fn descriptions_of(rt: &HostRuntime) -> io::Result<Vec<String>> {
    let descriptions = env::args(rt)?.skip(1).collect(rt.alloc())?;
    Ok(descriptions)
}

fn main(rt: HostRuntime) -> ExitCode {
    let Ok(descriptions) = descriptions_of(&rt) else {
        return ExitCode::from(COULD_NOT_BEGIN);
    };
    for description in descriptions.iter() {
        if have_all(&rt, description.as_str()).is_none() {
            return ExitCode::from(COULD_NOT_BEGIN);
        }
    }
    ExitCode::SUCCESS
}
