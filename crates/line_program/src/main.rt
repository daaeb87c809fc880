//! Stored runs of the program: each is given its words and its input, and what it writes goes to standard output.
//!
//! A word of this program's own describes runs: the name of a file with their inputs, and behind it the words that each of them is
//! given, parted by one space. There is one run for each input; a separator parts inputs. Behind what a run writes stands a line with
//! its description and its exit status.
#![tactic(auto)]

use engine_core::Shipped;
use module_top::run;
use outside::{DiskFiles, Files, MemSource, StdSink};
use std::env::{self, Env};
use std::io;
use std::process::ExitCode;

// Parts the inputs of a file: no line has it.
const SEPARATOR: u8 = 0x1e;

// More bytes than any file of inputs has.
const LONGEST: usize = 4_194_304;

// How many bytes of an input come at a time: fewer than most lines have, so that these are cut anywhere.
const STEP: usize = 13;

const COULD_NOT_BEGIN: u8 = 255;

// Has one run, and answers its exit status. None where memory is wanting.
fn have(rt: &HostRuntime, words: &[String], input: &[u8]) -> Option<u8> {
    let commands = input.to_vec(rt.alloc()).ok()?;
    let status = run(
        rt.alloc(),
        words,
        &mut DiskFiles::new(rt),
        &mut MemSource::new(commands, STEP, Vec::new(rt.alloc())),
        &mut StdSink::new(rt.stdout()),
        Shipped::new(),
    );
    Some(status)
}

// The words that stand behind the name of the file.
fn words_of(rt: &HostRuntime, description: &str) -> Option<Vec<String>> {
    let mut words = Vec::new(rt.alloc());
    for word in description.split(' ').skip(1) {
        words.push(String::from_str(rt.alloc(), word).ok()?).ok()?;
    }
    Some(words)
}

// Has the runs that are described, and tells the end of each. None where one could not begin, or its end could not be written.
fn have_all(rt: &HostRuntime, description: &str) -> Option<()> {
    let name = description.split(' ').next()?;
    let words = words_of(rt, description)?;
    let inputs = DiskFiles::new(rt).load(rt.alloc(), name, LONGEST).ok()?;
    for input in inputs.split(|byte| *byte == SEPARATOR) {
        let status = have(rt, &words, input)?;
        println!(rt; "{description} {status}").ok()?;
    }
    Some(())
}

fn descriptions_of(rt: &HostRuntime) -> io::Result<Vec<String>> {
    let descriptions = env::args(rt)?.skip(1).collect(rt.alloc())?;
    Ok(descriptions)
}

fn main(rt: HostRuntime) -> ExitCode {
    let Ok(descriptions) = descriptions_of(&rt) else {
        return ExitCode::from(COULD_NOT_BEGIN);
    };
    for description in descriptions.iter() {
        if have_all(&rt, description.as_str()).is_none() {
            return ExitCode::from(COULD_NOT_BEGIN);
        }
    }
    ExitCode::SUCCESS
}
