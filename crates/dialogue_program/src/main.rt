//! Stored dialogues with the module: a module is opened anew for each, and its replies go to standard output.
//!
//! A word describes a dialogue: the name of a file with its commands. Image, digest and noise are the files `image`, `digest` and
//! `noise`. Where it is had in another way, behind the name stand how many bytes come at a time and the noise's file; and behind these,
//! where one call of the engine is wrong, its number, how many times it is right, and the bit that it turns then. All are parted by one
//! space. Behind the replies to a dialogue stands a line with its description and its exit status.
#![tactic(auto)]

use engine_core::{Engine, Faulty, Shipped};
use module_top::run;
use outside::{DiskFiles, Files, MemSource, StdSink};
use std::env::{self, Env};
use std::io;
use std::process::ExitCode;

const NOISE: &str = "noise";

// More bytes than any dialogue has.
const LONGEST: usize = 1_048_576;

// How many bytes of a dialogue come at a time: no divisor of a frame's length, so that frames are cut anywhere.
const STEP: usize = 4_099;

const COULD_NOT_BEGIN: u8 = 255;

// Has one dialogue, and answers its exit status. None where its file can't be read, no byte comes at a time, or memory is wanting.
fn have<E: Engine>(
    rt: &HostRuntime,
    name: &str,
    step: usize,
    noise: &str,
    engine: E,
) -> Option<u8> {
    if step == 0 {
        return None;
    }
    let mut words = Vec::new(rt.alloc());
    for word in ["serve", "image", "digest", noise] {
        words.push(String::from_str(rt.alloc(), word).ok()?).ok()?;
    }
    let mut files = DiskFiles::new(rt);
    let commands = files.load(rt.alloc(), name, LONGEST).ok()?;
    let status = run(
        rt.alloc(),
        &words,
        &mut files,
        &mut MemSource::new(commands, step, Vec::new(rt.alloc())),
        &mut StdSink::new(rt.stdout()),
        engine,
    );
    Some(status)
}

// The engine of which this call is right so many times, and then turns this bit.
fn faulty(call: &str, right: &str, bit: &str) -> Option<Faulty> {
    let call = call.parse::<u8>().ok()?;
    let right = right.parse::<u32>().ok()?;
    let bit = bit.parse::<u8>().ok()?;
    if call > 9 || bit > 7 {
        return None;
    }
    Some(Faulty::new(call, right, bit))
}

// Has the dialogue that is described.
fn have_described(rt: &HostRuntime, description: &str) -> Option<u8> {
    let mut words = description.split(' ');
    let name = words.next()?;
    let Some(step) = words.next() else {
        return have(rt, name, STEP, NOISE, Shipped::new());
    };
    let step = step.parse::<usize>().ok()?;
    let noise = words.next()?;
    let Some(call) = words.next() else {
        return have(rt, name, step, noise, Shipped::new());
    };
    let engine = faulty(call, words.next()?, words.next()?)?;
    have(rt, name, step, noise, engine)
}

fn descriptions_of(rt: &HostRuntime) -> io::Result<Vec<String>> {
    let descriptions = env::args(rt)?.skip(1).collect(rt.alloc())?;
    Ok(descriptions)
}

fn main(rt: HostRuntime) -> ExitCode {
    let Ok(descriptions) = descriptions_of(&rt) else {
        return ExitCode::from(COULD_NOT_BEGIN);
    };
    for description in descriptions.iter() {
        let Some(status) = have_described(&rt, description.as_str()) else {
            return ExitCode::from(COULD_NOT_BEGIN);
        };
        if println!(rt; "{description} {status}").is_err() {
            return ExitCode::from(COULD_NOT_BEGIN);
        }
    }
    ExitCode::SUCCESS
}
