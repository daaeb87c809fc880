// The outside of a run, in which one thing goes wrong.

use crate::sweep::{Fault, Sweep};
use outside::{MemFiles, MemSink, MemSource, Sample};
use std::alloc::Global;

// Room for more than any run writes.
const ROOM: usize = 65_536;

// The repetition count test gives up at so many equal samples.
const REPETITION: u64 = 31;

/// What the runs of a sweep have while nothing goes wrong.
#[derive(Drop)]
pub struct World {
    pub image: Vec<u8>,
    pub digest: Vec<u8>,
    pub keys: Vec<u8>,
    pub backup: Vec<u8>,
    pub noise: Vec<u8>,
    pub input: Vec<u8>,
}

// The calls that fail: that of this number, where it isn't 0.
fn failing(alloc: Global, number: u64) -> Option<Vec<u64>> {
    let mut calls = Vec::new(alloc);
    if number != 0 {
        calls.push(number).ok()?;
    }
    Some(calls)
}

// The event at a place before that at which the noise goes wrong, so far before it.
fn event_before(sweep: &Sweep, before: u64, byte: u8) -> Sample {
    let stuck = match sweep.fault {
        Fault::NoiseEnds | Fault::NoiseFails => before <= sweep.other,
        _ => false,
    };
    Sample::Byte(if stuck { 0 } else { byte })
}

// Whether one of so many events, or of all where that is 0, is a byte that comes too often, and not too often in a row.
fn is_crowded(many: u64, behind: u64) -> bool {
    (many == 0 || behind < many) && behind % REPETITION != REPETITION - 1
}

// The event at a place, counted from 1, which is this byte while nothing goes wrong. None where there is no more noise.
fn event(sweep: &Sweep, turn: u64, place: u64, byte: u8) -> Option<Sample> {
    if place < turn {
        return Some(event_before(sweep, turn - place, byte));
    }
    let behind = place - turn;
    let stuck = match sweep.fault {
        Fault::NoiseEnds => return None,
        Fault::NoiseFails if behind == 0 => return Some(Sample::Failed),
        Fault::NoiseRepeats => behind < REPETITION,
        Fault::NoiseCrowds => is_crowded(sweep.other / 256, behind),
        _ => false,
    };
    let stuck_byte = (sweep.other % 256) as u8;
    Some(Sample::Byte(if stuck { stuck_byte } else { byte }))
}

// The events of the noise.
fn events(alloc: Global, sweep: &Sweep, noise: &[u8], turn: u64) -> Option<Vec<Sample>> {
    let mut found = Vec::new(alloc);
    let mut place: u64 = 0;
    for byte in noise {
        place = place.saturating_add(1);
        let Some(sample) = event(sweep, turn, place, *byte) else {
            return Some(found);
        };
        found.push(sample).ok()?;
    }
    Some(found)
}

fn name_of(alloc: Global, name: &str) -> Option<String> {
    String::from_str(alloc, name).ok()
}

/// The files of a run, and its noise. None where memory is wanting.
pub fn files_of(alloc: Global, sweep: &Sweep, world: &World, turn: u64) -> Option<MemFiles> {
    let mut files = Vec::new(alloc);
    let named: [(&str, &Vec<u8>); 4] = [
        ("image", &world.image),
        ("digest", &world.digest),
        ("keys", &world.keys),
        ("backup", &world.backup),
    ];
    for (name, bytes) in named {
        files
            .push((name_of(alloc, name)?, bytes.to_vec(alloc).ok()?))
            .ok()?;
    }
    let mut noises = Vec::new(alloc);
    noises
        .push((
            name_of(alloc, "noise")?,
            events(alloc, sweep, &world.noise, turn)?,
        ))
        .ok()?;
    let number = if sweep.fault == Fault::File { turn } else { 0 };
    Some(MemFiles::new(files, noises, failing(alloc, number)?))
}

/// The input of a run. None where memory is wanting.
pub fn source_of(alloc: Global, sweep: &Sweep, world: &World, turn: u64) -> Option<MemSource> {
    let number = match sweep.fault {
        Fault::Read => turn,
        Fault::Write => sweep.other,
        _ => 0,
    };
    if sweep.step == 0 {
        return None;
    }
    Some(MemSource::new(
        world.input.to_vec(alloc).ok()?,
        sweep.step,
        failing(alloc, number)?,
    ))
}

/// What takes the output of a run. None where memory is wanting.
pub fn sink_of(alloc: Global, sweep: &Sweep, turn: u64) -> Option<MemSink> {
    let number = match sweep.fault {
        Fault::Write => turn,
        Fault::Read => sweep.other,
        _ => 0,
    };
    if sweep.takes == 0 {
        return None;
    }
    MemSink::new(alloc, ROOM, sweep.takes, failing(alloc, number)?).ok()
}
