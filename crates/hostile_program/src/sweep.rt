// Runs of a kind: what goes wrong in them, at which turns, and over which input.

use std::alloc::Global;

/// What goes wrong. Turns are counted from 1, and the other number of a sweep tells more of it.
#[derive(Clone, Copy, Debug, PartialEq, Eq)]
pub enum Fault {
    /// The read of this turn fails, and the write of the other number, where that isn't 0.
    Read,
    /// The write of this turn fails, and the read of the other number, where that isn't 0.
    Write,
    /// The call on files of this turn fails.
    File,
    /// The noise ends before the event of this turn. As many events before that as the other number says are zeros.
    NoiseEnds,
    /// The event of this turn is that the noise failed. As many events before that as the other number says are zeros.
    NoiseFails,
    /// 31 events from this turn on are the byte of the other number.
    NoiseRepeats,
    /// From this turn on all events but each 31st are the lowest byte of the other number, or so many of them as its higher bytes say.
    NoiseCrowds,
    /// The engine's call of this number lies from this turn on, by the bit of the other number.
    Call(u8),
}

/// The runs that a word describes. It has ten parts or more, parted by one space: the fault, the other number, the first turn, the last,
/// by how much they grow, how many bytes come at a time, how many go at a time, the name of the input's file, and the words of the runs.
#[derive(Drop)]
pub struct Sweep<'a> {
    pub fault: Fault,
    pub other: u64,
    pub first: u64,
    pub last: u64,
    pub by: u64,
    pub step: usize,
    pub takes: usize,
    pub input: &'a str,
    pub words: Vec<String>,
}

// The engine's call of this name.
fn call_of(name: &str) -> Option<u8> {
    match name {
        "hash" => Some(0),
        "mac" => Some(1),
        "seal" => Some(2),
        "open" => Some(3),
        "wrap" => Some(4),
        "unwrap" => Some(5),
        "derive" => Some(6),
        "instantiate" => Some(7),
        "reseed" => Some(8),
        "generate" => Some(9),
        _ => None,
    }
}

fn fault_of(name: &str) -> Option<Fault> {
    match name {
        "read" => Some(Fault::Read),
        "write" => Some(Fault::Write),
        "file" => Some(Fault::File),
        "noise_ends" => Some(Fault::NoiseEnds),
        "noise_fails" => Some(Fault::NoiseFails),
        "noise_repeats" => Some(Fault::NoiseRepeats),
        "noise_crowds" => Some(Fault::NoiseCrowds),
        _ => Some(Fault::Call(call_of(name)?)),
    }
}

fn number_of(part: Option<&str>) -> Option<u64> {
    part?.parse::<u64>().ok()
}

// A number that isn't 0.
fn size_of(part: Option<&str>) -> Option<usize> {
    let size = part?.parse::<usize>().ok()?;
    if size == 0 { None } else { Some(size) }
}

// The words of the runs, which stand behind eight other parts.
fn words_of(alloc: Global, description: &str) -> Option<Vec<String>> {
    let mut words = Vec::new(alloc);
    for word in description.split(' ').skip(8) {
        words.push(String::from_str(alloc, word).ok()?).ok()?;
    }
    Some(words)
}

/// The runs that a description describes. None where it has another form, or memory is wanting.
pub fn sweep_of(alloc: Global, description: &str) -> Option<Sweep<'_>> {
    let mut parts = description.split(' ');
    Some(Sweep {
        fault: fault_of(parts.next()?)?,
        other: number_of(parts.next())?,
        first: number_of(parts.next())?,
        last: number_of(parts.next())?,
        by: size_of(parts.next())? as u64,
        step: size_of(parts.next())?,
        takes: size_of(parts.next())?,
        input: parts.next()?,
        words: words_of(alloc, description)?,
    })
}
