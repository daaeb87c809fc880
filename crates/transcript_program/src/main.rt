//! Stored checks of transcripts, each with at most one byte changed: what the program writes of them goes to standard output.
//!
//! A word of this program's own has the names of two files, parted by one space: a transcript, and rows of nine bytes. There is one check
//! for each row: of so many bytes of the transcript, as its first four bytes tell, where the byte at a place, as the next four tell, has
//! the value of the last. Behind what a check writes stands a line with the name of the transcript, these three numbers, and the exit
//! status. Numbers are big-endian; a place behind the bytes changes none. How many bytes come at a time goes by the row's place in turn.
#![tactic(auto)]

ghost use Rattle.std.specs.Prelude.{◌<◌};

use engine_core::Shipped;
use module_top::run;
use outside::{DiskFiles, Files, MemSource, StdSink};
use std::env::{self, Env};
use std::io;
use std::process::ExitCode;

// More bytes than any transcript or file of rows has.
const LONGEST: usize = 1_048_576;

// The bytes of a row.
const ROW: usize = 9;

const COULD_NOT_BEGIN: u8 = 255;

// How many bytes of the transcript, the place of the byte that is changed, and its value there.
type Row = (u32, u32, u8);

fn read_row(row: &[u8]) -> Option<Row> {
    match row {
        [l0, l1, l2, l3, p0, p1, p2, p3, value] => Some((
            u32::from_be_bytes([*l0, *l1, *l2, *l3]),
            u32::from_be_bytes([*p0, *p1, *p2, *p3]),
            *value,
        )),
        _ => None,
    }
}

// How many bytes of a transcript come at a time for the row at this place: mostly so many that frames are cut anywhere, and now and then
// one, few, or as many as a buffer holds.
fn step_at(place: usize) -> usize
    ensures { 0 < result }
{
    match place % 16 {
        1 => 1,
        2 => 7,
        3 => 4096,
        _ => 61,
    }
}

// The transcript that a row makes of this one. None where memory is wanting.
fn changed(rt: &HostRuntime, transcript: &[u8], row: Row) -> Option<Vec<u8>> {
    let (length, place, value) = row;
    let mut bytes = transcript.get(..length as usize)?.to_vec(rt.alloc()).ok()?;
    if let Some(byte) = bytes.get_mut(place as usize) {
        *byte = value;
    }
    Some(bytes)
}

// Checks a transcript of which so many bytes come at a time, and answers the exit status. None where memory is wanting.
fn check(rt: &HostRuntime, transcript: Vec<u8>, step: usize) -> Option<u8>
    requires { 0 < step }
{
    let mut words = Vec::new(rt.alloc());
    words
        .push(String::from_str(rt.alloc(), "check").ok()?)
        .ok()?;
    let status = run(
        rt.alloc(),
        &words,
        &mut DiskFiles::new(rt),
        &mut MemSource::new(transcript, step, Vec::new(rt.alloc())),
        &mut StdSink::new(rt.stdout()),
        Shipped::new(),
    );
    Some(status)
}

// Checks what each row makes of a transcript, and tells the end of each. None where one could not begin, or its end could not be written.
fn check_all(rt: &HostRuntime, description: &str) -> Option<()> {
    let mut names = description.split(' ');
    let name = names.next()?;
    let transcript = DiskFiles::new(rt).load(rt.alloc(), name, LONGEST).ok()?;
    let rows = DiskFiles::new(rt)
        .load(rt.alloc(), names.next()?, LONGEST)
        .ok()?;
    for (place, bytes) in rows.chunks(ROW).enumerate() {
        let row = read_row(bytes)?;
        let status = check(rt, changed(rt, &transcript, row)?, step_at(place))?;
        let (length, changed_at, value) = row;
        println!(rt; "{name} {length} {changed_at} {value} {status}").ok()?;
    }
    Some(())
}

fn descriptions_of(rt: &HostRuntime) -> io::Result<Vec<String>> {
    let descriptions = env::args(rt)?.skip(1).collect(rt.alloc())?;
    Ok(descriptions)
}

fn main(rt: HostRuntime) -> ExitCode {
    let Ok(descriptions) = descriptions_of(&rt) else {
        return ExitCode::from(COULD_NOT_BEGIN);
    };
    for description in descriptions.iter() {
        if check_all(&rt, description.as_str()).is_none() {
            return ExitCode::from(COULD_NOT_BEGIN);
        }
    }
    ExitCode::SUCCESS
}
