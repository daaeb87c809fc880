// Transcripts in pieces of any size: the pairs that stand, and the first faults.
ghost use Rattle.std.specs.Prelude.{◌+◌, ◌≤◌};
ghost use Rattle.transcript_pairs.specs.PairStreams.{held_length};

use crate::fault_rows::{CUTS, ROWS, Read, Row, TRANSCRIPT};
use crate::{PairFed, Pairs};
use module_frames::{Command, ReplyHead};
use service_table::{State, Status};
use std::alloc::{AllocError, Global};
use std::test::Fail;

// A reader that is fed no more than 2^41 bytes, how many pairs stood, and how many of them were those of the transcript in turn.
#[derive(Drop)]
struct Feeder {
    pairs: Pairs,
    whole: u32,
    expected: u32,
    fed: u64,
    ghost placed: { pairs.start + held_length pairs ≤ fed },
}

// The largest piece, and the most bytes before one.
const MOST: u64 = 1 << 40;

// What stands for no fault.
const NONE: u64 = 255;

fn begin(alloc: Global) -> Result<Feeder, AllocError> {
    let pairs = Pairs::new(alloc)?;
    Ok(Feeder {
        pairs,
        whole: 0,
        expected: 0,
        fed: 0,
    })
}

// The service, the sequence number and the body of the transcript's command of this number, from 0 on.
fn command_of(number: u32) -> (u8, Option<u32>, &'static [u8]) {
    match number {
        0 => (0x01, None, &[0, 0, 0, 3]),
        1 => (0x05, Some(1), &[]),
        _ => (0x10, None, &[1]),
    }
}

// The head of its reply.
fn head_of(number: u32) -> ReplyHead {
    let (service, sequence, _) = command_of(number);
    ReplyHead {
        service,
        sequence,
        status: Status::Ok,
        state: if number < 2 {
            State::Init
        } else {
            State::Officer
        },
        approved: number >= 2,
        code: 0,
        block: if number == 1 {
            *b"SYMMOD 01.00"
        } else {
            [0; 12]
        },
        length: if number < 2 { 0 } else { 32 },
    }
}

// Whether these are the command of this number and its reply's head.
fn is_expected(number: u32, command: &Command, head: &ReplyHead) -> bool {
    let (service, sequence, body) = command_of(number);
    command.service() == service
        && command.sequence() == sequence
        && command.body() == body
        && *head == head_of(number)
}

// Feeds a piece; where a pair stands it is looked at and cleared.
fn feed(feeder: Feeder, piece: &[u8]) -> (Feeder, PairFed) {
    let Feeder {
        mut pairs,
        mut whole,
        mut expected,
        fed,
    } = feeder;
    let length = piece.len() as u64;
    if fed > MOST || length > MOST {
        return (
            Feeder {
                pairs,
                whole,
                expected,
                fed,
            },
            PairFed::More,
        );
    }
    let answer = pairs.feed(piece);
    if let PairFed::Whole(_) = answer {
        if is_expected(whole % 3, pairs.command(), &pairs.head()) {
            expected = expected.wrapping_add(1);
        }
        whole = whole.wrapping_add(1);
        pairs.clear();
    }
    let feeder = Feeder {
        pairs,
        whole,
        expected,
        fed: fed + length,
    };
    (feeder, answer)
}

// What was read where the fault is at this offset, which is told again for good.
fn broken(feeder: Feeder, place: u64) -> (Read, u32) {
    let shown = feeder.fed.wrapping_sub(1);
    let is_whole = feeder.pairs.at_boundary();
    let (whole, expected) = (feeder.whole, feeder.expected);
    let (_, again) = feed(feeder, &[0xc5]);
    let place = if again == PairFed::BadFrame(place) {
        place
    } else {
        0
    };
    ((whole, place, shown, is_whole), expected)
}

// What is read where pieces have at most so many bytes, and how many of the pairs are those of the transcript. The byte that shows a fault
// is told right with pieces of one byte alone.
fn read(alloc: Global, bytes: &[u8], step: usize) -> Result<(Read, u32), AllocError> {
    let mut feeder = begin(alloc)?;
    let mut rest = bytes;
    for _turn in 0..20_000u32 {
        if rest.is_empty() {
            let is_whole = feeder.pairs.at_boundary();
            return Ok(((feeder.whole, NONE, NONE, is_whole), feeder.expected));
        }
        let size = rest.len().min(step);
        let (next, answer) = feed(feeder, &rest[..size]);
        feeder = next;
        let taken = match answer {
            PairFed::More => size,
            PairFed::Whole(count) => count,
            PairFed::BadFrame(place) => return Ok(broken(feeder, place)),
        };
        rest = rest.get(taken..).unwrap_or(&[]);
    }
    Ok(((u32::MAX, NONE, NONE, false), 0))
}

#[test]
fn pairs_stand_however_cut(rt: HostRuntime) -> Result<(), Fail> {
    let mut bytes = Vec::new(rt.alloc());
    for _turn in 0..31u32 {
        bytes.extend_from_slice(&TRANSCRIPT)?;
    }
    for step in [1usize, 7, 64, 4096] {
        assert_eq!(rt;
            read(rt.alloc(), &bytes, step)?,
            ((93, NONE, NONE, true), 93)
        );
    }
    Ok(())
}

// Whether the transcript with this byte set to this value is read so.
fn is_found(alloc: Global, byte: usize, value: u8, wanted: Read) -> Result<bool, AllocError> {
    let mut bytes = TRANSCRIPT;
    match bytes.get_mut(byte) {
        Some(changed) => *changed = value,
        None => return Ok(false),
    }
    let (one_by_one, _) = read(alloc, &bytes, 1)?;
    let (at_once, _) = read(alloc, &bytes, 141)?;
    Ok(
        one_by_one == wanted
            && at_once.0 == wanted.0
            && at_once.1 == wanted.1
            && at_once.3 == wanted.3,
    )
}

// What a row tells with the byte set to this value.
fn told(row: &Row, value: u8) -> Read {
    let (_, from, _, step, (pairs, place, shown, is_whole)) = *row;
    let way = u64::from(value.wrapping_sub(from)).wrapping_mul(step);
    (
        pairs,
        place.wrapping_add(way),
        shown.wrapping_add(way),
        is_whole,
    )
}

// The first value of a row of which something else is read than it tells; None where there is none. Where the fault stays where it is, the
// first value and the last stand for those between.
fn misread(alloc: Global, row: &Row) -> Result<Option<u8>, AllocError> {
    let (byte, from, to, step, _) = *row;
    for value in from..=to {
        let is_tried = step > 0 || value == from || value == to;
        if is_tried && !is_found(alloc, byte, value, told(row, value))? {
            return Ok(Some(value));
        }
    }
    Ok(None)
}

#[test]
fn faults_are_told_where_they_show(rt: HostRuntime) -> Result<(), Fail> {
    for row in &ROWS {
        assert_eq!(rt; misread(rt.alloc(), row)?, None);
    }
    Ok(())
}

// What is read of so many bytes, as the cuts tell.
fn cut_at(length: usize) -> Read {
    for (from, to, wanted) in &CUTS {
        if *from <= length && length <= *to {
            return *wanted;
        }
    }
    (u32::MAX, 0, 0, false)
}

#[test]
fn transcripts_may_be_cut_off(rt: HostRuntime) -> Result<(), Fail> {
    for length in 0..142usize {
        let front = TRANSCRIPT.get(..length).unwrap_or(&[]);
        let (found, _) = read(rt.alloc(), front, 5)?;
        assert_eq!(rt; found, cut_at(length));
    }
    Ok(())
}
