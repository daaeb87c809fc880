// Transcripts, with each byte of each reply's head set to each value, against what a script says of them.
use crate::Checker;
use crate::transcript_rows::{
    DIALOGUE, DIALOGUE_ROWS, FAILURES, FAILURES_ROWS, KEYS, KEYS_ROWS, NUMBERED, NUMBERED_ROWS,
    PERIODS, PERIODS_ROWS, Row,
};
use module_frames::{Command, reply_head};
use std::alloc::{AllocError, Global};
use std::test::Fail;

// The value of a hexadecimal digit.
fn digit(letter: u8) -> Option<u8> {
    match letter {
        b'0'..=b'9' => Some(letter.wrapping_sub(b'0')),
        b'a'..=b'f' => Some(letter.wrapping_sub(b'a').wrapping_add(10)),
        _ => None,
    }
}

// Puts the bytes that a line spells behind the others; between two frames stands a space.
fn push_line(bytes: &mut Vec<u8>, line: &str) -> Result<(), AllocError> {
    let mut high = None;
    for letter in line.as_bytes() {
        match (high, digit(*letter)) {
            (_, None) => high = None,
            (None, Some(value)) => high = Some(value << 4),
            (Some(front), Some(value)) => {
                bytes.push(front | value)?;
                high = None;
            }
        }
    }
    Ok(())
}

// The pairs of a transcript, one behind another, without payloads.
fn pairs_of(alloc: Global, lines: &[&str]) -> Result<Vec<u8>, AllocError> {
    let mut bytes = Vec::new(alloc);
    for line in lines {
        push_line(&mut bytes, line)?;
    }
    Ok(bytes)
}

fn number(bytes: &[u8]) -> u32 {
    match bytes {
        [a, b, c, d] => u32::from_be_bytes([*a, *b, *c, *d]),
        _ => 0,
    }
}

// Reads the command's frame at the front, and answers what stands behind it.
fn take_command<'a>(bytes: &'a [u8], command: &mut Command) -> Option<&'a [u8]> {
    let service = *bytes.get(2)?;
    let length = number(bytes.get(4..8)?) as usize;
    let is_numbered = *bytes.get(1)? == 2;
    let tail = bytes.get(if is_numbered { 12 } else { 8 }..)?;
    let body = tail.get(..length)?;
    if body.len() > 65_600 {
        return None;
    }
    if is_numbered {
        command.set_numbered(service, number(bytes.get(8..12)?), body);
    } else {
        command.set(service, body);
    }
    tail.get(length..)
}

// Reads the pair at the front, and answers its reply's head and what stands behind it.
fn take_pair<'a>(bytes: &'a [u8], command: &mut Command) -> Option<(&'a [u8], &'a [u8])> {
    let reply = take_command(bytes, command)?;
    let size = if *reply.get(1)? == 2 { 28usize } else { 24 };
    Some((reply.get(..size)?, reply.get(size..)?))
}

// Whether the walk goes on with this pair.
fn goes_on(walk: &mut Checker, command: &Command, head: &[u8]) -> bool {
    match reply_head(head) {
        Some(told) => walk.step(command, &told),
        None => false,
    }
}

// The number of the first pair that isn't lawful, where the walk goes on with the one of this number; 0 where there is none.
fn first_unlawful(checker: Checker, bytes: &[u8], command: &mut Command, from: u32) -> u32 {
    let mut walk = checker;
    let mut rest = bytes;
    for turn in 0..200u32 {
        if rest.is_empty() {
            return 0;
        }
        let Some((head, behind)) = take_pair(rest, command) else {
            return u32::MAX;
        };
        if !goes_on(&mut walk, command, head) {
            return from.wrapping_add(turn);
        }
        rest = behind;
    }
    u32::MAX
}

// What the script says of a pair with this byte changed to this value.
fn wanted(rows: &[Row], pair: u32, byte: usize, value: u8) -> u32 {
    for (of_pair, first, last, from, to, verdict) in rows {
        let is_of_byte = *of_pair == pair && *first <= byte && byte <= *last;
        if is_of_byte && *from <= value && value <= *to {
            return *verdict;
        }
    }
    pair
}

// Where a walk stands: before the pair of this number, whose command was read, with its reply's head and what stands behind it.
#[derive(Clone, Copy)]
struct Place<'a> {
    walk: Checker,
    pair: u32,
    head: &'a [u8],
    behind: &'a [u8],
    rows: &'a [Row],
}

// What is said of the pair with this head.
fn verdict(place: &Place<'_>, head: &[u8], command: &Command, ahead: &mut Command) -> u32 {
    let mut walk = place.walk;
    if !goes_on(&mut walk, command, head) {
        return place.pair;
    }
    first_unlawful(walk, place.behind, ahead, place.pair.wrapping_add(1))
}

// Whether the pair is found lawful or not as the script says, with this byte set to each other value.
fn byte_is_judged(place: &Place<'_>, byte: usize, command: &Command, ahead: &mut Command) -> bool {
    let size = place.head.len().min(28);
    let mut head = [0; 28];
    head[..size].copy_from_slice(&place.head[..size]);
    for value in 0..256u32 {
        let value = value as u8;
        if byte >= size || value == place.head[byte] {
            continue;
        }
        head[byte] = value;
        let said = verdict(place, &head[..size], command, ahead);
        if said != wanted(place.rows, place.pair, byte, value) {
            return false;
        }
    }
    true
}

// The first byte of this pair's head of which something else is found than the script says, or 28 where there is none.
fn misjudged_byte(place: &Place<'_>, command: &Command, ahead: &mut Command) -> usize {
    for byte in 0..28usize {
        if !byte_is_judged(place, byte, command, ahead) {
            return byte;
        }
    }
    28
}

// How many pairs there are, or the first of which something else is found than the script says, and the byte; 100 where it isn't one, and
// 101 where it isn't lawful as it is.
fn judged(alloc: Global, lines: &[&str], rows: &[Row]) -> Result<(u32, usize), AllocError> {
    let (mut command, mut ahead) = (Command::new(alloc)?, Command::new(alloc)?);
    let bytes = pairs_of(alloc, lines)?;
    let mut walk = Checker::new();
    let mut rest = bytes.as_slice();
    for pair in 1..200u32 {
        if rest.is_empty() {
            return Ok((pair.wrapping_sub(1), 28));
        }
        let Some((head, behind)) = take_pair(rest, &mut command) else {
            return Ok((pair, 100));
        };
        let place = Place {
            walk,
            pair,
            head,
            behind,
            rows,
        };
        let byte = misjudged_byte(&place, &command, &mut ahead);
        if byte != 28 {
            return Ok((pair, byte));
        }
        if !goes_on(&mut walk, &command, head) {
            return Ok((pair, 101));
        }
        rest = behind;
    }
    Ok((200, 0))
}

#[test]
fn the_dialogue_of_the_manual_is_judged(rt: HostRuntime) -> Result<(), Fail> {
    assert_eq!(rt; judged(rt.alloc(), &DIALOGUE, &DIALOGUE_ROWS)?, (38, 28));
    Ok(())
}

#[test]
fn the_dialogue_with_keys_is_judged(rt: HostRuntime) -> Result<(), Fail> {
    assert_eq!(rt; judged(rt.alloc(), &KEYS, &KEYS_ROWS)?, (55, 28));
    Ok(())
}

#[test]
fn numbered_commands_are_judged(rt: HostRuntime) -> Result<(), Fail> {
    assert_eq!(rt; judged(rt.alloc(), &NUMBERED, &NUMBERED_ROWS)?, (22, 28));
    Ok(())
}

#[test]
fn failures_are_judged(rt: HostRuntime) -> Result<(), Fail> {
    assert_eq!(rt; judged(rt.alloc(), &FAILURES, &FAILURES_ROWS)?, (136, 28));
    Ok(())
}

#[test]
fn ends_of_periods_are_judged(rt: HostRuntime) -> Result<(), Fail> {
    assert_eq!(rt; judged(rt.alloc(), &PERIODS, &PERIODS_ROWS)?, (45, 28));
    Ok(())
}

// The pair with zeros where the command brings bytes of a parameter or its check value.
fn take_blanked<'a>(bytes: &'a [u8], command: &mut Command) -> Option<(&'a [u8], &'a [u8])> {
    let pair = take_pair(bytes, command)?;
    let service = command.service();
    let length = command.body().len().min(64);
    if service == 0x09 || service == 0x0a {
        let zeros = [0; 64];
        match command.sequence() {
            Some(number) => command.set_numbered(service, number, &zeros[..length]),
            None => command.set(service, &zeros[..length]),
        }
    }
    Some(pair)
}

// How many pairs of a transcript are lawful with its entered bytes blanked, and how many there are.
fn blanked(alloc: Global, lines: &[&str]) -> Result<(u32, u32), AllocError> {
    let mut command = Command::new(alloc)?;
    let bytes = pairs_of(alloc, lines)?;
    let mut walk = Checker::new();
    let mut rest = bytes.as_slice();
    let mut lawful = 0u32;
    for pair in 0..200u32 {
        let Some((head, behind)) = take_blanked(rest, &mut command) else {
            return Ok((lawful, pair));
        };
        if goes_on(&mut walk, &command, head) {
            lawful = lawful.wrapping_add(1);
        }
        rest = behind;
    }
    Ok((lawful, 200))
}

#[test]
fn entered_bytes_may_be_blanked(rt: HostRuntime) -> Result<(), Fail> {
    let alloc = rt.alloc();
    assert_eq!(rt; blanked(alloc, &DIALOGUE)?, (38, 38));
    assert_eq!(rt; blanked(alloc, &KEYS)?, (55, 55));
    assert_eq!(rt; blanked(alloc, &NUMBERED)?, (22, 22));
    assert_eq!(rt; blanked(alloc, &PERIODS)?, (45, 45));
    Ok(())
}
