// Whole runs of `serve`: worked streams, streams that are cut or broken, and reads and writes that fail.
ghost use Rattle.std.specs.Prelude.{◌≤◌};

use crate::file_tests::{DIGEST, SERVE, files_of, words_of};
use crate::run;
use engine_core::Shipped;
use outside::{MemSink, MemSource};
use std::alloc::Global;
use std::test::Fail;

// PowerOn with period 3, ShowStatus, Reset, and their replies.
const STREAM: [u8; 28] = [
    0xc5, 0x01, 0x01, 0x00, 0x00, 0x00, 0x00, 0x04, 0x00, 0x00, 0x00, 0x03, //
    0xc5, 0x01, 0x04, 0x00, 0x00, 0x00, 0x00, 0x00, //
    0xc5, 0x01, 0x07, 0x00, 0x00, 0x00, 0x00, 0x00,
];

const REPLIES: [u8; 72] = [
    0x5c, 0x01, 0x01, 0x00, 0x01, 0, 0, 0, 0, 0, 0, 0, 0, 0, 0, 0, 0, 0, 0, 0, 0, 0, 0, 0, //
    0x5c, 0x01, 0x04, 0x00, 0x01, 0, 0, 0, 0, 0, 0, 0, 0, 0, 0, 3, 0, 0, 0, 0, 0, 0, 0, 0, //
    0x5c, 0x01, 0x07, 0x00, 0x01, 0, 0, 0, 0, 0, 0, 0, 0, 0, 0, 0, 0, 0, 0, 0, 0, 0, 0, 0,
];

// Runs over these bytes, which come so many at a time.
fn outcome(alloc: Global, bytes: &[u8], step: usize) -> Result<(u8, MemSink), Fail>
    requires { 1 ≤ step }
{
    let words = words_of(alloc, &SERVE)?;
    let mut files = files_of(alloc, b"abc".to_vec(alloc)?, DIGEST, &[])?;
    let mut commands = MemSource::new(bytes.to_vec(alloc)?, step, Vec::new(alloc));
    let mut replies = MemSink::new(alloc, 200, 24, Vec::new(alloc))?;
    let status = run(
        alloc,
        &words,
        &mut files,
        &mut commands,
        &mut replies,
        Shipped::new(),
    );
    Ok((status, replies))
}

// Serves the worked stream, eight bytes at a time, where these reads and writes fail.
fn with_faults(
    alloc: Global,
    reads: &[u64],
    writes: &[u64],
    room: usize,
) -> Result<(u8, MemSink), Fail> {
    let words = words_of(alloc, &SERVE)?;
    let mut files = files_of(alloc, b"abc".to_vec(alloc)?, DIGEST, &[])?;
    let mut commands = MemSource::new(STREAM.to_vec(alloc)?, 8, reads.to_vec(alloc)?);
    let mut replies = MemSink::new(alloc, room, 24, writes.to_vec(alloc)?)?;
    let status = run(
        alloc,
        &words,
        &mut files,
        &mut commands,
        &mut replies,
        Shipped::new(),
    );
    Ok((status, replies))
}

// The first so many replies.
fn replies_to(count: usize) -> &'static [u8] {
    match count {
        0 => &[],
        1 => &REPLIES[..24],
        2 => &REPLIES[..48],
        _ => &REPLIES,
    }
}

#[test]
fn answers_the_worked_streams(rt: HostRuntime) -> Result<(), Fail> {
    let off = [
        0x5c, 0x01, 0x04, 0, 0, 0, 0, 0, 0, 0, 0, 0, 0, 0, 0, 0, 0, 0, 0, 0, 0, 0, 0, 0,
    ];
    let no_service = [
        0x5c, 0x01, 0x1e, 1, 0, 0, 0, 0, 0, 0, 0, 0, 0, 0, 0, 0, 0, 0, 0, 0, 0, 0, 0, 0,
    ];
    let echoed = [
        0x5c, 0x01, 0x7e, 1, 0, 0, 0, 0, 0, 0, 0, 0, 0, 0, 0, 0, 0, 0, 0, 0, 0, 0, 0, 0,
    ];
    let not_now = [
        0x5c, 0x01, 0x07, 2, 0, 0, 0, 0, 0, 0, 0, 0, 0, 0, 0, 0, 0, 0, 0, 0, 0, 0, 0, 0,
    ];
    let rows: [(&[u8], &[u8], u8); 10] = [
        (&STREAM, &REPLIES, 0),
        (&[0xc5, 0x01, 0x04, 0, 0, 0, 0, 0], &off, 0),
        (&[0xc5, 0x01, 0x1e, 0, 0, 0, 0, 0], &no_service, 0),
        (&[0xc5, 0x01, 0x7e, 0, 0, 0, 0, 0], &echoed, 0),
        (&[0xc5, 0x01, 0x07, 0, 0, 0, 0, 0], &not_now, 0),
        (&[], &[], 0),
        (&[0xc5, 0x01, 0x04, 0, 0, 0x01, 0, 0x41], &[], 3),
        (&[0xc4], &[], 3),
        (&[0xc5, 0x01, 0x04, 0xff], &[], 3),
        (&[0xc5, 0x01, 0x03, 0, 0], &[], 4),
    ];
    for (bytes, want, status) in rows {
        for step in [1, 65_536] {
            let (got, replies) = outcome(rt.alloc(), bytes, step)?;
            assert_eq!(rt; got, status);
            assert_eq!(rt; replies.bytes(), want);
        }
    }
    Ok(())
}

#[test]
fn knows_a_frame_of_the_longest_body(rt: HostRuntime) -> Result<(), Fail> {
    let mut bytes = vec![in rt.alloc(); 0; 65_608]?;
    bytes[0] = 0xc5;
    bytes[1] = 0x01;
    bytes[2] = 0x04;
    bytes[5] = 0x01;
    bytes[7] = 0x40;
    let (status, replies) = outcome(rt.alloc(), &bytes, 1_000)?;
    assert_eq!(rt; status, 0);
    assert_eq!(rt;
        replies.bytes(),
        [
            0x5c, 0x01, 0x04, 3, 0, 0, 0, 0, 0, 0, 0, 0, 0, 0, 0, 0, 0, 0, 0, 0, 0, 0, 0, 0
        ]
        .as_slice()
    );
    Ok(())
}

#[test]
fn powers_on_once(rt: HostRuntime) -> Result<(), Fail> {
    let mut bytes = STREAM[..12].to_vec(rt.alloc())?;
    bytes.extend_from_slice(&STREAM[..12])?;
    let (status, replies) = outcome(rt.alloc(), &bytes, 5)?;
    assert_eq!(rt; status, 0);
    assert_eq!(rt; replies.bytes().len(), 48);
    assert_eq!(rt;
        &replies.bytes()[24..29],
        [0x5c, 0x01, 0x01, 2, 1].as_slice()
    );
    Ok(())
}

#[test]
fn answers_the_whole_commands_of_a_cut_stream(rt: HostRuntime) -> Result<(), Fail> {
    for length in 0..29 {
        let (status, replies) = outcome(rt.alloc(), &STREAM[..length], 7)?;
        let whole = length == 0 || length == 12 || length == 20 || length == 28;
        let count = usize::from(length >= 12)
            + usize::from(length >= 20)
            + usize::from(length >= 28);
        assert_eq!(rt; status, if whole { 0 } else { 4 });
        assert_eq!(rt; replies.bytes(), replies_to(count));
    }
    Ok(())
}

// A numbered ShowStatus with a body of one byte, and its reply: BadBody.
const NUMBERED: [u8; 13] = *b"\xc5\x02\x04\0\0\0\0\x01\0\0\0\x01\xff";

const NUMBERED_REPLY: [u8; 28] =
    *b"\x5c\x02\x04\x03\0\0\0\0\0\0\0\0\0\0\0\0\0\0\0\0\0\0\0\0\0\0\0\x01";

#[test]
fn a_numbered_frame_is_cut_at_each_byte(rt: HostRuntime) -> Result<(), Fail> {
    for length in 0..14 {
        let (status, replies) = outcome(rt.alloc(), &NUMBERED[..length], 5)?;
        let whole = length == 13;
        assert_eq!(rt; status, if whole || length == 0 { 0 } else { 4 });
        let want: &[u8] = if whole { &NUMBERED_REPLY } else { &[] };
        assert_eq!(rt; replies.bytes(), want);
    }
    Ok(())
}

// A bit turned, or all of them, in the first byte, the version and the reserved byte.
#[test]
fn refuses_a_header_with_another_byte(rt: HostRuntime) -> Result<(), Fail> {
    for (place, bytes) in [
        (0, [0xc4, 0xc7, 0xc1, 0xcd, 0xd5, 0xe5, 0x85, 0x45, 0x3a]),
        (1, [0x00, 0x03, 0x05, 0x09, 0x11, 0x21, 0x41, 0x81, 0xfe]),
        (3, [0x01, 0x02, 0x04, 0x08, 0x10, 0x20, 0x40, 0x80, 0xff]),
    ] {
        for byte in bytes {
            let mut stream = STREAM;
            stream[place] = byte;
            let (status, replies) = outcome(rt.alloc(), &stream, 28)?;
            assert_eq!(rt; status, 3);
            assert_eq!(rt; replies.bytes(), [].as_slice());
        }
    }
    Ok(())
}

#[test]
fn ends_at_a_failed_read(rt: HostRuntime) -> Result<(), Fail> {
    for (call, count) in [(1, 0), (2, 0), (3, 1), (4, 2), (5, 3)] {
        let (status, replies) = with_faults(rt.alloc(), &[call], &[], 100)?;
        assert_eq!(rt; status, 5);
        assert_eq!(rt; replies.bytes(), replies_to(count));
    }
    Ok(())
}

#[test]
fn ends_at_a_failed_write(rt: HostRuntime) -> Result<(), Fail> {
    for (call, count) in [(1, 0), (2, 1), (3, 2)] {
        let (status, replies) = with_faults(rt.alloc(), &[], &[call], 100)?;
        assert_eq!(rt; status, 6);
        assert_eq!(rt; replies.bytes(), replies_to(count));
    }
    let (status, replies) = with_faults(rt.alloc(), &[], &[], 0)?;
    assert_eq!(rt; status, 6);
    assert_eq!(rt; replies.bytes(), [].as_slice());
    Ok(())
}
