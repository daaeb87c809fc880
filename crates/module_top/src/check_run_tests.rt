// Whole runs of `check`: what is answered to a worked transcript, and where reads and writes fail.
ghost use Rattle.std.specs.Prelude.{◌≤◌};

use crate::file_tests::{files_of, words_of};
use crate::run;
use engine_core::Shipped;
use outside::{MemSink, MemSource};
use std::alloc::Global;
use std::test::Fail;

// PowerOn with period 3, ShowStatus and Reset, each with its reply behind it.
const TRANSCRIPT: [u8; 100] = [
    0xc5, 0x01, 0x01, 0x00, 0x00, 0x00, 0x00, 0x04, 0x00, 0x00, 0x00, 0x03, //
    0x5c, 0x01, 0x01, 0x00, 0x01, 0, 0, 0, 0, 0, 0, 0, 0, 0, 0, 0, 0, 0, 0, 0, 0, 0, 0, 0, //
    0xc5, 0x01, 0x04, 0x00, 0x00, 0x00, 0x00, 0x00, //
    0x5c, 0x01, 0x04, 0x00, 0x01, 0, 0, 0, 0, 0, 0, 0, 0, 0, 0, 3, 0, 0, 0, 0, 0, 0, 0, 0, //
    0xc5, 0x01, 0x07, 0x00, 0x00, 0x00, 0x00, 0x00, //
    0x5c, 0x01, 0x07, 0x00, 0x01, 0, 0, 0, 0, 0, 0, 0, 0, 0, 0, 0, 0, 0, 0, 0, 0, 0, 0, 0,
];

// Checks these bytes, which come so many at a time, where these reads and writes fail; a write takes four bytes.
fn verdict(
    alloc: Global,
    bytes: &[u8],
    step: usize,
    reads: &[u64],
    writes: &[u64],
) -> Result<(u8, MemSink), Fail>
    requires { 1 ≤ step }
{
    let words = words_of(alloc, &["check"])?;
    let mut files = files_of(alloc, Vec::new(alloc), b"", &[1])?;
    let mut transcript = MemSource::new(bytes.to_vec(alloc)?, step, reads.to_vec(alloc)?);
    let mut verdict = MemSink::new(alloc, 65, 4, writes.to_vec(alloc)?)?;
    let status = run(
        alloc,
        &words,
        &mut files,
        &mut transcript,
        &mut verdict,
        Shipped::new(),
    );
    Ok((status, verdict))
}

// The transcript with another byte at this place.
fn with_byte(place: usize, byte: u8) -> [u8; 100]
    requires { place ≤ 99 }
{
    let mut bytes = TRANSCRIPT;
    bytes[place] = byte;
    bytes
}

#[test]
fn tells_the_verdict(rt: HostRuntime) -> Result<(), Fail> {
    let rows: [(&[u8], &[u8], u8); 7] = [
        (&TRANSCRIPT, b"lawful 3\n", 0),
        (&[], b"lawful 0\n", 0),
        (&TRANSCRIPT[..44], b"", 4),
        // Off in the first reply and Officer in the second; a head that begins with no 5c; a period of 4 in the block.
        (&with_byte(16, 0), b"pair 1\n", 16),
        (&with_byte(48, 4), b"pair 2\n", 16),
        (&with_byte(44, 0), b"", 3),
        (&with_byte(59, 4), b"pair 2\n", 16),
    ];
    for (bytes, want, status) in rows {
        for step in [1, 65_536] {
            let (got, written) = verdict(rt.alloc(), bytes, step, &[], &[])?;
            assert_eq!(rt; got, status);
            assert_eq!(rt; written.bytes(), want);
        }
    }
    Ok(())
}

#[test]
fn tells_a_failed_read_and_a_failed_write(rt: HostRuntime) -> Result<(), Fail> {
    // Reads of 50 bytes: two, and that of the end.
    for call in [1, 2, 3] {
        let (status, written) = verdict(rt.alloc(), &TRANSCRIPT, 50, &[call], &[])?;
        assert_eq!(rt; status, 5);
        assert_eq!(rt; written.bytes(), [].as_slice());
    }
    // The word takes two writes, the number one, and so does the line feed.
    let parts: [(u64, &[u8]); 4] = [(1, b""), (2, b"lawf"), (3, b"lawful "), (4, b"lawful 3")];
    for (call, want) in parts {
        let (status, written) = verdict(rt.alloc(), &TRANSCRIPT, 50, &[], &[call])?;
        assert_eq!(rt; status, 6);
        assert_eq!(rt; written.bytes(), want);
    }
    Ok(())
}
