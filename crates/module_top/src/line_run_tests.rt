// Whole runs over lines: an operator's, a session's and vectors. Many more stand as stored runs in a program's crate.
ghost use Rattle.std.specs.Prelude.{◌≤◌};

use crate::file_tests::{DIGEST, files_of, words_of};
use crate::run;
use engine_core::Shipped;
use outside::{MemSink, MemSource};
use std::alloc::Global;
use std::test::Fail;

// Runs the words over this input, which comes so many bytes at a time, where these reads and writes fail.
fn outcome(
    alloc: Global,
    words: &[&str],
    input: &[u8],
    step: usize,
    reads: &[u64],
    writes: &[u64],
) -> Result<(u8, MemSink), Fail>
    requires { 1 ≤ step }
{
    let words = words_of(alloc, words)?;
    let mut files = files_of(alloc, b"abc".to_vec(alloc)?, DIGEST, &[])?;
    let mut lines = MemSource::new(input.to_vec(alloc)?, step, reads.to_vec(alloc)?);
    let mut replies = MemSink::new(alloc, 500, 500, writes.to_vec(alloc)?)?;
    let status = run(
        alloc,
        &words,
        &mut files,
        &mut lines,
        &mut replies,
        Shipped::new(),
    );
    Ok((status, replies))
}

const OPERATE: [&str; 4] = ["operate", "image", "digest", "noise"];

const LINES: &[u8] = b"poweron 0\n# a note\nfrob\nstatus\n";

const REPLY: &[u8] = b"Ok Init 0 0000 000000000000000000000000 -\n";

const REPLY_AND_BAD_LINE: &[u8] = b"Ok Init 0 0000 000000000000000000000000 -\nbad line 3\n";

#[test]
fn answers_lines_up_to_a_bad_one(rt: HostRuntime) -> Result<(), Fail> {
    for step in [1, 5, 100] {
        let (status, replies) = outcome(rt.alloc(), &OPERATE, LINES, step, &[], &[])?;
        assert_eq!(rt; status, 10);
        assert_eq!(rt; replies.bytes(), REPLY_AND_BAD_LINE);
    }
    // The last line has no LF.
    let (status, replies) = outcome(rt.alloc(), &OPERATE, b"poweron 0", 4, &[], &[])?;
    assert_eq!(rt; status, 0);
    assert_eq!(rt; replies.bytes(), REPLY);
    Ok(())
}

#[test]
fn tells_a_failed_call_over_lines(rt: HostRuntime) -> Result<(), Fail> {
    // The reads and writes that fail, the status, and whether the first reply is written.
    let rows: [(&[u64], &[u64], u8, bool); 4] = [
        (&[1], &[], 5, false),
        (&[3], &[], 5, true),
        (&[], &[1], 6, false),
        (&[], &[2], 6, true),
    ];
    for (reads, writes, want, replied) in rows {
        let (status, replies) = outcome(rt.alloc(), &OPERATE, LINES, 10, reads, writes)?;
        assert_eq!(rt; status, want);
        assert_eq!(rt; replies.bytes() == REPLY, replied);
        assert_eq!(rt; replies.bytes().is_empty(), !replied);
    }
    Ok(())
}

// By the model in checks/machine_sessions.py: no noise is there, so that the third test step leads to Error.
const SUMMARY: &[u8] =
    b"commands 13\nstatus 0 4\nstatus 1 0\nstatus 2 8\nstatus 3 0\nstatus 4 0\nstatus 5 1\nstatus 6 0\nstatus 7 0\n\
status 8 0\nstatus 9 0\nstatus 10 0\nstatus 11 0\nstatus 12 0\nstatus 13 0\nstatus 14 0\nstatus 15 0\npayload 0\nstate Error\n\
sha256 600016c9dd6a9e459f6287e5ecd80faa123b073928913b0ba98c20f567f06a97\n";

#[test]
fn writes_a_summary(rt: HostRuntime) -> Result<(), Fail> {
    let words = ["session", "7", "2", "image", "digest", "noise"];
    let (status, replies) = outcome(rt.alloc(), &words, b"left alone", 1, &[1], &[])?;
    assert_eq!(rt; status, 0);
    assert_eq!(rt; replies.bytes(), SUMMARY);
    let (status, replies) = outcome(rt.alloc(), &words, b"", 1, &[], &[1])?;
    assert_eq!(rt; status, 6);
    assert_eq!(rt; replies.bytes(), [].as_slice());
    Ok(())
}

const VECTORS: &[u8] =
    b"sha256 616263 ba7816bf8f01cfea414140de5dae2223b00361a396177a9cb410ff61f20015ad\nsha256 616263 00\n";

#[test]
fn reports_vectors(rt: HostRuntime) -> Result<(), Fail> {
    // The input, the reads and writes that fail, the status, and what is written.
    let rows: [(&[u8], &[u64], &[u64], u8, &[u8]); 6] = [
        (VECTORS, &[], &[], 1, b"1 pass\n2 fail\n1 of 2\n"),
        (&VECTORS[..79], &[], &[], 0, b"1 pass\n1 of 1\n"),
        (b"# none\n\nsha256 6\n", &[], &[], 10, b"bad line 3\n"),
        (VECTORS, &[2], &[], 5, b"1 pass\n2 fail\n1 of 2\n"),
        // The last line is written behind a failed read, and fails too.
        (b"", &[1], &[1], 6, b""),
        (b"", &[], &[], 0, b"0 of 0\n"),
    ];
    for (input, reads, writes, want, report) in rows {
        let (status, written) = outcome(rt.alloc(), &["vectors"], input, 500, reads, writes)?;
        assert_eq!(rt; status, want);
        assert_eq!(rt; written.bytes(), report);
    }
    Ok(())
}
