// Reports over sources and sinks of known content, against the rows of `checks/vector_report_rows.py`. Calls are counted from 1.
mod rows;

ghost use Rattle.std.specs.Prelude.{◌≤◌};

use crate::{Reported, report_vectors};
use engine_core::Shipped;
use line_input::Lines;
use outside::{MemSink, MemSource};
use std::alloc::Global;
use std::test::Fail;

// How the report of a source ends whose reads take so many bytes, and what is written.
fn reported(
    alloc: Global,
    mut vectors: MemSource,
    mut report: MemSink,
) -> Result<(Reported, Vec<u8>), Fail> {
    let mut lines = Lines::new(alloc)?;
    let mut work = vec![in alloc; 0xff; 131_456]?;
    let mut chunk = vec![in alloc; 0xff; 100]?;
    let answer = report_vectors(
        &mut Shipped::new(),
        &mut vectors,
        &mut report,
        &mut lines,
        &mut work,
        &mut chunk,
    );
    Ok((answer, report.bytes().to_vec(alloc)?))
}

// A source whose reads take so many bytes, and the listed ones of which fail.
fn source(alloc: Global, text: &[u8], step: usize, fail: &[u64]) -> Result<MemSource, Fail>
    requires { 1 ≤ step }
{
    Ok(MemSource::new(text.to_vec(alloc)?, step, fail.to_vec(alloc)?))
}

// A sink with room for so many bytes, whose writes take so many and of which the listed ones fail.
fn sink(alloc: Global, room: usize, step: usize, fail: &[u64]) -> Result<MemSink, Fail>
    requires { 1 ≤ step }
{
    Ok(MemSink::new(alloc, room, step, fail.to_vec(alloc)?)?)
}

#[test]
fn lines_have_their_report(rt: HostRuntime) -> Result<(), Fail> {
    let alloc = rt.alloc();
    for (text, answer, report) in rows::whole() {
        for step in [1, 3, 100] {
            let vectors = source(alloc, text.as_bytes(), step, &[])?;
            let (ended, written) = reported(alloc, vectors, sink(alloc, 1_000, step, &[])?)?;
            assert_eq!(rt; ended, *answer);
            assert_eq!(rt; written.as_slice(), report.as_bytes());
        }
    }
    Ok(())
}

#[test]
fn a_failed_read_leaves_the_report_of_whole_lines(rt: HostRuntime) -> Result<(), Fail> {
    let alloc = rt.alloc();
    for (call, report) in rows::cut().iter().enumerate() {
        let vectors = source(alloc, rows::CUT_LINES.as_bytes(), 20, &[call as u64 + 1])?;
        let (ended, written) = reported(alloc, vectors, sink(alloc, 1_000, 100, &[])?)?;
        assert_eq!(rt; ended, Reported::ReadFault);
        assert_eq!(rt; written.as_slice(), report.as_bytes());
    }
    Ok(())
}

#[test]
fn a_failed_write_leaves_a_part(rt: HostRuntime) -> Result<(), Fail> {
    let alloc = rt.alloc();
    let text = b"#\nsha256 616263 00\nsha256";
    let report = b"2 fail\nbad line 3\n".as_slice();
    for count in 0..report.len() {
        // The write of each byte fails in turn; or the sink is full.
        let failing = sink(alloc, 1_000, 1, &[count as u64 + 1])?;
        let full = sink(alloc, count, 100, &[])?;
        for faulty in [failing, full] {
            let (ended, written) = reported(alloc, source(alloc, text, 7, &[])?, faulty)?;
            assert_eq!(rt; ended, Reported::WriteFault);
            assert_eq!(rt; written.as_slice(), &report[..count]);
        }
    }
    Ok(())
}

#[test]
fn the_last_line_may_fail_too(rt: HostRuntime) -> Result<(), Fail> {
    let alloc = rt.alloc();
    let text = b"sha256 616263 00\nsha256 616263";
    let report = b"1 fail\n0 of 1\n".as_slice();
    for room in 0..=report.len() {
        let vectors = source(alloc, text, 9, &[4])?;
        let (ended, written) = reported(alloc, vectors, sink(alloc, room, 3, &[])?)?;
        let answer = if room < report.len() {
            Reported::WriteFault
        } else {
            Reported::ReadFault
        };
        assert_eq!(rt; ended, answer);
        assert_eq!(rt; written.as_slice(), &report[..room]);
    }
    Ok(())
}

#[test]
fn nothing_is_read_behind_a_bad_line(rt: HostRuntime) -> Result<(), Fail> {
    let alloc = rt.alloc();
    let text = b"#\n!\n# more\n";
    for step in 1..5 {
        // The read behind the one that takes the bad line's LF fails.
        let next = 4_u64.div_ceil(step) + 1;
        let vectors = source(alloc, text, step as usize, &[next])?;
        let (ended, written) = reported(alloc, vectors, sink(alloc, 100, 100, &[])?)?;
        assert_eq!(rt; ended, Reported::BadLine(2));
        assert_eq!(rt; written.as_slice(), b"bad line 2\n".as_slice());
    }
    Ok(())
}

// A comment of so many bytes, and then some bytes more.
fn comment(alloc: Global, count: usize, more: &[u8]) -> Result<Vec<u8>, Fail> {
    let mut text = vec![in alloc; b'#'; count]?;
    text.extend_from_slice(more)?;
    Ok(text)
}

#[test]
fn a_line_has_a_limit(rt: HostRuntime) -> Result<(), Fail> {
    let alloc = rt.alloc();
    // (how many bytes a comment has, what is behind it, how the report ends, and the report)
    let rows = [
        (
            131_400,
            "\nsha256 - 00",
            Reported::SomeFailed,
            "2 fail\n0 of 1\n",
        ),
        (131_400, "", Reported::AllPassed, "0 of 0\n"),
        (
            131_401,
            "\nsha256 - 00",
            Reported::BadLine(1),
            "bad line 1\n",
        ),
        (131_401, "", Reported::BadLine(1), "bad line 1\n"),
    ];
    for (count, more, answer, report) in rows {
        let text = comment(alloc, count, more.as_bytes())?;
        let vectors = source(alloc, &text, 100, &[])?;
        let (ended, written) = reported(alloc, vectors, sink(alloc, 100, 100, &[])?)?;
        assert_eq!(rt; ended, answer);
        assert_eq!(rt; written.as_slice(), report.as_bytes());
    }
    Ok(())
}

#[test]
fn a_line_that_is_too_long_needs_no_end(rt: HostRuntime) -> Result<(), Fail> {
    let alloc = rt.alloc();
    // Behind the first 131,401 bytes no more are asked for; of 131,400 the line may still end.
    for (count, answer, report) in [
        (131_401, Reported::BadLine(1), "bad line 1\n"),
        (131_400, Reported::ReadFault, "0 of 0\n"),
    ] {
        let text = comment(alloc, count, b"")?;
        let vectors = source(
            alloc,
            &text,
            100,
            &[count as u64 / 100 + (count as u64 % 100) + 1],
        )?;
        let (ended, written) = reported(alloc, vectors, sink(alloc, 100, 100, &[])?)?;
        assert_eq!(rt; ended, answer);
        assert_eq!(rt; written.as_slice(), report.as_bytes());
    }
    Ok(())
}
