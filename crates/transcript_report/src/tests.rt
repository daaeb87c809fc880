// Verdicts over sources and sinks of known content, against the rows of `checks/transcript_report_rows.py`. Calls are counted from 1.
mod rows;

ghost use Rattle.std.specs.Prelude.{◌≤◌};

use crate::{Checked, check_transcript};
use outside::{MemSink, MemSource};
use rows::Row;
use std::alloc::Global;
use std::test::Fail;
use transcript_pairs::Pairs;

// How the check of a source ends, and what is written.
fn checked(
    alloc: Global,
    mut transcript: MemSource,
    mut verdict: MemSink,
) -> Result<(Checked, Vec<u8>), Fail> {
    let mut pairs = Pairs::new(alloc)?;
    let mut chunk = vec![in alloc; 0xff; 300]?;
    let answer = check_transcript(&mut transcript, &mut verdict, &mut pairs, &mut chunk);
    Ok((answer, verdict.bytes().to_vec(alloc)?))
}

// A source whose reads take so many bytes, and the listed ones of which fail.
fn source(alloc: Global, bytes: &[u8], step: usize, fail: &[u64]) -> Result<MemSource, Fail>
    requires { 1 ≤ step }
{
    Ok(MemSource::new(bytes.to_vec(alloc)?, step, fail.to_vec(alloc)?))
}

// A sink with room for so many bytes, whose writes take so many and of which the listed ones fail.
fn sink(alloc: Global, room: usize, step: usize, fail: &[u64]) -> Result<MemSink, Fail>
    requires { 1 ≤ step }
{
    Ok(MemSink::new(alloc, room, step, fail.to_vec(alloc)?)?)
}

// The transcript of a row.
fn changed(alloc: Global, transcript: &[u8], row: &Row) -> Result<Vec<u8>, Fail> {
    let (size, first, one, second, other, _, _) = row;
    let mut bytes = transcript.to_vec(alloc)?;
    for (place, value) in [(*first, *one), (*second, *other)] {
        if place < bytes.len() {
            bytes[place] = value;
        }
    }
    bytes.truncate(*size);
    Ok(bytes)
}

// Whether each row's transcript has its verdict, however it is read.
fn are_checked(alloc: Global, transcript: &[u8], rows: &[Row]) -> Result<bool, Fail> {
    for row in rows {
        let (_, _, _, _, _, answer, text) = row;
        let bytes = changed(alloc, transcript, row)?;
        for step in [1, 7, 300] {
            let transcript = source(alloc, &bytes, step, &[])?;
            let (ended, written) = checked(alloc, transcript, sink(alloc, 100, step, &[])?)?;
            if ended != *answer || written.as_slice() != text.as_bytes() {
                return Ok(false);
            }
        }
    }
    Ok(true)
}

#[test]
fn transcripts_have_their_verdict(rt: HostRuntime) -> Result<(), Fail> {
    let alloc = rt.alloc();
    assert!(rt; are_checked(alloc, rows::woven(), rows::woven_rows())?);
    Ok(())
}

#[test]
fn nothing_is_written_after_a_failed_read(rt: HostRuntime) -> Result<(), Fail> {
    let alloc = rt.alloc();
    // The transcript's 196 bytes are ten reads of 20, and one more finds its end.
    for call in 1..=11 {
        let transcript = source(alloc, rows::woven(), 20, &[call])?;
        let (ended, written) = checked(alloc, transcript, sink(alloc, 100, 100, &[])?)?;
        assert_eq!(rt; ended, Checked::ReadFault);
        assert_eq!(rt; written.as_slice(), b"".as_slice());
    }
    Ok(())
}

#[test]
fn nothing_is_read_behind_an_unlawful_pair_or_a_bad_frame(rt: HostRuntime) -> Result<(), Fail> {
    let alloc = rt.alloc();
    // (the row, how many bytes show it, and what is written)
    for (place, shown) in [(1, 164), (3, 13)] {
        let Some(row) = rows::woven_rows().get(place) else {
            assert!(rt; false);
            return Ok(());
        };
        let (_, _, _, _, _, answer, text) = row;
        let bytes = changed(alloc, rows::woven(), row)?;
        let transcript = source(alloc, &bytes, 1, &[shown + 1])?;
        let (ended, written) = checked(alloc, transcript, sink(alloc, 100, 100, &[])?)?;
        assert_eq!(rt; ended, *answer);
        assert_eq!(rt; written.as_slice(), text.as_bytes());
        let transcript = source(alloc, &bytes, 1, &[shown])?;
        let (ended, _) = checked(alloc, transcript, sink(alloc, 100, 100, &[])?)?;
        assert_eq!(rt; ended, Checked::ReadFault);
    }
    Ok(())
}

#[test]
fn a_failed_write_leaves_a_part(rt: HostRuntime) -> Result<(), Fail> {
    let alloc = rt.alloc();
    for place in [0, 1] {
        let Some(row) = rows::woven_rows().get(place) else {
            assert!(rt; false);
            return Ok(());
        };
        let (_, _, _, _, _, _, text) = row;
        let bytes = changed(alloc, rows::woven(), row)?;
        for count in 0..text.len() {
            // The write of each byte fails in turn; or the sink is full.
            let failing = sink(alloc, 100, 1, &[count as u64 + 1])?;
            let full = sink(alloc, count, 100, &[])?;
            for faulty in [failing, full] {
                let transcript = source(alloc, &bytes, 7, &[])?;
                let (ended, written) = checked(alloc, transcript, faulty)?;
                assert_eq!(rt; ended, Checked::WriteFault);
                assert_eq!(rt; Some(written.as_slice()), text.as_bytes().get(..count));
            }
        }
    }
    Ok(())
}
