// The report of a source's vector lines.
ghost use Rattle.std.specs.Prelude.{◌≡◌, ◌≢◌, ◌≤◌, ◌<◌, ◌==◌, ◌++◌, ℕ, List, Some, if◌then◌else◌, [], false, OnOk, OnErr, length, replicate};
ghost use Rattle.bits_core.specs.ByteList.{zeros};
ghost use Rattle.line_input.specs.HeldLines.{no_line};
ghost use Rattle.outside.specs.Contents.{Appends};
ghost use Rattle.outside.specs.Faults.{FaultCounted};
ghost use Rattle.stream_calls.specs.PartialWrites.{AppendsPart};
ghost use Rattle.vector_reports.specs.Progress.{IsTally, IsLineBegun, EndReported, EndCutOff};
ghost use Rattle.vector_reports.specs.ReportText.{last_line};
ghost use Rattle.vector_reports.specs.Reporting.{Reports, ReadsLeft, WritesLeft};
ghost use Rattle.vector_reports.specs.Runs.{RunsVectors};

use crate::checking::{LinesEnd, report_line};
use crate::chunks::report_chunk;
use crate::tally::Tally;
use crate::text::write_last_line;
use bits_core::wipe;
use engine_core::Engine;
use line_input::Lines;
use outside::{Sink, Source};
use stream_calls::{STREAM_MAX, read_some};

/// How a report ended.
#[derive(Clone, Copy, Debug, PartialEq, Eq)]
pub enum Reported {
    /// The source was read to its end, and each vector passed.
    AllPassed,
    /// The source was read to its end, and a vector failed.
    SomeFailed,
    /// The line of this number, counted from 1 over all lines, is bad.
    BadLine(u64),
    /// The source failed. The report is that of the lines that were whole.
    ReadFault,
    /// The sink failed. A part of the report was written.
    WriteFault,
    /// 2^40 bytes were taken. The report is that of the lines that were whole.
    Limit,
}

// Writes the report's last line, and answers this.
fn close_report<K: Sink>(report: &mut K, tally: &Tally, answer: Reported) -> Reported
    requires { answer ≢ Reported.WriteFault }
    ensures answer { result ≢ Reported.WriteFault → result ≡ answer }
    ensures whole { result ≢ Reported.WriteFault → Appends (K.gained report.old) (last_line tally.now.passed tally.now.checked) (K.gained report.new) }
    ensures part { result ≡ Reported.WriteFault → AppendsPart (K.gained report.old) (last_line tally.now.passed tally.now.checked) (K.gained report.new) }
    ensures fault_counted { result ≡ Reported.WriteFault → FaultCounted (K.faults report.old) (K.faults report.new) }
    ensures faults_unchanged { result ≢ Reported.WriteFault → K.faults report.new ≡ K.faults report.old }
{
    match write_last_line(report, tally) {
        Ok(_) => answer,
        Err(_) => Reported::WriteFault,
    }
}

// What the numbers say at a source's end.
fn verdict(tally: &Tally) -> Reported
    ensures { result ≡ (if tally.now.passed == tally.now.checked then Reported.AllPassed else Reported.SomeFailed) }
{
    if tally.passed == tally.checked {
        Reported::AllPassed
    } else {
        Reported::SomeFailed
    }
}

// Writes the report's last line, and answers what its numbers say.
fn conclude<K: Sink>(report: &mut K, tally: &Tally) -> Reported
    ensures answer { result ≢ Reported.WriteFault → result ≡ (if tally.now.passed == tally.now.checked then Reported.AllPassed else Reported.SomeFailed) }
    ensures whole { result ≢ Reported.WriteFault → Appends (K.gained report.old) (last_line tally.now.passed tally.now.checked) (K.gained report.new) }
    ensures part { result ≡ Reported.WriteFault → AppendsPart (K.gained report.old) (last_line tally.now.passed tally.now.checked) (K.gained report.new) }
    ensures fault_counted { result ≡ Reported.WriteFault → FaultCounted (K.faults report.old) (K.faults report.new) }
    ensures faults_unchanged { result ≢ Reported.WriteFault → K.faults report.new ≡ K.faults report.old }
{
    close_report(report, tally, verdict(tally))
}

// Reports what is held where the source has ended, and writes the last line.
fn report_end<E: Engine, K: Sink>(
    engine: &mut E,
    report: &mut K,
    lines: &mut Lines,
    tally: &mut Tally,
    work: &mut [u8],
) -> Reported
    requires begun { IsLineBegun lines.old }
    requires room { 131456 ≤ length work.old }
    requires tally { IsTally tally.old STREAM_MAX }
    ensures ended { result ≢ Reported.WriteFault → EndReported E.calls
        (record { engine = engine.old; tally = tally.old; gained = K.gained report.old }) lines.old.text result engine.new (K.gained report.new) }
    ensures write_fault { result ≡ Reported.WriteFault → EndCutOff E.calls
        (record { engine = engine.old; tally = tally.old; gained = K.gained report.old }) lines.old.text engine.new (K.gained report.new) }
    ensures fault_counted { result ≡ Reported.WriteFault → FaultCounted (K.faults report.old) (K.faults report.new) }
    ensures faults_unchanged { result ≢ Reported.WriteFault → K.faults report.new ≡ K.faults report.old }
    ensures work { length work.new ≡ length work.old }
{
    if !lines.rest() {
        return conclude(report, tally);
    }
    match report_line(engine, report, lines.line(), tally, work) {
        LinesEnd::Good => conclude(report, tally),
        LinesEnd::Bad => Reported::BadLine(tally.lines),
        LinesEnd::WriteFault => Reported::WriteFault,
    }
}

// Reports the lines of a source, and leaves what it worked with as it is then.
fn report_stream<E: Engine, S: Source, K: Sink>(
    engine: &mut E,
    vectors: &mut S,
    report: &mut K,
    lines: &mut Lines,
    work: &mut [u8],
    chunk: &mut [u8],
) -> Reported
    requires new { lines.old ≡ no_line }
    requires room { 131456 ≤ length work.old }
    requires chunk { 0 < length chunk.old }
    ensures reported { Reports E.calls result (length chunk.old) engine.old engine.new
        (record { left = S.left vectors.old; gained = K.gained report.old })
        (record { left = S.left vectors.new; gained = K.gained report.new }) }
    ensures reads { ReadsLeft result (S.faults vectors.old) (S.faults vectors.new) }
    ensures writes { WritesLeft result (K.faults report.old) (K.faults report.new) }
    ensures work { length work.new ≡ length work.old }
{
    let mut tally = Tally {
        lines: 0,
        checked: 0,
        passed: 0,
    };
    let mut taken: u64 = 0;
    while taken < STREAM_MAX {
        match read_some(vectors, chunk, STREAM_MAX - taken) {
            Err(_) => return close_report(report, &tally, Reported::ReadFault),
            Ok(0) => return report_end(engine, report, lines, &mut tally, work),
            Ok(count) => {
                match report_chunk(engine, report, lines, &mut tally, work, &chunk[..count]) {
                    LinesEnd::Good => {}
                    LinesEnd::Bad => return Reported::BadLine(tally.lines),
                    LinesEnd::WriteFault => return Reported::WriteFault,
                }
                taken += count as u64;
            }
        }
    }
    close_report(report, &tally, Reported::Limit)
}

/// Checks each line of a source with the engine as soon as it is whole, and writes its line of the report at once. (The form of the report
/// is this project's own.) `lines` is new, the chunk isn't empty, and `work` has at least 131,456 bytes. As it returns, no byte of a line is
/// held, and work and chunk are zero.
///
/// A vector's line of the report is its number, counted from 1 over all lines, a space, and `pass` or `fail`; the last line is how many
/// passed, ` of `, and how many were checked. At a bad line the report ends with `bad line` and its number, and no more is asked for. A last
/// line that has no LF counts where the source was read to its end. No more than 2^40 bytes are asked for.
pub fn report_vectors<E: Engine, S: Source, K: Sink>(
    engine: &mut E,
    vectors: &mut S,
    report: &mut K,
    lines: &mut Lines,
    work: &mut [u8],
    chunk: &mut [u8],
) -> Reported
    requires new { lines.old ≡ no_line }
    requires room { 131456 ≤ length work.old }
    requires chunk { 0 < length chunk.old }
    ensures reported { Reports E.calls result (length chunk.old) engine.old engine.new
        (record { left = S.left vectors.old; gained = K.gained report.old })
        (record { left = S.left vectors.new; gained = K.gained report.new }) }

    // Where source and sink tell their bytes and no call failed, it is the report of the content.
    ensures run { (bytes before : List ℕ) → S.left vectors.old ≡ Some bytes → K.gained report.old ≡ Some before → result ≢ Reported.ReadFault → result ≢ Reported.WriteFault →
        (out : List ℕ) × RunsVectors E.calls engine.old bytes result out × (K.gained report.new ≡ Some (before ++ out)) }

    // Each fault comes only where that object's count rose.
    ensures reads { ReadsLeft result (S.faults vectors.old) (S.faults vectors.new) }
    ensures writes { WritesLeft result (K.faults report.old) (K.faults report.new) }

    ensures cleared { (lines.new.text ≡ []) × (lines.new.whole ≡ false) }
    ensures zero { (work.new ≡ zeros (length work.old)) × (chunk.new ≡ replicate (length chunk.old) 0) }
{
    let reported = report_stream(engine, vectors, report, lines, work, chunk);
    lines.clear();
    wipe(work);
    chunk.fill(0);
    reported
}
