// A line is checked, and reported.
ghost use Rattle.std.specs.Prelude.{◌≡◌, ◌≢◌, ◌≤◌, ◌+◌, ◌^◌, [], ◌∷◌, false, OnOk, OnErr, length};
ghost use Rattle.outside.specs.Contents.{Appends};
ghost use Rattle.outside.specs.Faults.{FaultCounted};
ghost use Rattle.stream_calls.specs.PartialWrites.{AppendsPart};
ghost use Rattle.vector_reports.specs.Findings.{is_bad, read_line};
ghost use Rattle.vector_reports.specs.Progress.{IsTally, tally_after};
ghost use Rattle.vector_reports.specs.ReportText.{report_line};

use crate::tally::{Tally, count};
use crate::text::write_line;
use engine_core::Engine;
use outside::{Failed, Sink};
use vector_suite::{VectorRead, check_line};

/// What became of lines.
#[derive(Clone, Copy, Debug, PartialEq, Eq)]
pub enum LinesEnd {
    /// Each was reported, and none is bad.
    Good,
    /// They were reported up to a bad one.
    Bad,
    /// A write failed.
    WriteFault,
}

/// Counts a line that was found to be this, and writes what is reported of it.
pub fn report_read<K: Sink>(
    report: &mut K,
    tally: &mut Tally,
    read: VectorRead,
) -> Result<(), Failed>
    requires { IsTally tally.old (2 ^ 63) }
    ensures counted { tally.new ≡ tally_after tally.old (read ∷ []) }
    ensures whole { OnOk result (Appends (K.gained report.old) (report_line (tally.old.lines + 1) read) (K.gained report.new)) }
    ensures part { OnErr result (AppendsPart (K.gained report.old) (report_line (tally.old.lines + 1) read) (K.gained report.new)) }
    ensures fault_counted { OnErr result (FaultCounted (K.faults report.old) (K.faults report.new)) }
    ensures faults_unchanged { OnOk result (K.faults report.new ≡ K.faults report.old) }
{
    count(tally, read);
    write_line(report, tally.lines, read)
}

// Whether a line is bad.
fn is_bad(read: VectorRead) -> bool
    ensures { result ≡ is_bad read }
{
    match read {
        VectorRead::Pass => false,
        VectorRead::Fail => false,
        VectorRead::Comment => false,
        VectorRead::Bad => true,
    }
}

/// Checks a line of at most 131,400 bytes, and writes what is reported of it. `work` has at least 131,456 bytes.
pub fn report_line<E: Engine, K: Sink>(
    engine: &mut E,
    report: &mut K,
    line: &[u8],
    tally: &mut Tally,
    work: &mut [u8],
) -> LinesEnd
    requires line { length line.now ≤ 131400 }
    requires room { 131456 ≤ length work.old }
    requires tally { IsTally tally.old (2 ^ 63) }
    ensures engine { engine.new ≡ (read_line E.calls engine.old line.now).engine }
    ensures counted { tally.new ≡ tally_after tally.old ((read_line E.calls engine.old line.now).read ∷ []) }
    ensures whole { result ≢ LinesEnd.WriteFault → Appends (K.gained report.old) (report_line (tally.old.lines + 1) (read_line E.calls engine.old line.now).read) (K.gained report.new) }
    ensures part { result ≡ LinesEnd.WriteFault → AppendsPart (K.gained report.old) (report_line (tally.old.lines + 1) (read_line E.calls engine.old line.now).read) (K.gained report.new) }
    ensures good { result ≡ LinesEnd.Good → is_bad (read_line E.calls engine.old line.now).read ≡ false }
    ensures bad { result ≡ LinesEnd.Bad → (read_line E.calls engine.old line.now).read ≡ VectorRead.Bad }
    ensures fault_counted { result ≡ LinesEnd.WriteFault → FaultCounted (K.faults report.old) (K.faults report.new) }
    ensures faults_unchanged { result ≢ LinesEnd.WriteFault → K.faults report.new ≡ K.faults report.old }
    ensures work { length work.new ≡ length work.old }
{
    let read = check_line(engine, line, work);
    if report_read(report, tally, read).is_err() {
        return LinesEnd::WriteFault;
    }
    if is_bad(read) {
        return LinesEnd::Bad;
    }
    LinesEnd::Good
}
