// The lines of a chunk, and those at the source's end.
ghost use Rattle.std.specs.Prelude.{◌≡◌, ◌≢◌, ◌≤◌, ◌+◌, ◌^◌, [], ◌∷◌, length};
ghost use Rattle.outside.specs.Contents.{Appends};
ghost use Rattle.outside.specs.Faults.{FaultCounted};
ghost use Rattle.stream_calls.specs.PartialWrites.{AppendsPart};
ghost use Rattle.vector_reports.specs.Progress.{IsTally, IsLineBegun, ChunkReported, BadLineReported, ReportLineCutOff, tally_after};
ghost use Rattle.vector_reports.specs.ReportText.{report_line};

use crate::checking::{LinesEnd, report_line, report_read};
use crate::tally::Tally;
use engine_core::Engine;
use line_input::{LineFed, Lines};
use outside::Sink;
use vector_suite::VectorRead;

// Reports a line that is too long.
fn report_too_long<K: Sink>(report: &mut K, tally: &mut Tally) -> LinesEnd
    requires { IsTally tally.old (2 ^ 63) }
    ensures bad { result ≢ LinesEnd.Good }
    ensures counted { tally.new ≡ tally_after tally.old (VectorRead.Bad ∷ []) }
    ensures whole { result ≢ LinesEnd.WriteFault → Appends (K.gained report.old) (report_line (tally.old.lines + 1) VectorRead.Bad) (K.gained report.new) }
    ensures part { result ≡ LinesEnd.WriteFault → AppendsPart (K.gained report.old) (report_line (tally.old.lines + 1) VectorRead.Bad) (K.gained report.new) }
    ensures fault_counted { result ≡ LinesEnd.WriteFault → FaultCounted (K.faults report.old) (K.faults report.new) }
    ensures faults_unchanged { result ≢ LinesEnd.WriteFault → K.faults report.new ≡ K.faults report.old }
{
    match report_read(report, tally, VectorRead::Bad) {
        Ok(_) => LinesEnd::Bad,
        Err(_) => LinesEnd::WriteFault,
    }
}

/// Reports each line that a chunk ends. `work` has at least 131,456 bytes.
pub fn report_chunk<E: Engine, K: Sink>(
    engine: &mut E,
    report: &mut K,
    lines: &mut Lines,
    tally: &mut Tally,
    work: &mut [u8],
    chunk: &[u8],
) -> LinesEnd
    requires begun { IsLineBegun lines.old }
    requires room { 131456 ≤ length work.old }
    requires tally { IsTally tally.old (tally.old.lines) }
    requires short { tally.old.lines + length chunk.now ≤ 2 ^ 63 }
    ensures begun { result ≡ LinesEnd.Good → IsLineBegun lines.new }
    ensures tally { result ≡ LinesEnd.Good → IsTally tally.new (tally.old.lines + length chunk.now) }
    ensures good { result ≡ LinesEnd.Good → ChunkReported E.calls
        (record { engine = engine.old; tally = tally.old; gained = K.gained report.old }) lines.old.text chunk.now
        (record { engine = engine.new; tally = tally.new; gained = K.gained report.new }) lines.new.text }
    ensures bad { result ≡ LinesEnd.Bad → BadLineReported E.calls
        (record { engine = engine.old; tally = tally.old; gained = K.gained report.old }) lines.old.text chunk.now
        (record { engine = engine.new; tally = tally.new; gained = K.gained report.new }) }
    ensures write_fault { result ≡ LinesEnd.WriteFault → ReportLineCutOff E.calls
        (record { engine = engine.old; tally = tally.old; gained = K.gained report.old }) lines.old.text chunk.now
        (record { engine = engine.new; tally = tally.new; gained = K.gained report.new }) }
    ensures fault_counted { result ≡ LinesEnd.WriteFault → FaultCounted (K.faults report.old) (K.faults report.new) }
    ensures faults_unchanged { result ≢ LinesEnd.WriteFault → K.faults report.new ≡ K.faults report.old }
    ensures work { length work.new ≡ length work.old }
{
    let mut done = 0;
    while done < chunk.len() {
        match lines.feed(&chunk[done..]) {
            LineFed::More => return LinesEnd::Good,
            LineFed::TooLong => return report_too_long(report, tally),
            LineFed::Whole(count) => {
                match report_line(engine, report, lines.line(), tally, work) {
                    LinesEnd::Good => {}
                    LinesEnd::Bad => return LinesEnd::Bad,
                    LinesEnd::WriteFault => return LinesEnd::WriteFault,
                }
                lines.clear();
                done += count;
            }
        }
    }
    LinesEnd::Good
}
