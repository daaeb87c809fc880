// The lines of a report.
ghost use Rattle.std.specs.Prelude.{◌≡◌, ◌++◌, OnOk, OnErr, decimal};
ghost use Rattle.outside.specs.Contents.{Appends};
ghost use Rattle.outside.specs.Faults.{FaultCounted};
ghost use Rattle.stream_calls.specs.PartialWrites.{AppendsPart};
ghost use Rattle.vector_reports.specs.ReportText.{report_line, last_line};

use crate::tally::Tally;
use itoa::Buffer;
use outside::{Failed, Sink};
use stream_calls::write_all;
use vector_suite::VectorRead;

// Writes a number and the word behind it.
fn write_number<K: Sink>(report: &mut K, number: u64, word: &[u8]) -> Result<(), Failed>
    ensures whole { OnOk result (Appends (K.gained report.old) (decimal number ++ word.now) (K.gained report.new)) }
    ensures part { OnErr result (AppendsPart (K.gained report.old) (decimal number ++ word.now) (K.gained report.new)) }
    ensures fault_counted { OnErr result (FaultCounted (K.faults report.old) (K.faults report.new)) }
    ensures faults_unchanged { OnOk result (K.faults report.new ≡ K.faults report.old) }
{
    let mut digits = Buffer::new();
    write_all(report, digits.format(number).as_bytes())?;
    write_all(report, word)
}

// Writes a word, a number and the word behind it.
fn write_words<K: Sink>(
    report: &mut K,
    first: &[u8],
    number: u64,
    word: &[u8],
) -> Result<(), Failed>
    ensures whole { OnOk result (Appends (K.gained report.old) (first.now ++ (decimal number ++ word.now)) (K.gained report.new)) }
    ensures part { OnErr result (AppendsPart (K.gained report.old) (first.now ++ (decimal number ++ word.now)) (K.gained report.new)) }
    ensures fault_counted { OnErr result (FaultCounted (K.faults report.old) (K.faults report.new)) }
    ensures faults_unchanged { OnOk result (K.faults report.new ≡ K.faults report.old) }
{
    write_all(report, first)?;
    write_number(report, number, word)
}

/// Writes what is reported of the line with this number.
pub fn write_line<K: Sink>(report: &mut K, number: u64, read: VectorRead) -> Result<(), Failed>
    ensures whole { OnOk result (Appends (K.gained report.old) (report_line number read) (K.gained report.new)) }
    ensures part { OnErr result (AppendsPart (K.gained report.old) (report_line number read) (K.gained report.new)) }
    ensures fault_counted { OnErr result (FaultCounted (K.faults report.old) (K.faults report.new)) }
    ensures faults_unchanged { OnOk result (K.faults report.new ≡ K.faults report.old) }
{
    match read {
        VectorRead::Pass => write_number(report, number, b" pass\n"),
        VectorRead::Fail => write_number(report, number, b" fail\n"),
        VectorRead::Comment => Ok(()),
        VectorRead::Bad => write_words(report, b"bad line ", number, b"\n"),
    }
}

/// Writes the report's last line.
pub fn write_last_line<K: Sink>(report: &mut K, tally: &Tally) -> Result<(), Failed>
    ensures whole { OnOk result (Appends (K.gained report.old) (last_line tally.now.passed tally.now.checked) (K.gained report.new)) }
    ensures part { OnErr result (AppendsPart (K.gained report.old) (last_line tally.now.passed tally.now.checked) (K.gained report.new)) }
    ensures fault_counted { OnErr result (FaultCounted (K.faults report.old) (K.faults report.new)) }
    ensures faults_unchanged { OnOk result (K.faults report.new ≡ K.faults report.old) }
{
    let mut digits = Buffer::new();
    write_all(report, digits.format(tally.passed).as_bytes())?;
    write_words(report, b" of ", tally.checked, b"\n")
}
