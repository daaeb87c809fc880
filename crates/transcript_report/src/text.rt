// The text of a verdict.
ghost use Rattle.std.specs.Prelude.{◌≡◌, ◌++◌, OnOk, OnErr, codes, decimal};
ghost use Rattle.outside.specs.Contents.{Appends};
ghost use Rattle.outside.specs.Faults.{FaultCounted};
ghost use Rattle.stream_calls.specs.PartialWrites.{AppendsPart};
ghost use Rattle.transcript_report.specs.Progress.{text_of};

use crate::checking::Checked;
use itoa::Buffer;
use outside::{Failed, Sink};
use stream_calls::write_all;

// Writes a number and LF.
fn write_number<K: Sink>(verdict: &mut K, number: u64) -> Result<(), Failed>
    ensures whole { OnOk result (Appends (K.gained verdict.old) (decimal number ++ codes "\n") (K.gained verdict.new)) }
    ensures part { OnErr result (AppendsPart (K.gained verdict.old) (decimal number ++ codes "\n") (K.gained verdict.new)) }
    ensures fault_counted { OnErr result (FaultCounted (K.faults verdict.old) (K.faults verdict.new)) }
    ensures faults_unchanged { OnOk result (K.faults verdict.new ≡ K.faults verdict.old) }
{
    let mut digits = Buffer::new();
    write_all(verdict, digits.format(number).as_bytes())?;
    write_all(verdict, b"\n")
}

// Writes a word, a number and LF.
fn write_line<K: Sink>(verdict: &mut K, word: &[u8], number: u64) -> Result<(), Failed>
    ensures whole { OnOk result (Appends (K.gained verdict.old) (word.now ++ (decimal number ++ codes "\n")) (K.gained verdict.new)) }
    ensures part { OnErr result (AppendsPart (K.gained verdict.old) (word.now ++ (decimal number ++ codes "\n")) (K.gained verdict.new)) }
    ensures fault_counted { OnErr result (FaultCounted (K.faults verdict.old) (K.faults verdict.new)) }
    ensures faults_unchanged { OnOk result (K.faults verdict.new ≡ K.faults verdict.old) }
{
    write_all(verdict, word)?;
    write_number(verdict, number)
}

/// Writes the text of a verdict, by how many pairs were checked.
pub fn write_text<K: Sink>(verdict: &mut K, found: Checked, count: u64) -> Result<(), Failed>
    ensures whole { OnOk result (Appends (K.gained verdict.old) (text_of found count) (K.gained verdict.new)) }
    ensures part { OnErr result (AppendsPart (K.gained verdict.old) (text_of found count) (K.gained verdict.new)) }
    ensures fault_counted { OnErr result (FaultCounted (K.faults verdict.old) (K.faults verdict.new)) }
    ensures faults_unchanged { OnOk result (K.faults verdict.new ≡ K.faults verdict.old) }
{
    match found {
        Checked::Lawful => write_line(verdict, b"lawful ", count),
        Checked::Unlawful(number) => write_line(verdict, b"pair ", number),
        Checked::BadFrame(_) => Ok(()),
        Checked::Truncated => Ok(()),
        Checked::ReadFault => Ok(()),
        Checked::WriteFault => Ok(()),
        Checked::Limit => Ok(()),
    }
}
