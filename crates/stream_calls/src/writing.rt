// Whole pieces to a sink.
ghost use Rattle.std.specs.Prelude.{◌≡◌, OnOk, OnErr};
ghost use Rattle.outside.specs.Contents.{Appends};
ghost use Rattle.outside.specs.Faults.{FaultCounted};
ghost use Rattle.stream_calls.specs.PartialWrites.{AppendsPart};

use outside::{Failed, Sink};

/// Writes all of a piece. A fault comes only where the sink's count rose, and a part of the piece is written then.
pub fn write_all<K: Sink>(sink: &mut K, piece: &[u8]) -> Result<(), Failed>
    ensures whole { OnOk result (Appends (K.gained sink.old) piece.now (K.gained sink.new)) }
    ensures part { OnErr result (AppendsPart (K.gained sink.old) piece.now (K.gained sink.new)) }
    ensures fault_counted { OnErr result (FaultCounted (K.faults sink.old) (K.faults sink.new)) }
    ensures faults_unchanged { OnOk result (K.faults sink.new ≡ K.faults sink.old) }
{
    let mut done = 0;
    while done < piece.len() {
        done += sink.write(&piece[done..])?;
    }
    Ok(())
}
