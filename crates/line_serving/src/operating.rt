// The lines of an operator, served to their end.
ghost use Rattle.std.specs.Prelude.{◌≡◌, ◌≢◌, ◌<◌, [], length, replicate};
ghost use Rattle.outside.specs.Faults.{FaultCounted};
ghost use Rattle.outside.specs.Explained.{Explained};
ghost use Rattle.engine_core.specs.Calls.{IsStandard};
ghost use Rattle.module_frames.specs.Fragments.{new_fragment};
ghost use Rattle.module_frames.specs.Replies.{IsCleared};
ghost use Rattle.state_model.specs.MachineState.{MachineState};
ghost use Rattle.state_model.specs.Represents.{Represents};
ghost use Rattle.line_serving.specs.Operating.{Tells, Operates, KeepsLineSecrets};

use crate::line_codec::LineCodec;
use command_serving::{Codec, Ended, serve_stream, wipe_served};
use engine_core::Engine;
use module_frames::Reply;
use outside::{Noise, Sink, Source};
use state_model::Module;

/// How serving the lines of an operator ended.
#[derive(Clone, Copy, Debug, PartialEq, Eq)]
pub enum Operated {
    /// The source ended, and each command was answered.
    End,
    /// The line of this number, counted from 1, is bad: it is no comment and spells no command. The commands before it were answered, and
    /// behind their replies stands the line that tells its number.
    BadLine(u64),
    /// The source failed. The commands whose lines were whole were answered.
    ReadFault,
    /// The sink failed. A part of the lines was written.
    WriteFault,
    /// 2^40 bytes were taken. The commands whose lines were whole were answered.
    Limit,
}

// What is answered to a stream's end. At a bad line its number is told first.
fn conclude<K: Sink>(ended: Ended, codec: &mut LineCodec, replies: &mut K) -> Operated
    ensures told { Tells ended result (K.gained replies.old) (K.gained replies.new) }
    ensures fault_counted { result ≡ Operated.WriteFault → ended ≢ Ended.WriteFault → FaultCounted (K.faults replies.old) (K.faults replies.new) }
    ensures earlier_fault { ended ≡ Ended.WriteFault → K.faults replies.new ≡ K.faults replies.old }
    ensures faults_unchanged { result ≢ Operated.WriteFault → K.faults replies.new ≡ K.faults replies.old }
    ensures held { codec.new ≡ codec.old }
{
    match ended {
        Ended::End => Operated::End,
        Ended::BadFrame(number) => match codec.tell_bad_line(number, replies) {
            Ok(_) => Operated::BadLine(number),
            Err(_) => Operated::WriteFault,
        },
        // The end of the source ends the last line, so this never comes.
        Ended::Truncated => Operated::End,
        Ended::ReadFault => Operated::ReadFault,
        Ended::WriteFault => Operated::WriteFault,
        Ended::Limit => Operated::Limit,
    }
}

/// Serves the lines of an operator to their end: reads into the chunk, does the command of each line in turn and writes the reply's line, and
/// clears both. At a bad line it writes `bad line`, a space, the line's number and an LF, and reads no further. The codec is new and the chunk
/// isn't empty. As it returns, the codec holds no byte, and reply and chunk are zero.
///
/// The noise is what the commands draw from. No more than 2^40 bytes are asked for, and none once those taken show a bad line. Where a call on
/// the source or the sink failed, the answer is that object's.
pub fn operate<E: Engine, N: Noise, S: Source, K: Sink>(
    module: &mut Module<E>,
    noise: &mut N,
    lines: &mut S,
    replies: &mut K,
    codec: &mut LineCodec,
    reply: &mut Reply,
    chunk: &mut [u8],
) -> Operated
    requires new { codec.old ≡ new_fragment }
    requires chunk { 0 < length chunk.old }
    ensures served { Explained (N.left noise.old) (N.left noise.new) (λ events left. (s : MachineState E) → Represents «module».old s → Operates E.calls result (length chunk.old) s «module».new
        (record { left = S.left lines.old; gained = K.gained replies.old })
        (record { left = S.left lines.new; gained = K.gained replies.new }) events left) }

    // With an engine that answers as the standards say, each stream that differs from the bytes read in secrets alone would have run
    // alike, and got equal replies to each command that observes nothing tainted.
    ensures secrets { IsStandard E.calls → Explained (N.left noise.old) (N.left noise.new) (λ events left. (s : MachineState E) → Represents «module».old s → KeepsLineSecrets E.calls result s
        (record { left = S.left lines.old; gained = K.gained replies.old })
        (record { left = S.left lines.new; gained = K.gained replies.new }) events left) }

    // Each fault comes only where that object's count rose.
    ensures read_fault { result ≡ Operated.ReadFault → FaultCounted (S.faults lines.old) (S.faults lines.new) }
    ensures reads_unchanged { result ≢ Operated.ReadFault → S.faults lines.new ≡ S.faults lines.old }
    ensures write_fault { result ≡ Operated.WriteFault → FaultCounted (K.faults replies.old) (K.faults replies.new) }
    ensures writes_unchanged { result ≢ Operated.WriteFault → K.faults replies.new ≡ K.faults replies.old }

    ensures zero { (codec.new.bytes ≡ []) × IsCleared reply.new × (chunk.new ≡ replicate (length chunk.old) 0) }
{
    let ended = serve_stream(module, noise, lines, replies, codec, reply, chunk);
    codec.clear();
    reply.clear();
    wipe_served(chunk);
    conclude(ended, codec, replies)
}
