// Lines whose replies nobody hears.
ghost use Rattle.std.specs.Prelude.{◌≡◌, ◌≢◌, ◌<◌, length};
ghost use Rattle.outside.specs.Explained.{Explained};
ghost use Rattle.outside.specs.Faults.{FaultCounted};
ghost use Rattle.module_frames.specs.Fragments.{new_fragment};
ghost use Rattle.state_model.specs.MachineState.{MachineState};
ghost use Rattle.state_model.specs.Represents.{Represents};
ghost use Rattle.backup_runs.specs.Stepping.{StepsOver};

use crate::unheard::Unheard;
use command_serving::{Ended, serve_stream};
use engine_core::Engine;
use line_serving::LineCodec;
use module_frames::Reply;
use outside::{Noise, Source};
use state_model::Module;

/// Does the command of each line in turn, up to the end of the lines or a bad one, and writes no reply. The codec is new and the chunk isn't
/// empty. What it worked with is left as it is then.
pub fn step_over_lines<E: Engine, N: Noise, S: Source>(
    module: &mut Module<E>,
    noise: &mut N,
    lines: &mut S,
    codec: &mut LineCodec,
    reply: &mut Reply,
    chunk: &mut [u8],
) -> Ended
    requires new { codec.old ≡ new_fragment }
    requires chunk { 0 < length chunk.old }
    ensures stepped { Explained (N.left noise.old) (N.left noise.new) (λ events left. (s : MachineState E) → Represents «module».old s →
        StepsOver E.calls result (length chunk.old) s «module».new (S.left lines.old) (S.left lines.new) events left) }
    ensures read_fault { result ≡ Ended.ReadFault → FaultCounted (S.faults lines.old) (S.faults lines.new) }
    ensures reads_unchanged { result ≢ Ended.ReadFault → S.faults lines.new ≡ S.faults lines.old }
    ensures no_write { result ≢ Ended.WriteFault }
    ensures long { length chunk.new ≡ length chunk.old }
{
    let mut nobody = Unheard;
    serve_stream(module, noise, lines, &mut nobody, codec, reply, chunk)
}
