// The backup of what lines have made.
ghost use Rattle.std.specs.Prelude.{◌≡◌, ◌≢◌, ℕ, List, length, IfOk, OnErr};
ghost use Rattle.outside.specs.Explained.{Explained};
ghost use Rattle.outside.specs.Faults.{FaultCounted};
ghost use Rattle.state_model.specs.ModuleView.{ModuleView};
ghost use Rattle.state_model.specs.MachineState.{initial_state};
ghost use Rattle.backup_runs.specs.BackingUp.{BacksUp};
ghost use Rattle.backup_runs.specs.declared.limits.TheConstants.{KEYS_LENGTH};
ghost use Rattle.program_words.specs.Faults.{result_status};
ghost use Rattle.program_words.specs.declared.words.Work.TheVariants as work;
ghost use Rattle.module_works.specs.WorkOutcomes.{IsWorkOutcome};
ghost use Rattle.module_works.specs.Works.{backup_status};

use backup_runs::{BackedUp, back_up};
use engine_core::Engine;
use line_serving::LineCodec;
use module_frames::Reply;
use outside::{Noise, Sink, Source};
use program_words::RunFault;
use state_model::Module;
use std::alloc::{AllocError, Global};
use stream_calls::CHUNK;

// Takes all the memory, the module's last, and then backs up; however that ends, the module is shut and closed. Without memory nothing is
// read or written.
fn open_and_back_up<E: Engine, N: Noise, S: Source, K: Sink>(
    alloc: Global,
    keys: &mut [u8],
    engine: E,
    image: Vec<u8>,
    digest: [u8; 32],
    noise: &mut N,
    lines: &mut S,
    backup: &mut K,
) -> Result<BackedUp, AllocError>
    requires { length keys.old ≡ KEYS_LENGTH }
    ensures backed_up { IfOk result (λ answer. (view : ModuleView E) × Explained (N.left noise.old) (N.left noise.new)
        (BacksUp E.calls answer CHUNK keys.old (initial_state engine image.items digest) view
        (record { left = S.left lines.old; gained = K.gained backup.old })
        (record { left = S.left lines.new; gained = K.gained backup.new }))) }
    ensures untouched { OnErr result ((lines.new ≡ lines.old) × (backup.new ≡ backup.old)) }
    ensures read_fault { IfOk result (λ answer. answer ≡ BackedUp.ReadFault → FaultCounted (S.faults lines.old) (S.faults lines.new)) }
    ensures reads_unchanged { IfOk result (λ answer. answer ≢ BackedUp.ReadFault → S.faults lines.new ≡ S.faults lines.old) }
    ensures write_fault { IfOk result (λ answer. answer ≡ BackedUp.WriteFault → FaultCounted (K.faults backup.old) (K.faults backup.new)) }
    ensures writes_unchanged { IfOk result (λ answer. answer ≢ BackedUp.WriteFault → K.faults backup.new ≡ K.faults backup.old) }
{
    let mut codec = LineCodec::new(alloc)?;
    let mut reply = Reply::new(alloc)?;
    let mut chunk = vec![in alloc; 0; CHUNK]?;
    let mut module = Module::open(alloc, engine, image, digest)?;
    let answer = back_up(
        &mut module,
        noise,
        keys,
        lines,
        backup,
        &mut codec,
        &mut reply,
        &mut chunk,
    );
    module.shut();
    module.close();
    Ok(answer)
}

// The fault for how backing up ended, where no backup was written.
fn result_of(answer: BackedUp) -> Result<(), RunFault>
    ensures { result_status result ≡ backup_status answer }
{
    match answer {
        BackedUp::Written => Ok(()),
        BackedUp::NotOfficer => Err(RunFault::NotOfficer),
        BackedUp::BadLine(_) => Err(RunFault::BadLine),
        BackedUp::ReadFault => Err(RunFault::ReadFailed),
        BackedUp::WriteFault => Err(RunFault::WriteFailed),
        BackedUp::Limit => Err(RunFault::StreamTooLong),
    }
}

/// Does the commands of lines by a module that is opened with engine, image and digest, and with this noise, and writes the backup under the two
/// keys, which have 64 bytes.
pub fn back_up_lines<E: Engine, N: Noise, S: Source, K: Sink>(
    alloc: Global,
    keys: &mut [u8],
    engine: E,
    image: Vec<u8>,
    digest: [u8; 32],
    noise: &mut N,
    lines: &mut S,
    backup: &mut K,
) -> Result<(), RunFault>
    requires { length keys.old ≡ KEYS_LENGTH }
    ensures outcome { (unused : List ℕ) → IsWorkOutcome work.Backup keys.old unused E.calls (initial_state engine image.items digest) (N.left noise.old) (N.left noise.new) (result_status result)
        (record {
          source = lines.old;
          sink = backup.old;
          streams = record { left = S.left lines.old; gained = K.gained backup.old };
          read_faults = S.faults lines.old;
          write_faults = K.faults backup.old;
        })
        (record {
          source = lines.new;
          sink = backup.new;
          streams = record { left = S.left lines.new; gained = K.gained backup.new };
          read_faults = S.faults lines.new;
          write_faults = K.faults backup.new;
        }) }
{
    match open_and_back_up(alloc, keys, engine, image, digest, noise, lines, backup) {
        Ok(answer) => result_of(answer),
        Err(_) => Err(RunFault::OutOfMemory),
    }
}
