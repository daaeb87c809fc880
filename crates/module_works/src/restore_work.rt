// Lines that are served from what a backup restores.
ghost use Rattle.std.specs.Prelude.{◌≡◌, ◌≢◌, length, IfOk, OnErr};
ghost use Rattle.bits_core.specs.ByteList.{IsBytes};
ghost use Rattle.outside.specs.Explained.{Explained};
ghost use Rattle.outside.specs.Faults.{FaultCounted};
ghost use Rattle.state_model.specs.ModuleView.{ModuleView};
ghost use Rattle.state_model.specs.MachineState.{initial_state};
ghost use Rattle.line_serving.specs.declared.operating.Operated.{Operated};
ghost use Rattle.backup_runs.specs.Restoring.{RestoresAndOperates};
ghost use Rattle.backup_runs.specs.declared.limits.TheConstants.{KEYS_LENGTH};
ghost use Rattle.program_words.specs.Faults.{result_status};
ghost use Rattle.program_words.specs.declared.words.Work.TheVariants as work;
ghost use Rattle.module_works.specs.WorkOutcomes.{IsWorkOutcome};
ghost use Rattle.module_works.specs.Works.{line_status, restored_status};

use crate::lines_work::result_of;
use backup_runs::{Restored, restore_and_operate};
use engine_core::Engine;
use line_serving::{LineCodec, Operated};
use module_frames::{Command, Reply};
use outside::{Noise, Sink, Source};
use program_words::RunFault;
use state_model::Module;
use std::alloc::{AllocError, Global};
use stream_calls::CHUNK;

// Takes all the memory, the module's last, and then restores and operates; however that ends, the module is shut and closed. Without memory
// nothing is read or written.
fn open_and_restore<E: Engine, N: Noise, S: Source, K: Sink>(
    alloc: Global,
    keys: &mut [u8],
    backup: &[u8],
    engine: E,
    image: Vec<u8>,
    digest: [u8; 32],
    noise: &mut N,
    lines: &mut S,
    replies: &mut K,
) -> Result<Restored, AllocError>
    requires { length keys.old ≡ KEYS_LENGTH }
    ensures restored { IfOk result (λ answer. (view : ModuleView E) × Explained (N.left noise.old) (N.left noise.new)
        (RestoresAndOperates E.calls answer CHUNK keys.old backup.now (initial_state engine image.items digest) view
        (record { left = S.left lines.old; gained = K.gained replies.old })
        (record { left = S.left lines.new; gained = K.gained replies.new }))) }
    ensures no_memory { OnErr result ((lines.new ≡ lines.old) × (replies.new ≡ replies.old)) }
    ensures untouched { IfOk result (λ answer. ((last : Operated) → answer ≢ Restored.Operated last) → (lines.new ≡ lines.old) × (replies.new ≡ replies.old)) }
    ensures read_fault { IfOk result (λ answer. answer ≡ Restored.Operated Operated.ReadFault → FaultCounted (S.faults lines.old) (S.faults lines.new)) }
    ensures reads_unchanged { IfOk result (λ answer. answer ≢ Restored.Operated Operated.ReadFault → S.faults lines.new ≡ S.faults lines.old) }
    ensures write_fault { IfOk result (λ answer. answer ≡ Restored.Operated Operated.WriteFault → FaultCounted (K.faults replies.old) (K.faults replies.new)) }
    ensures writes_unchanged { IfOk result (λ answer. answer ≢ Restored.Operated Operated.WriteFault → K.faults replies.new ≡ K.faults replies.old) }
{
    let mut codec = LineCodec::new(alloc)?;
    let mut command = Command::new(alloc)?;
    let mut reply = Reply::new(alloc)?;
    let mut chunk = vec![in alloc; 0; CHUNK]?;
    let mut module = Module::open(alloc, engine, image, digest)?;
    let answer = restore_and_operate(
        &mut module,
        noise,
        keys,
        backup,
        lines,
        replies,
        &mut codec,
        &mut command,
        &mut reply,
        &mut chunk,
    );
    module.shut();
    module.close();
    Ok(answer)
}

// The fault for how it ended, where that wasn't at the end of the input.
fn fault_of(answer: Restored) -> Result<(), RunFault>
    ensures { result_status result ≡ restored_status answer }
{
    match answer {
        Restored::NotOfficer => Err(RunFault::NotOfficer),
        Restored::Refused => Err(RunFault::BadBackup),
        Restored::Operated(last) => result_of(last),
    }
}

// Does nothing: that these are bytes is known where a slice is a parameter.
fn known_bytes(bytes: &[u8])
    ensures { IsBytes bytes.now }
{
    let _ = bytes;
}

/// Restores a backup under the two keys, which have 64 bytes, into a module that is opened with engine, image and digest, and with this noise, and
/// answers lines by it.
pub fn operate_restored<E: Engine, N: Noise, S: Source, K: Sink>(
    alloc: Global,
    keys: &mut [u8],
    backup: &[u8],
    engine: E,
    image: Vec<u8>,
    digest: [u8; 32],
    noise: &mut N,
    lines: &mut S,
    replies: &mut K,
) -> Result<(), RunFault>
    requires { length keys.old ≡ KEYS_LENGTH }
    ensures outcome { IsWorkOutcome work.Restore keys.old backup.now E.calls (initial_state engine image.items digest) (N.left noise.old) (N.left noise.new) (result_status result)
        (record {
          source = lines.old;
          sink = replies.old;
          streams = record { left = S.left lines.old; gained = K.gained replies.old };
          read_faults = S.faults lines.old;
          write_faults = K.faults replies.old;
        })
        (record {
          source = lines.new;
          sink = replies.new;
          streams = record { left = S.left lines.new; gained = K.gained replies.new };
          read_faults = S.faults lines.new;
          write_faults = K.faults replies.new;
        }) }
{
    known_bytes(keys);
    match open_and_restore(
        alloc, keys, backup, engine, image, digest, noise, lines, replies,
    ) {
        Ok(answer) => fault_of(answer),
        Err(_) => Err(RunFault::OutOfMemory),
    }
}
