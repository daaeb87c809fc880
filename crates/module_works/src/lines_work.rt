// Lines that an operator types.
ghost use Rattle.std.specs.Prelude.{◌≡◌, ◌≢◌, ℕ, List, IfOk, OnErr};
ghost use Rattle.outside.specs.Explained.{Explained};
ghost use Rattle.outside.specs.Faults.{FaultCounted};
ghost use Rattle.state_model.specs.ModuleView.{ModuleView};
ghost use Rattle.state_model.specs.MachineState.{initial_state};
ghost use Rattle.line_serving.specs.Operating.{Operates};
ghost use Rattle.program_words.specs.Faults.{result_status};
ghost use Rattle.module_works.specs.WorkOutcomes.{IsWorkOutcome};
ghost use Rattle.module_works.specs.Works.{line_status};
ghost use Rattle.program_words.specs.declared.words.Work.TheVariants as work;

use engine_core::Engine;
use line_serving::{LineCodec, Operated, operate};
use module_frames::Reply;
use outside::{Noise, Sink, Source};
use program_words::RunFault;
use state_model::Module;
use std::alloc::{AllocError, Global};
use stream_calls::CHUNK;

// Takes all the memory, the module's last, and then operates; however that ends, the module is shut and closed. Without memory nothing is
// read or written.
fn open_and_operate<E: Engine, N: Noise, S: Source, K: Sink>(
    alloc: Global,
    engine: E,
    image: Vec<u8>,
    digest: [u8; 32],
    noise: &mut N,
    commands: &mut S,
    replies: &mut K,
) -> Result<Operated, AllocError>
    ensures served { IfOk result (λ answer. (view : ModuleView E) × Explained (N.left noise.old) (N.left noise.new)
        (Operates E.calls answer CHUNK (initial_state engine image.items digest) view
        (record { left = S.left commands.old; gained = K.gained replies.old })
        (record { left = S.left commands.new; gained = K.gained replies.new }))) }
    ensures untouched { OnErr result ((commands.new ≡ commands.old) × (replies.new ≡ replies.old)) }
    ensures read_fault { IfOk result (λ answer. answer ≡ Operated.ReadFault → FaultCounted (S.faults commands.old) (S.faults commands.new)) }
    ensures reads_unchanged { IfOk result (λ answer. answer ≢ Operated.ReadFault → S.faults commands.new ≡ S.faults commands.old) }
    ensures write_fault { IfOk result (λ answer. answer ≡ Operated.WriteFault → FaultCounted (K.faults replies.old) (K.faults replies.new)) }
    ensures writes_unchanged { IfOk result (λ answer. answer ≢ Operated.WriteFault → K.faults replies.new ≡ K.faults replies.old) }
{
    let mut codec = LineCodec::new(alloc)?;
    let mut reply = Reply::new(alloc)?;
    let mut chunk = vec![in alloc; 0; CHUNK]?;
    let mut module = Module::open(alloc, engine, image, digest)?;
    let answer = operate(
        &mut module,
        noise,
        commands,
        replies,
        &mut codec,
        &mut reply,
        &mut chunk,
    );
    module.shut();
    module.close();
    Ok(answer)
}

// The fault for how the lines ended, where that wasn't at the end of the input.
pub(crate) fn result_of(answer: Operated) -> Result<(), RunFault>
    ensures { result_status result ≡ line_status answer }
{
    match answer {
        Operated::End => Ok(()),
        Operated::BadLine(_) => Err(RunFault::BadLine),
        Operated::ReadFault => Err(RunFault::ReadFailed),
        Operated::WriteFault => Err(RunFault::WriteFailed),
        Operated::Limit => Err(RunFault::StreamTooLong),
    }
}

/// Answers lines by a module that is opened with engine, image and digest, and with this noise.
pub fn operate_lines<E: Engine, N: Noise, S: Source, K: Sink>(
    alloc: Global,
    engine: E,
    image: Vec<u8>,
    digest: [u8; 32],
    noise: &mut N,
    commands: &mut S,
    replies: &mut K,
) -> Result<(), RunFault>
    ensures outcome { (keys backup : List ℕ) → IsWorkOutcome work.Operate keys backup E.calls (initial_state engine image.items digest) (N.left noise.old) (N.left noise.new) (result_status result)
        (record {
          source = commands.old;
          sink = replies.old;
          streams = record { left = S.left commands.old; gained = K.gained replies.old };
          read_faults = S.faults commands.old;
          write_faults = K.faults replies.old;
        })
        (record {
          source = commands.new;
          sink = replies.new;
          streams = record { left = S.left commands.new; gained = K.gained replies.new };
          read_faults = S.faults commands.new;
          write_faults = K.faults replies.new;
        }) }
{
    match open_and_operate(alloc, engine, image, digest, noise, commands, replies) {
        Ok(answer) => result_of(answer),
        Err(_) => Err(RunFault::OutOfMemory),
    }
}
