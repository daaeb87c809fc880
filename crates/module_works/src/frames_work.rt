// Frames that are served from a source.
ghost use Rattle.std.specs.Prelude.{◌≡◌, ◌≢◌, ℕ, List, IfOk, OnErr};
ghost use Rattle.outside.specs.Explained.{Explained};
ghost use Rattle.outside.specs.Faults.{FaultCounted};
ghost use Rattle.state_model.specs.ModuleView.{ModuleView};
ghost use Rattle.state_model.specs.MachineState.{initial_state};
ghost use Rattle.command_serving.specs.FrameGrammar.{frame_grammar};
ghost use Rattle.command_serving.specs.Serving.{Serves};
ghost use Rattle.program_words.specs.Faults.{result_status};
ghost use Rattle.module_works.specs.WorkOutcomes.{IsWorkOutcome};
ghost use Rattle.module_works.specs.Works.{exit_status};
ghost use Rattle.program_words.specs.declared.words.Work.TheVariants as work;

use command_serving::{Ended, serve};
use engine_core::Engine;
use module_frames::{Frames, Reply};
use outside::{Noise, Sink, Source};
use program_words::RunFault;
use state_model::Module;
use std::alloc::{AllocError, Global};
use stream_calls::CHUNK;

// Takes all the memory, the module's last, and then serves; however that ends, the module is shut and closed. Without memory nothing is
// read or written.
fn open_and_serve<E: Engine, N: Noise, S: Source, K: Sink>(
    alloc: Global,
    engine: E,
    image: Vec<u8>,
    digest: [u8; 32],
    noise: &mut N,
    commands: &mut S,
    replies: &mut K,
) -> Result<Ended, AllocError>
    ensures served { IfOk result (λ ending. (view : ModuleView E) × Explained (N.left noise.old) (N.left noise.new)
        (Serves frame_grammar E.calls ending CHUNK (initial_state engine image.items digest) view
        (record { left = S.left commands.old; gained = K.gained replies.old })
        (record { left = S.left commands.new; gained = K.gained replies.new }))) }
    ensures untouched { OnErr result ((commands.new ≡ commands.old) × (replies.new ≡ replies.old)) }
    ensures read_fault { IfOk result (λ ending. ending ≡ Ended.ReadFault → FaultCounted (S.faults commands.old) (S.faults commands.new)) }
    ensures reads_unchanged { IfOk result (λ ending. ending ≢ Ended.ReadFault → S.faults commands.new ≡ S.faults commands.old) }
    ensures write_fault { IfOk result (λ ending. ending ≡ Ended.WriteFault → FaultCounted (K.faults replies.old) (K.faults replies.new)) }
    ensures writes_unchanged { IfOk result (λ ending. ending ≢ Ended.WriteFault → K.faults replies.new ≡ K.faults replies.old) }
{
    let mut frames = Frames::new(alloc)?;
    let mut reply = Reply::new(alloc)?;
    let mut chunk = vec![in alloc; 0; CHUNK]?;
    let mut module = Module::open(alloc, engine, image, digest)?;
    let ended = serve(
        &mut module,
        noise,
        commands,
        replies,
        &mut frames,
        &mut reply,
        &mut chunk,
    );
    module.shut();
    module.close();
    Ok(ended)
}

// The fault for how serving ended, where that wasn't at the end of the input.
fn result_of(ended: Ended) -> Result<(), RunFault>
    ensures { result_status result ≡ exit_status ended }
{
    match ended {
        Ended::End => Ok(()),
        Ended::BadFrame(_) => Err(RunFault::BadFrame),
        Ended::Truncated => Err(RunFault::Truncated),
        Ended::ReadFault => Err(RunFault::ReadFailed),
        Ended::WriteFault => Err(RunFault::WriteFailed),
        Ended::Limit => Err(RunFault::StreamTooLong),
    }
}

/// Serves frames by a module that is opened with engine, image and digest, and with this noise.
pub fn serve_frames<E: Engine, N: Noise, S: Source, K: Sink>(
    alloc: Global,
    engine: E,
    image: Vec<u8>,
    digest: [u8; 32],
    noise: &mut N,
    commands: &mut S,
    replies: &mut K,
) -> Result<(), RunFault>
    ensures outcome { (keys backup : List ℕ) → IsWorkOutcome work.Serve keys backup E.calls (initial_state engine image.items digest) (N.left noise.old) (N.left noise.new) (result_status result)
        (record {
          source = commands.old;
          sink = replies.old;
          streams = record { left = S.left commands.old; gained = K.gained replies.old };
          read_faults = S.faults commands.old;
          write_faults = K.faults replies.old;
        })
        (record {
          source = commands.new;
          sink = replies.new;
          streams = record { left = S.left commands.new; gained = K.gained replies.new };
          read_faults = S.faults commands.new;
          write_faults = K.faults replies.new;
        }) }
{
    match open_and_serve(alloc, engine, image, digest, noise, commands, replies) {
        Ok(ended) => result_of(ended),
        Err(_) => Err(RunFault::OutOfMemory),
    }
}
