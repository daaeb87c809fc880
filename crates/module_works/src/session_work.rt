// A session, and its summary.
ghost use Rattle.std.specs.Prelude.{◌≡◌, ◌≢◌, ℕ, List, None, IfOk, OnOk, OnErr};
ghost use Rattle.outside.specs.Explained.{Explained};
ghost use Rattle.outside.specs.Faults.{FaultCounted};
ghost use Rattle.state_model.specs.ModuleView.{ModuleView};
ghost use Rattle.state_model.specs.MachineState.{initial_state};
ghost use Rattle.program_words.specs.Faults.{result_status};
ghost use Rattle.module_works.specs.WorkOutcomes.{IsWorkOutcome};
ghost use Rattle.module_works.specs.Works.{SessionRun, written_status};
ghost use Rattle.program_words.specs.declared.words.Work.TheVariants as work;

use engine_core::Engine;
use module_frames::{Command, Reply};
use outside::{Failed, Noise, Sink};
use program_words::RunFault;
use session_commands::Session;
use session_runs::run_session;
use state_model::Module;
use std::alloc::{AllocError, Global};

// Takes all the memory, the module's last, and then runs the session; however that ends, the module is shut and closed. Without memory
// nothing is written.
fn open_and_run<E: Engine, N: Noise, K: Sink>(
    alloc: Global,
    seed: u64,
    count: u32,
    engine: E,
    image: Vec<u8>,
    digest: [u8; 32],
    noise: &mut N,
    out: &mut K,
) -> Result<Result<(), Failed>, AllocError>
    ensures run { IfOk result (λ written. (view : ModuleView E) × Explained (N.left noise.old) (N.left noise.new)
        (SessionRun E.calls seed count (initial_state engine image.items digest) view (written_status written) (K.gained out.old) (K.gained out.new))) }
    ensures untouched { OnErr result (out.new ≡ out.old) }
    ensures fault_counted { IfOk result (λ written. OnErr written (FaultCounted (K.faults out.old) (K.faults out.new))) }
    ensures faults_unchanged { IfOk result (λ written. OnOk written (K.faults out.new ≡ K.faults out.old)) }
{
    let mut command = Command::new(alloc)?;
    let mut reply = Reply::new(alloc)?;
    let mut module = Module::open(alloc, engine, image, digest)?;
    let mut session = Session::new(seed, count);
    let written = run_session(
        &mut module,
        noise,
        &mut session,
        &mut command,
        &mut reply,
        out,
    );
    module.shut();
    module.close();
    Ok(written)
}

/// Runs the session of this seed and count by a module that is opened with engine, image and digest, and with this noise, and writes its
/// summary. It has no source.
pub fn summarise<E: Engine, N: Noise, K: Sink>(
    alloc: Global,
    seed: u64,
    count: u32,
    engine: E,
    image: Vec<u8>,
    digest: [u8; 32],
    noise: &mut N,
    out: &mut K,
) -> Result<(), RunFault>
    ensures outcome { (keys backup : List ℕ) → IsWorkOutcome (work.Session seed count) keys backup E.calls (initial_state engine image.items digest) (N.left noise.old) (N.left noise.new) (result_status result)
        (record {
          source = tt {0};
          sink = out.old;
          streams = record { left = None; gained = K.gained out.old };
          read_faults = 0;
          write_faults = K.faults out.old;
        })
        (record {
          source = tt {0};
          sink = out.new;
          streams = record { left = None; gained = K.gained out.new };
          read_faults = 0;
          write_faults = K.faults out.new;
        }) }
{
    match open_and_run(alloc, seed, count, engine, image, digest, noise, out) {
        Ok(Ok(())) => Ok(()),
        Ok(Err(_)) => Err(RunFault::WriteFailed),
        Err(_) => Err(RunFault::OutOfMemory),
    }
}
