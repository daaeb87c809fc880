// The works, each by its name.
ghost use Rattle.state_model.specs.MachineState.{initial_state};
ghost use Rattle.program_words.specs.Faults.{result_status};
ghost use Rattle.module_works.specs.WorkOutcomes.{HasKeyBytes, IsWorkOutcome};

use crate::backup_work::back_up_lines;
use crate::frames_work::serve_frames;
use crate::lines_work::operate_lines;
use crate::restore_work::operate_restored;
use crate::session_work::summarise;
use engine_core::Engine;
use outside::{Noise, Sink, Source};
use program_words::{RunFault, Work};
use std::alloc::Global;

/// Does a work on a module that is opened with engine, image and digest, with this noise, and with the keys and the backup that the work has: 64 bytes
/// of keys where it is `Backup` or `Restore`. Memory is taken before anything is read or written.
pub fn do_work<E: Engine, N: Noise, S: Source, K: Sink>(
    alloc: Global,
    work: Work,
    keys: &mut [u8],
    backup: &[u8],
    engine: E,
    image: Vec<u8>,
    digest: [u8; 32],
    noise: &mut N,
    commands: &mut S,
    replies: &mut K,
) -> Result<(), RunFault>
    requires keys { HasKeyBytes work keys.old }
    ensures outcome { IsWorkOutcome work keys.old backup.now E.calls (initial_state engine image.items digest) (N.left noise.old) (N.left noise.new) (result_status result)
        (record {
          source = commands.old;
          sink = replies.old;
          streams = record { left = S.left commands.old; gained = K.gained replies.old };
          read_faults = S.faults commands.old;
          write_faults = K.faults replies.old;
        })
        (record {
          source = commands.new;
          sink = replies.new;
          streams = record { left = S.left commands.new; gained = K.gained replies.new };
          read_faults = S.faults commands.new;
          write_faults = K.faults replies.new;
        }) }
{
    match work {
        Work::Serve => serve_frames(alloc, engine, image, digest, noise, commands, replies),
        Work::Operate => operate_lines(alloc, engine, image, digest, noise, commands, replies),
        Work::Session { seed, count } => {
            summarise(alloc, seed, count, engine, image, digest, noise, replies)
        }
        Work::Backup => back_up_lines(alloc, keys, engine, image, digest, noise, commands, replies),
        Work::Restore => operate_restored(
            alloc, keys, backup, engine, image, digest, noise, commands, replies,
        ),
    }
}
