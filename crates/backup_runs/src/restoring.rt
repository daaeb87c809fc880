// Lines that are served from what a backup restores.
ghost use Rattle.std.specs.Prelude.{◌≡◌, ◌≢◌, ◌<◌, [], length, replicate};
ghost use Rattle.outside.specs.Explained.{Explained};
ghost use Rattle.outside.specs.Faults.{FaultCounted};
ghost use Rattle.engine_core.specs.Calls.{IsStandard};
ghost use Rattle.module_frames.specs.Fragments.{new_fragment};
ghost use Rattle.module_frames.specs.Replies.{IsCleared};
ghost use Rattle.line_serving.specs.declared.operating.Operated.{Operated};
ghost use Rattle.state_model.specs.MachineState.{MachineState};
ghost use Rattle.state_model.specs.Represents.{Represents};
ghost use Rattle.backup_runs.specs.declared.limits.TheConstants.{KEYS_LENGTH};
ghost use Rattle.backup_runs.specs.Restoring.{Fills, RestoresAndOperates, KeepsRestoredSecrets};

use crate::officer::become_officer;
use crate::two_keys::two_keys;
use bits_core::wipe;
use command_serving::{Codec, wipe_served};
use engine_core::Engine;
use line_serving::{LineCodec, Operated, operate};
use module_frames::{Command, Reply};
use outside::{Noise, Sink, Source};
use service_table::State;
use state_model::Module;

/// How serving lines from a restored backup ended.
#[derive(Clone, Copy, Debug, PartialEq, Eq)]
pub enum Restored {
    /// The module didn't come to the officer's role. Nothing was read or written.
    NotOfficer,
    /// The backup was refused. Nothing was read or written.
    Refused,
    /// The backup was restored, and serving the lines behind it ended so.
    Operated(Operated),
}

/// What became of a backup.
#[derive(Clone, Copy, Debug, PartialEq, Eq)]
pub enum Filling {
    /// The state isn't Officer.
    NotOfficer,
    /// It was refused.
    Refused,
    /// It was restored.
    Done,
}

// Restores the backup, where the state is Officer. Else, and where it is refused, nothing changes.
fn fill<E: Engine>(module: &mut Module<E>, keys: &[u8], backup: &[u8]) -> Filling
    requires { length keys.now ≡ KEYS_LENGTH }
    ensures { (s : MachineState E) → Represents «module».old s → Fills keys.now backup.now s result «module».new }
{
    if module.state() != State::Officer {
        return Filling::NotOfficer;
    }
    let (kek, mac) = two_keys(keys);
    match module.restore(kek, mac, backup) {
        Ok(_) => Filling::Done,
        Err(_) => Filling::Refused,
    }
}

/// Leads the module to the officer's role, by the commands PowerOn with period 0, RequestTests, three times TestStep and SelectRole; restores the
/// backup under the two keys; and then serves the lines of an operator from there, as `operate` does. Where the state isn't Officer then, or the
/// backup is refused, nothing is read or written. The keys have 64 bytes, the codec is new and the chunk isn't empty. The keys are zero as the
/// first line is read, and as it returns so are codec, reply and chunk.
pub fn restore_and_operate<E: Engine, N: Noise, S: Source, K: Sink>(
    module: &mut Module<E>,
    noise: &mut N,
    keys: &mut [u8],
    backup: &[u8],
    lines: &mut S,
    replies: &mut K,
    codec: &mut LineCodec,
    command: &mut Command,
    reply: &mut Reply,
    chunk: &mut [u8],
) -> Restored
    requires keys { length keys.old ≡ KEYS_LENGTH }
    requires new { codec.old ≡ new_fragment }
    requires chunk { 0 < length chunk.old }
    ensures restored { Explained (N.left noise.old) (N.left noise.new) (λ events left. (s : MachineState E) → Represents «module».old s →
        RestoresAndOperates E.calls result (length chunk.old) keys.old backup.now s «module».new
        (record { left = S.left lines.old; gained = K.gained replies.old })
        (record { left = S.left lines.new; gained = K.gained replies.new }) events left) }

    // With an engine that answers as the standards say, each stream of lines that differs from the bytes read in secrets alone would have run
    // alike from what was restored, and got equal replies to each command that observes nothing tainted.
    ensures secrets { IsStandard E.calls → Explained (N.left noise.old) (N.left noise.new) (λ events left. (s : MachineState E) → Represents «module».old s →
        KeepsRestoredSecrets E.calls result keys.old backup.now s
        (record { left = S.left lines.old; gained = K.gained replies.old })
        (record { left = S.left lines.new; gained = K.gained replies.new }) events left) }

    // Without a restored backup no stream is touched.
    ensures untouched { ((answer : Operated) → result ≢ Restored.Operated answer) → (lines.new ≡ lines.old) × (replies.new ≡ replies.old) }

    // Each fault comes only where that object's count rose.
    ensures read_fault { result ≡ Restored.Operated Operated.ReadFault → FaultCounted (S.faults lines.old) (S.faults lines.new) }
    ensures reads_unchanged { result ≢ Restored.Operated Operated.ReadFault → S.faults lines.new ≡ S.faults lines.old }
    ensures write_fault { result ≡ Restored.Operated Operated.WriteFault → FaultCounted (K.faults replies.old) (K.faults replies.new) }
    ensures writes_unchanged { result ≢ Restored.Operated Operated.WriteFault → K.faults replies.new ≡ K.faults replies.old }

    ensures zero { (codec.new.bytes ≡ []) × IsCleared reply.new × (chunk.new ≡ replicate (length chunk.old) 0) × (keys.new ≡ replicate KEYS_LENGTH 0) }
{
    become_officer(module, noise, command, reply);
    let filling = fill(module, keys, backup);
    wipe(keys);
    reply.clear();
    wipe_served(chunk);
    match filling {
        Filling::NotOfficer => Restored::NotOfficer,
        Filling::Refused => Restored::Refused,
        Filling::Done => Restored::Operated(operate(
            module, noise, lines, replies, codec, reply, chunk,
        )),
    }
}
