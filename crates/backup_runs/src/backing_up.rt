// The backup of what lines have made.
ghost use Rattle.std.specs.Prelude.{◌≡◌, ◌≢◌, ◌≤◌, ◌<◌, [], length, replicate};
ghost use Rattle.bits_core.specs.OutboxContents.{holding};
ghost use Rattle.outside.specs.Explained.{Explained};
ghost use Rattle.outside.specs.Faults.{FaultCounted};
ghost use Rattle.module_frames.specs.Fragments.{new_fragment};
ghost use Rattle.module_frames.specs.Replies.{IsCleared};
ghost use Rattle.state_model.specs.MachineState.{MachineState};
ghost use Rattle.state_model.specs.Represents.{Represents};
ghost use Rattle.vault_backup.specs.declared.limits.TheConstants.{BACKUP_MOST};
ghost use Rattle.backup_runs.specs.declared.limits.TheConstants.{KEYS_LENGTH};
ghost use Rattle.backup_runs.specs.BackingUp.{backup_answer, backup_text, BacksUp};

use crate::stepping::step_over_lines;
use crate::two_keys::two_keys;
use bits_core::{Outbox, wipe};
use command_serving::{Codec, Ended, wipe_served};
use engine_core::Engine;
use line_serving::{LineCodec, write_bad_line};
use module_frames::Reply;
use outside::{Noise, Sink, Source};
use state_model::Module;
use stream_calls::write_all;

/// How backing up behind lines ended.
#[derive(Clone, Copy, Debug, PartialEq, Eq)]
pub enum BackedUp {
    /// The source ended in the officer's role, and the backup was written.
    Written,
    /// The source ended in another state. Nothing was written.
    NotOfficer,
    /// The line of this number, counted from 1, is bad: it is no comment and spells no command. The line that tells its number was written.
    BadLine(u64),
    /// The source failed. Nothing was written.
    ReadFault,
    /// The sink failed. A part was written.
    WriteFault,
    /// 2^40 bytes were taken. Nothing was written.
    Limit,
}

// What is answered where the lines ended so, and what is to be written, in place of what the outbox held.
fn tell<E: Engine>(ended: Ended, module: &Module<E>, keys: &[u8], into: &mut Outbox) -> BackedUp
    requires keys { length keys.now ≡ KEYS_LENGTH }
    requires room { BACKUP_MOST ≤ into.old.room }
    ensures answer { result ≡ backup_answer ended «module».now.public.state }
    ensures text { into.new ≡ holding (backup_text ended «module».now.public.state «module».now.vault keys.now) into.old.room }
{
    match ended {
        // The end of the source ends the last line, so no stream of lines is truncated.
        Ended::End | Ended::Truncated => {
            let (kek, mac) = two_keys(keys);
            if module.backup(kek, mac, into) {
                BackedUp::Written
            } else {
                BackedUp::NotOfficer
            }
        }
        Ended::BadFrame(number) => {
            write_bad_line(number, into);
            BackedUp::BadLine(number)
        }
        Ended::ReadFault => {
            into.clear();
            BackedUp::ReadFault
        }
        Ended::WriteFault => {
            into.clear();
            BackedUp::WriteFault
        }
        Ended::Limit => {
            into.clear();
            BackedUp::Limit
        }
    }
}

/// Does the commands of an operator's lines to their end, and writes no reply; then writes the backup of the slots under the two keys, where the
/// state is Officer. At a bad line it writes `bad line`, a space, the line's number and an LF, and reads no further. The keys have 64 bytes, the
/// codec is new and the chunk isn't empty. As it returns, keys, codec, reply and chunk are zero.
///
/// The noise is what the commands draw from. No more than 2^40 bytes are asked for, and none once those taken show a bad line. Where a call on
/// the source or the sink failed, the answer is that object's.
pub fn back_up<E: Engine, N: Noise, S: Source, K: Sink>(
    module: &mut Module<E>,
    noise: &mut N,
    keys: &mut [u8],
    lines: &mut S,
    backup: &mut K,
    codec: &mut LineCodec,
    reply: &mut Reply,
    chunk: &mut [u8],
) -> BackedUp
    requires keys { length keys.old ≡ KEYS_LENGTH }
    requires new { codec.old ≡ new_fragment }
    requires chunk { 0 < length chunk.old }
    ensures backed_up { Explained (N.left noise.old) (N.left noise.new) (λ events left. (s : MachineState E) → Represents «module».old s →
        BacksUp E.calls result (length chunk.old) keys.old s «module».new
        (record { left = S.left lines.old; gained = K.gained backup.old })
        (record { left = S.left lines.new; gained = K.gained backup.new }) events left) }

    // Each fault comes only where that object's count rose.
    ensures read_fault { result ≡ BackedUp.ReadFault → FaultCounted (S.faults lines.old) (S.faults lines.new) }
    ensures reads_unchanged { result ≢ BackedUp.ReadFault → S.faults lines.new ≡ S.faults lines.old }
    ensures write_fault { result ≡ BackedUp.WriteFault → FaultCounted (K.faults backup.old) (K.faults backup.new) }
    ensures writes_unchanged { result ≢ BackedUp.WriteFault → K.faults backup.new ≡ K.faults backup.old }

    ensures zero { (codec.new.bytes ≡ []) × IsCleared reply.new × (chunk.new ≡ replicate (length chunk.old) 0) × (keys.new ≡ replicate KEYS_LENGTH 0) }
{
    let ended = step_over_lines(module, noise, lines, codec, reply, chunk);
    // The backup takes the room of the replies' payloads, so that no memory is asked for.
    let answer = tell(ended, module, keys, &mut reply.payload);
    wipe(keys);
    codec.clear();
    wipe_served(chunk);
    let written = write_all(backup, reply.payload.bytes());
    reply.clear();
    match written {
        Ok(()) => answer,
        Err(_) => BackedUp::WriteFault,
    }
}
