// The backup of a vault is written.
ghost use Rattle.std.specs.Prelude.{◌≡◌, ◌≤◌, ◌<◌, ◌+◌, ◌∷◌, ◌++◌, ℕ, List, [], length, map};
ghost use Rattle.std.specs.List.{flat_map};
ghost use Rattle.std.specs.Int.{to_be_bytes, w32};
ghost use Rattle.bits_core.specs.OutboxContents.{holding};
ghost use Rattle.bits_core.specs.Parameters.{kind_number, domain_number};
ghost use Rattle.aes_core.specs.Key.{aes};
ghost use Rattle.aes_core.specs.Schedules.{IsExpanded};
ghost use Rattle.key_wrap.specs.Wrapping.{kwp};
ghost use Rattle.ssp_slots.specs.Slots.{AreWellFormed, slot_in, parameter};
ghost use Rattle.vault_backup.specs.BackupForm.{record_bytes};
ghost use Rattle.vault_backup.specs.Backups.{if_kept, kept_at, kept_slots, backup_of};
ghost use Rattle.vault_backup.specs.Writing.{Signs, record_front};

use crate::limits::{BACKUP_MOST, MAGIC, RECORD_FRONT};
use crate::wrappings::lay;
use aes_core::Schedule;
use bits_core::{Alg, Enabled, Header, Outbox, Port, SlotId, wipe};
use hmac_core::MacStream;
use key_wrap::wrap_pad;
use ssp_slots::Vault;

/// How many slots a vault has.
const SLOTS: u8 = 16;

/// Clears `out` and writes the backup of the slots that are full, may leave and have a use left: their parameters wrapped under `kek`, and
/// the whole with a tag under `mac`. It has 37 to 1,317 bytes, for which there is room. What the vault holds stays as it is.
pub fn backup(vault: &Vault, kek: &[u8; 32], mac: &[u8; 32], out: &mut Outbox)
    requires room { BACKUP_MOST ≤ out.old.room }
    ensures written { out.new ≡ holding (backup_of vault.now kek.now mac.now) out.old.room }
    ensures well_formed { AreWellFormed vault.now }
{
    let mut schedule = Schedule::empty();
    schedule.expand(kek);
    let mut port = Port::<Enabled>::over(out);
    put_backup(vault, &schedule, mac, &mut port);
    schedule.wipe();
}

// Puts a backup.
fn put_backup(vault: &Vault, schedule: &Schedule, mac: &[u8; 32], port: &mut Port<'_, Enabled>)
    requires expanded { (key : List ℕ) × IsExpanded schedule.now key }
    requires empty { port.old.outbox.now.bytes ≡ [] }
    requires room { BACKUP_MOST ≤ port.old.outbox.now.room }
    ensures same { port.new.outbox.ghost_name ≡ port.old.outbox.ghost_name }
    ensures put { (key : List ℕ) → IsExpanded schedule.now key
        → port.new.outbox.now ≡ holding (backup_of vault.now key mac.now) port.old.outbox.now.room }
    ensures well_formed { AreWellFormed vault.now }
{
    let mut stream = MacStream::new(Alg::Sha256, mac);
    put_signed(port, &mut stream, &MAGIC);
    let count = kept_count(vault);
    put_signed(port, &mut stream, &[count]);
    put_slots(vault, schedule, port, &mut stream);
    port.put(&stream.finish_leftmost());
}

// Puts bytes that the tag is made of.
fn put_signed(port: &mut Port<'_, Enabled>, stream: &mut MacStream, piece: &[u8])
    requires room { length port.old.outbox.now.bytes + length piece.now ≤ port.old.outbox.now.room }
    ensures same { port.new.outbox.ghost_name ≡ port.old.outbox.ghost_name }
    ensures signs { Signs port.old.outbox.now port.new.outbox.now stream.old stream.new piece.now }
{
    port.put(piece);
    stream.update(piece);
}

// What a slot tells of its parameter, where the slot is kept.
fn kept_header(vault: &Vault, id: SlotId) -> Option<Header>
    ensures kept { result ≡ if_kept (slot_in vault.now id).header }
    ensures well_formed { AreWellFormed vault.now }
{
    match vault.show(id).header {
        Some(header) if header.export && header.uses >= 1 => Some(header),
        _ => None,
    }
}

// How many slots are kept.
fn kept_count(vault: &Vault) -> u8
    ensures count { (key : List ℕ) → result ≡ length (kept_slots key vault.now) }
    ensures well_formed { AreWellFormed vault.now }
{
    let mut count = 0;
    for number in 0..SLOTS {
        count += count_one(vault, SlotId::new(number).unwrap());
    }
    count
}

// 1 where a slot is kept.
fn count_one(vault: &Vault, id: SlotId) -> u8
    ensures count { (key : List ℕ) → result ≡ length (kept_at key vault.now id) }
    ensures most { result ≤ 1 }
    ensures well_formed { AreWellFormed vault.now }
{
    match kept_header(vault, id) {
        Some(_) => 1,
        None => 0,
    }
}

// Puts the records of all kept slots, in the order of their numbers.
fn put_slots(
    vault: &Vault,
    schedule: &Schedule,
    port: &mut Port<'_, Enabled>,
    stream: &mut MacStream,
)
    requires expanded { (key : List ℕ) × IsExpanded schedule.now key }
    requires room { length port.old.outbox.now.bytes + 1280 ≤ port.old.outbox.now.room }
    ensures same { port.new.outbox.ghost_name ≡ port.old.outbox.ghost_name }
    ensures signs { (key : List ℕ) → IsExpanded schedule.now key
        → Signs port.old.outbox.now port.new.outbox.now stream.old stream.new (flat_map record_bytes (kept_slots key vault.now)) }
    ensures few { length port.new.outbox.now.bytes ≤ length port.old.outbox.now.bytes + 1280 }
    ensures well_formed { AreWellFormed vault.now }
{
    for number in 0..SLOTS {
        put_slot(vault, schedule, SlotId::new(number).unwrap(), port, stream);
    }
}

// Puts the record of a slot, where the slot is kept.
fn put_slot(
    vault: &Vault,
    schedule: &Schedule,
    id: SlotId,
    port: &mut Port<'_, Enabled>,
    stream: &mut MacStream,
)
    requires expanded { (key : List ℕ) × IsExpanded schedule.now key }
    requires room { length port.old.outbox.now.bytes + 80 ≤ port.old.outbox.now.room }
    ensures same { port.new.outbox.ghost_name ≡ port.old.outbox.ghost_name }
    ensures signs { (key : List ℕ) → IsExpanded schedule.now key
        → Signs port.old.outbox.now port.new.outbox.now stream.old stream.new (flat_map record_bytes (kept_at key vault.now id)) }
    ensures few { length port.new.outbox.now.bytes ≤ length port.old.outbox.now.bytes + 80 }
    ensures well_formed { AreWellFormed vault.now }
{
    let Some(header) = kept_header(vault, id) else {
        return;
    };
    let text = vault.bytes(id);
    let front = record_front(id, &header, text.len());
    put_signed(port, stream, &front);
    put_wrapping(schedule, text, port, stream);
}

// What a record has before what is wrapped.
fn record_front(id: SlotId, header: &Header, size: usize) -> [u8; RECORD_FRONT]
    requires { size ≤ 64 }
    ensures { result ≡ record_front id header.now size }
{
    let [u0, u1, u2, u3] = header.uses.to_be_bytes();
    [
        id.get(),
        header.kind.number(),
        header.domain.number(),
        u0,
        u1,
        u2,
        u3,
        size as u8,
    ]
}

// Puts the wrapping of a parameter.
fn put_wrapping(
    schedule: &Schedule,
    text: &[u8],
    port: &mut Port<'_, Enabled>,
    stream: &mut MacStream,
)
    requires expanded { (key : List ℕ) × IsExpanded schedule.now key }
    requires some { 1 ≤ length text.now }
    requires most { length text.now ≤ 64 }
    requires room { length port.old.outbox.now.bytes + 72 ≤ port.old.outbox.now.room }
    ensures same { port.new.outbox.ghost_name ≡ port.old.outbox.ghost_name }
    ensures signs { (key : List ℕ) → IsExpanded schedule.now key
        → Signs port.old.outbox.now port.new.outbox.now stream.old stream.new (kwp (aes key) text.now) }
    ensures few { length port.new.outbox.now.bytes ≤ length port.old.outbox.now.bytes + 72 }
{
    let mut buf = [0; 80];
    lay(&mut buf, text);
    let size = wrap_pad(schedule, &mut buf, text.len());
    put_signed(port, stream, &buf[..size]);
    wipe(&mut buf);
}
