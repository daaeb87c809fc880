// A backup is restored, or refused with nothing changed.
ghost use Rattle.std.specs.Prelude.{◌≡◌, ◌≤◌, ◌<◌, ℕ, List, length, take, drop, None, IsTrue, MatchOption, OnErr};
ghost use Rattle.std.specs.List.{AllByRecursion};
ghost use Rattle.bits_core.specs.Parameters.{length_fits};
ghost use Rattle.aes_core.specs.Schedules.{IsExpanded};
ghost use Rattle.key_wrap.specs.Wrapping.{IsKwpOf};
ghost use Rattle.ssp_slots.specs.Slots.{AreWellFormed, slot_in, filled_in};
ghost use Rattle.vault_backup.specs.BackupForm.{KeptSlot, AreRecords, wrapped_length};
ghost use Rattle.vault_backup.specs.Restoring.{IsWrapping, IsWrappingOf, IsVacant, IsFirstWithout, IsRestored, RestoresRecords, Restores};

use crate::RestoreFault;
use crate::form::{has_tag, is_backup, records_in};
use crate::limits::RECORD_FRONT;
use crate::record::{Record, known_record};
use crate::wrappings::{is_wrapping, unwrap_into};
use aes_core::Schedule;
use bits_core::{SlotId, wipe};
use ssp_slots::Vault;

/// Fills the slots of which the bytes, a backup, have a record, each with the recorded kind, domain, uses and parameter, and so that it
/// may leave: how many were filled. All other slots and all rows stay. Refused, in this order, with nothing changed: the bytes aren't of
/// a backup's form (Form); their tag isn't the MAC of the bytes before it under `mac` (Tag); a wrapped part is the wrapping under `kek`
/// of no parameter of its length (Wrapped, with the first such record's slot); a slot is full (Occupied, with the first such record's).
pub fn restore(
    vault: &mut Vault,
    kek: &[u8; 32],
    mac: &[u8; 32],
    bytes: &[u8],
) -> Result<usize, RestoreFault>
    ensures restores { Restores kek.now mac.now bytes.now vault.old result vault.new }
    ensures refused_unchanged { OnErr result (vault.new ≡ vault.old) }
    ensures well_formed { AreWellFormed vault.old → AreWellFormed vault.new }
{
    if !is_backup(bytes) {
        return Err(RestoreFault::Form);
    }
    if !has_tag(mac, bytes) {
        return Err(RestoreFault::Tag);
    }
    let mut schedule = Schedule::empty();
    schedule.expand(kek);
    let result = restore_records(vault, &schedule, records_in(bytes));
    schedule.wipe();
    result
}

// Restores records, of which all are looked at before a slot is filled.
fn restore_records(
    vault: &mut Vault,
    schedule: &Schedule,
    bytes: &[u8],
) -> Result<usize, RestoreFault>
    requires records { (records : List KeptSlot) × AreRecords bytes.now records }
    requires expanded { (key : List ℕ) × IsExpanded schedule.now key }
    ensures restores { (key : List ℕ) (records : List KeptSlot) → IsExpanded schedule.now key → AreRecords bytes.now records
        → RestoresRecords key records vault.old result vault.new }
    ensures refused_unchanged { OnErr result (vault.new ≡ vault.old) }
    ensures well_formed { AreWellFormed vault.old → AreWellFormed vault.new }
{
    match first_unwrappable(schedule, bytes) {
        Some(slot) => return Err(RestoreFault::Wrapped(slot)),
        None => {}
    }
    match first_full(vault, bytes) {
        Some(slot) => return Err(RestoreFault::Occupied(slot)),
        None => {}
    }
    Ok(fill_slots(vault, schedule, bytes))
}

// The slot of the first record whose wrapped part is the wrapping of no parameter of its length.
fn first_unwrappable(schedule: &Schedule, bytes: &[u8]) -> Option<SlotId>
    requires records { (records : List KeptSlot) × AreRecords bytes.now records }
    requires expanded { (key : List ℕ) × IsExpanded schedule.now key }
    ensures { (key : List ℕ) (records : List KeptSlot) → IsExpanded schedule.now key → AreRecords bytes.now records
        → MatchOption result (AllByRecursion (IsWrapping key) records) (λ id. IsFirstWithout (IsWrapping key) records id) }
{
    let mut at = 0;
    while at < bytes.len() {
        let head = known_record(bytes, at);
        let after = at + head.whole_length();
        if !is_wrapping(schedule, &bytes[at + RECORD_FRONT..after], head.length) {
            return Some(head.slot);
        }
        at = after;
    }
    None
}

// The first slot that is full of those that have a record.
fn first_full(vault: &Vault, bytes: &[u8]) -> Option<SlotId>
    requires records { (records : List KeptSlot) × AreRecords bytes.now records }
    ensures { (records : List KeptSlot) → AreRecords bytes.now records
        → MatchOption result (AllByRecursion (IsVacant vault.now) records) (λ id. IsFirstWithout (IsVacant vault.now) records id) }
{
    let mut at = 0;
    while at < bytes.len() {
        let head = known_record(bytes, at);
        match vault.vacant(head.slot) {
            Ok(()) => {}
            Err(_) => return Some(head.slot),
        }
        at += head.whole_length();
    }
    None
}

// Fills the slots that have a record: how many they are.
fn fill_slots(vault: &mut Vault, schedule: &Schedule, bytes: &[u8]) -> usize
    requires records { (records : List KeptSlot) × AreRecords bytes.now records × AllByRecursion (IsVacant vault.old) records }
    requires wrappings { (key : List ℕ) × IsExpanded schedule.now key
        × ((records : List KeptSlot) → AreRecords bytes.now records → AllByRecursion (IsWrapping key) records) }
    ensures restored { (key : List ℕ) (records : List KeptSlot) → IsExpanded schedule.now key → AreRecords bytes.now records
        → IsRestored key vault.old vault.new records × (result ≡ length records) }
    ensures well_formed { AreWellFormed vault.old → AreWellFormed vault.new }
{
    let mut at = 0;
    let mut count = 0;
    while at < bytes.len() {
        let head = known_record(bytes, at);
        let after = at + head.whole_length();
        fill_slot(vault, schedule, &head, &bytes[at + RECORD_FRONT..after]);
        at = after;
        count += 1;
    }
    count
}

// Fills the slot of a record with what is wrapped.
fn fill_slot(vault: &mut Vault, schedule: &Schedule, head: &Record, wrapped: &[u8])
    requires vacant { (slot_in vault.old head.now.slot).header ≡ None }
    requires fits { IsTrue (length_fits head.now.header.kind head.now.header.domain head.now.length) }
    requires uses { 1 ≤ head.now.header.uses }
    requires long { length wrapped.now ≡ wrapped_length head.now.length }
    requires wrapping { (key : List ℕ) × IsExpanded schedule.now key × IsWrappingOf key wrapped.now head.now.length }
    ensures filled { (key : List ℕ) → IsExpanded schedule.now key → (parameter : List ℕ) × IsKwpOf key wrapped.now parameter
        × (length parameter ≡ head.now.length) × (vault.new ≡ filled_in vault.old head.now.slot head.now.header parameter) }
    ensures well_formed { AreWellFormed vault.new }
{
    let mut buf = [0; 80];
    unwrap_into(&mut buf, schedule, wrapped, head.length);
    put_parameter(vault, head, &buf[..head.length]);
    wipe(&mut buf);
}

// Fills the slot of a record with a parameter.
fn put_parameter(vault: &mut Vault, head: &Record, parameter: &[u8])
    requires vacant { (slot_in vault.old head.now.slot).header ≡ None }
    requires fits { IsTrue (length_fits head.now.header.kind head.now.header.domain (length parameter.now)) }
    requires uses { 1 ≤ head.now.header.uses }
    ensures filled { vault.new ≡ filled_in vault.old head.now.slot head.now.header parameter.now }
    ensures well_formed { AreWellFormed vault.new }
{
    match vault.put(head.slot, &head.header, parameter) {
        Ok(()) => {}
        Err(_) => unreachable!(),
    }
}
