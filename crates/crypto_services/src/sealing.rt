// Authenticated encryption under the keys of the vault.
ghost use Rattle.std.specs.Prelude.{◌≡◌, ◌≤◌, ◌+◌, ◌∷◌, ℕ, List, [], length, MatchOption, MatchResult, OnOk};
ghost use Rattle.bits_core.specs.declared.limits.TheConstants.{LARGEST_BODY, LARGEST_PAYLOAD};
ghost use Rattle.bits_core.specs.ByteList.{zeros};
ghost use Rattle.gcm_mode.specs.Gcm.{IsIv, IsTagLength};
ghost use Rattle.noise_health.specs.Counts.{Counts};
ghost use Rattle.outside.specs.Explained.{Explained};
ghost use Rattle.outside.specs.Faults.{FaultCounted};
ghost use Rattle.random_bits.specs.Draws.{IsDrawn, drawn};
ghost use Rattle.ssp_slots.specs.Slots.{AreWellFormed};
ghost use Rattle.service_table.specs.declared.service.Service.TheVariants as service;
ghost use Rattle.crypto_services.specs.AtSlots.{on_slot};
ghost use Rattle.crypto_services.specs.Drawing.{ServesDrawn, after_draw};
ghost use Rattle.crypto_services.specs.Sealing.{seal_iv_at, seal_at, seal_result, open_at};
ghost use Rattle.crypto_services.specs.Serves.{Serves};

use crate::draws::draw_into;
use crate::outcome::{noise_failed, status_of, with_indicator};
use crate::{Outcome, Parts};
use bits_core::{Enabled, Kind, Port, SlotId};
use engine_core::Engine;
use outside::Noise;
use service_table::{Failure, Service, Status, approved};

/// How many bytes an IV that is drawn has: 96 bits, none of them fixed (SP 800-38D, 8.2.2).
const DRAWN_IV: usize = 12;

/// Encrypts a text under the key of a slot (SP 800-38D, 7.1), with an IV of the caller's of 1 to 255 bytes. The payload is the
/// ciphertext and the leftmost `tag_length` bytes of the tag, 12 to 16. One use of the key is spent. It is never an approved use.
/// Refused, in this order, with nothing spent: the slot is empty (EmptySlot); it holds no AES key (WrongKind); its key is approved
/// (WrongDomain); its key has no use left (Spent).
pub fn seal_iv<E: Engine>(
    parts: &mut Parts<E>,
    slot: SlotId,
    tag_length: usize,
    iv: &[u8],
    aad: &[u8],
    text: &[u8],
    port: &mut Port<'_, Enabled>,
) -> Outcome
    requires tag { IsTagLength tag_length }
    requires iv { IsIv iv.now }
    requires aad { length aad.now ≤ LARGEST_BODY }
    requires text { length text.now + tag_length ≤ LARGEST_PAYLOAD }
    requires empty { port.old.outbox.now.bytes ≡ [] }
    requires room { LARGEST_PAYLOAD ≤ port.old.outbox.now.room }
    ensures serves { Serves (record { service = service.SealIv; mac_length = 0; named = slot ∷ [] })
        (on_slot parts.old.vault.slots slot (seal_iv_at E.calls parts.old.engine tag_length iv.now aad.now text.now)) parts.old parts.new result port.new.outbox.now.bytes }
    ensures same { port.new.outbox.ghost_name ≡ port.old.outbox.ghost_name }
    ensures room { port.new.outbox.now.room ≡ port.old.outbox.now.room }
    ensures well_formed { AreWellFormed parts.new.vault }
{
    let is_approved = approved(Service::SealIv, 0);
    if let Err(fault) = parts.vault.source(slot, Kind::Aes, is_approved) {
        let status = status_of(fault);
        return with_indicator(Service::SealIv, 0, &[slot], status, &parts.vault);
    }
    let prepared = parts.vault.prepared(slot);
    let engine = &mut parts.engine;
    parts
        .work
        .seal(engine, prepared, tag_length, iv, aad, text, port);
    with_indicator(Service::SealIv, 0, &[slot], Status::Ok, &parts.vault)
}

/// Decrypts a text under the key of a slot (SP 800-38D, 7.2), with an IV of 1 to 255 bytes and a tag of 12 to 16. The payload is the
/// plaintext where the tag is right; else AuthFailed, and no byte of it is given. One use of the key is spent in both cases.
/// Refused, in this order, with nothing spent: the slot is empty (EmptySlot); it holds no AES key (WrongKind); its key has no use
/// left (Spent).
pub fn open<E: Engine>(
    parts: &mut Parts<E>,
    slot: SlotId,
    iv: &[u8],
    aad: &[u8],
    text: &[u8],
    tag: &[u8],
    port: &mut Port<'_, Enabled>,
) -> Outcome
    requires iv { IsIv iv.now }
    requires aad { length aad.now ≤ LARGEST_BODY }
    requires text { length text.now ≤ LARGEST_PAYLOAD }
    requires tag { IsTagLength (length tag.now) }
    requires empty { port.old.outbox.now.bytes ≡ [] }
    requires room { LARGEST_PAYLOAD ≤ port.old.outbox.now.room }
    ensures serves { Serves (record { service = service.Open; mac_length = 0; named = slot ∷ [] })
        (on_slot parts.old.vault.slots slot (open_at E.calls parts.old.engine iv.now aad.now text.now tag.now)) parts.old parts.new result port.new.outbox.now.bytes }
    ensures same { port.new.outbox.ghost_name ≡ port.old.outbox.ghost_name }
    ensures room { port.new.outbox.now.room ≡ port.old.outbox.now.room }
    ensures well_formed { AreWellFormed parts.new.vault }
{
    let is_approved = approved(Service::Open, 0);
    if let Err(fault) = parts.vault.source(slot, Kind::Aes, is_approved) {
        let status = status_of(fault);
        return with_indicator(Service::Open, 0, &[slot], status, &parts.vault);
    }
    let prepared = parts.vault.prepared(slot);
    let engine = &mut parts.engine;
    let status = parts.work.open(engine, prepared, iv, aad, text, tag, port);
    with_indicator(Service::Open, 0, &[slot], status, &parts.vault)
}

/// Encrypts a text under the key of a slot (SP 800-38D, 7.1), with an IV of 12 bytes that are drawn from the generator. The payload
/// is the IV, the ciphertext and the leftmost `tag_length` bytes of the tag, 12 to 16. One use of the key is spent.
/// The draw comes first, whatever the slot holds: where the noise fails, the status is NoiseFault. Refused then, in this order, with
/// nothing spent: the slot is empty (EmptySlot); it holds no AES key (WrongKind); its key has no use left (Spent).
pub fn seal<E: Engine, N: Noise>(
    parts: &mut Parts<E>,
    noise: &mut N,
    slot: SlotId,
    tag_length: usize,
    aad: &[u8],
    text: &[u8],
    port: &mut Port<'_, Enabled>,
) -> Outcome
    requires counts { (samples : List ℕ) × Counts parts.old.health samples }
    requires seeded { 1 ≤ parts.old.drbg.counter }
    requires tag { IsTagLength tag_length }
    requires aad { length aad.now ≤ LARGEST_BODY }
    requires text { 12 + (length text.now + tag_length) ≤ LARGEST_PAYLOAD }
    requires empty { port.old.outbox.now.bytes ≡ [] }
    requires room { LARGEST_PAYLOAD ≤ port.old.outbox.now.room }
    ensures serves { Explained (N.left noise.old) (N.left noise.new) (λ events left. (samples : List ℕ) → Counts parts.old.health samples →
        (let drawn = drawn E.calls parts.old.engine parts.old.drbg [] 12 samples events in
        ServesDrawn (record { service = service.Seal; mac_length = 0; named = slot ∷ [] }) drawn
        (after_draw drawn parts.old.vault.slots (seal_result E.calls slot tag_length aad.now text.now)) parts.old parts.new result port.new.outbox.now.bytes left)) }
    ensures fault_counted { MatchOption result.failure (N.faults noise.new ≡ N.faults noise.old)
        (λ failure. failure ≡ Failure.NoiseFailed → FaultCounted (N.faults noise.old) (N.faults noise.new)) }
    ensures same { port.new.outbox.ghost_name ≡ port.old.outbox.ghost_name }
    ensures room { port.new.outbox.now.room ≡ port.old.outbox.now.room }
    ensures well_formed { AreWellFormed parts.old.vault → AreWellFormed parts.new.vault }
{
    let mut iv = [0; DRAWN_IV];
    match draw_iv(parts, noise, &mut iv) {
        Ok(_) => sealed(parts, slot, tag_length, &iv, aad, text, port),
        Err(failure) => noise_failed(failure),
    }
}

// Draws an IV, whatever the slots hold.
fn draw_iv<E: Engine, N: Noise>(
    parts: &mut Parts<E>,
    noise: &mut N,
    iv: &mut [u8],
) -> Result<(), Failure>
    requires counts { (samples : List ℕ) × Counts parts.old.health samples }
    requires seeded { 1 ≤ parts.old.drbg.counter }
    requires most { length iv.old ≤ 65536 }
    requires zero { iv.old ≡ zeros (length iv.old) }
    ensures drawn { Explained (N.left noise.old) (N.left noise.new) (λ events left. (samples : List ℕ) → Counts parts.old.health samples →
        IsDrawn (drawn E.calls parts.old.engine parts.old.drbg [] (length iv.old) samples events) parts.new.engine parts.new.drbg parts.new.health result left
        × OnOk result (iv.new ≡ (drawn E.calls parts.old.engine parts.old.drbg [] (length iv.old) samples events).bytes)) }
    ensures vault { parts.new.vault ≡ parts.old.vault }
    ensures fault_counted { MatchResult result (λ _. N.faults noise.new ≡ N.faults noise.old)
        (λ failure. failure ≡ Failure.NoiseFailed → FaultCounted (N.faults noise.old) (N.faults noise.new)) }
{
    draw_into(
        &mut parts.engine,
        &mut parts.drbg,
        &mut parts.health,
        noise,
        &[],
        iv,
    )
}

// Encrypts a text under the key of a slot with an IV that was drawn.
fn sealed<E: Engine>(
    parts: &mut Parts<E>,
    slot: SlotId,
    tag_length: usize,
    iv: &[u8],
    aad: &[u8],
    text: &[u8],
    port: &mut Port<'_, Enabled>,
) -> Outcome
    requires tag { IsTagLength tag_length }
    requires iv { IsIv iv.now }
    requires aad { length aad.now ≤ LARGEST_BODY }
    requires text { length iv.now + (length text.now + tag_length) ≤ LARGEST_PAYLOAD }
    requires empty { port.old.outbox.now.bytes ≡ [] }
    requires room { LARGEST_PAYLOAD ≤ port.old.outbox.now.room }
    ensures serves { Serves (record { service = service.Seal; mac_length = 0; named = slot ∷ [] })
        (on_slot parts.old.vault.slots slot (seal_at E.calls parts.old.engine tag_length iv.now aad.now text.now)) parts.old parts.new result port.new.outbox.now.bytes }
    ensures same { port.new.outbox.ghost_name ≡ port.old.outbox.ghost_name }
    ensures room { port.new.outbox.now.room ≡ port.old.outbox.now.room }
    ensures well_formed { AreWellFormed parts.new.vault }
{
    let is_approved = approved(Service::Seal, 0);
    if let Err(fault) = parts.vault.source(slot, Kind::Aes, is_approved) {
        let status = status_of(fault);
        return with_indicator(Service::Seal, 0, &[slot], status, &parts.vault);
    }
    port.put(iv);
    let prepared = parts.vault.prepared(slot);
    let engine = &mut parts.engine;
    parts
        .work
        .seal(engine, prepared, tag_length, iv, aad, text, port);
    with_indicator(Service::Seal, 0, &[slot], Status::Ok, &parts.vault)
}
