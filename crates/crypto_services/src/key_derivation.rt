// Key derivation from the keys of the vault.
ghost use Rattle.std.specs.Prelude.{◌≡◌, ◌≤◌, ◌∷◌, [], None, IsTrue, MatchResult};
ghost use Rattle.bits_core.specs.Parameters.{length_fits};
ghost use Rattle.ssp_slots.specs.Refusals.{vacancy_fault};
ghost use Rattle.ssp_slots.specs.Slots.{AreWellFormed, filled_in, parameter};
ghost use Rattle.service_table.specs.declared.service.Service.TheVariants as service;
ghost use Rattle.crypto_services.specs.AtSlots.{domain_at, fault_status, refusal, slot_at, success};
ghost use Rattle.crypto_services.specs.Derivation.{derive_result};
ghost use Rattle.crypto_services.specs.Serves.{Leaves, Serves};

use crate::outcome::{status_of, with_indicator};
use crate::{Outcome, Parts};
use bits_core::{Domain, Header, Inhibited, Kind, Port, SlotId, wipe};
use engine_core::Engine;
use service_table::{Service, Status, approved};
use ssp_slots::{SlotFault, Vault};

// The most bytes that a slot's parameter has.
const LARGEST_PARAMETER: usize = 64;

/// Fills a slot with `length` bytes of key material derived from the key of another slot, the source, by label and context (SP 800-108
/// Rev. 1, 4.1), for a parameter of this kind, which may leave the module or not and has so many uses. Its domain is that of the
/// source. One use of the source is spent.
///
/// Source and target differ, there is at least one use, and the length fits an approved parameter of the kind. Refused, in this
/// order: the source is empty (EmptySlot); it holds no derivation key (WrongKind); its key has no use left (Spent), all three with
/// nothing spent; the target is full (OccupiedSlot), after one use of the source was spent.
pub fn derive<E: Engine>(
    parts: &mut Parts<E>,
    source: SlotId,
    target: SlotId,
    kind: Kind,
    export: bool,
    uses: u32,
    length: usize,
    label: &[u8],
    context: &[u8],
    port: &mut Port<'_, Inhibited>,
) -> Outcome
    requires uses { 1 ≤ uses }
    requires fits { IsTrue (length_fits kind Domain.Approved length) }
    requires empty { port.old.outbox.now.bytes ≡ [] }
    ensures serves { Serves (record { service = service.Derive; mac_length = 0; named = source ∷ target ∷ [] })
        (derive_result E.calls parts.old.engine source target kind export uses length label.now context.now parts.old.vault.slots)
        parts.old parts.new result port.new.outbox.now.bytes }
    ensures same { port.new.outbox.ghost_name ≡ port.old.outbox.ghost_name }
    ensures room { port.new.outbox.now.room ≡ port.old.outbox.now.room }
    ensures well_formed { AreWellFormed parts.new.vault }
{
    let header = Header {
        kind,
        domain: domain_of(&parts.vault, source),
        export,
        uses,
    };
    let derived = derive_into(parts, source, target, &header, length, label, context);
    let status = match derived {
        Ok(()) => Status::Ok,
        Err(fault) => status_of(fault),
    };
    with_indicator(Service::Derive, 0, &[source, target], status, &parts.vault)
}

// The domain of a slot's parameter; Other where the slot is empty.
fn domain_of(vault: &Vault, slot: SlotId) -> Domain
    ensures { result ≡ domain_at (slot_at vault.now.slots slot).header }
{
    match vault.show(slot).header {
        Some(header) => header.domain,
        None => Domain::Other,
    }
}

// Derives into a slot, which gets this header; the header's domain is that of the source.
fn derive_into<E: Engine>(
    parts: &mut Parts<E>,
    source: SlotId,
    target: SlotId,
    header: &Header,
    size: usize,
    label: &[u8],
    context: &[u8],
) -> Result<(), SlotFault>
    requires domain { header.now.domain ≡ domain_at (slot_at parts.old.vault.slots source).header }
    requires uses { 1 ≤ header.now.uses }
    requires fits { IsTrue (length_fits header.now.kind header.now.domain size) }
    ensures derived { let after = derive_result E.calls parts.old.engine source target header.now.kind header.now.export header.now.uses size label.now context.now parts.old.vault.slots in
        Leaves after parts.old parts.new × MatchResult result (λ _. after.answer ≡ success []) (λ fault. after.answer ≡ refusal (fault_status fault)) }
    ensures well_formed { AreWellFormed parts.new.vault }
{
    let is_approved = approved(Service::Derive, 0);
    parts.vault.source(source, Kind::Kdf, is_approved)?;
    parts.vault.vacant(target)?;
    put_derived(parts, source, target, header, size, label, context);
    Ok(())
}

// Fills an empty slot with what is derived from the key of another.
fn put_derived<E: Engine>(
    parts: &mut Parts<E>,
    source: SlotId,
    target: SlotId,
    header: &Header,
    size: usize,
    label: &[u8],
    context: &[u8],
)
    requires uses { 1 ≤ header.now.uses }
    requires fits { IsTrue (length_fits header.now.kind header.now.domain size) }
    requires vacant { vacancy_fault (slot_at parts.old.vault.slots target).header ≡ None }
    ensures filled { let key = parameter (slot_at parts.old.vault.slots source) in
        parts.new.vault ≡ filled_in parts.old.vault target header.now (E.calls.derive parts.old.engine key label.now context.now size) }
    ensures engine { parts.new.engine ≡ E.calls.derive_after parts.old.engine (parameter (slot_at parts.old.vault.slots source)) label.now context.now size }
    ensures generator { parts.new.drbg ≡ parts.old.drbg }
    ensures health { parts.new.health ≡ parts.old.health }
    ensures well_formed { AreWellFormed parts.new.vault }
{
    let mut material = [0; LARGEST_PARAMETER];
    let key = parts.vault.bytes(source);
    parts
        .engine
        .derive(key, label, context, &mut material[..size]);
    let _ = parts.vault.put(target, header, &material[..size]);
    wipe(&mut material);
}
