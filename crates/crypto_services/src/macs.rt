// MACs under the keys of the vault.
ghost use Rattle.std.specs.Prelude.{◌≡◌, ◌≤◌, ◌∷◌, []};
ghost use Rattle.bits_core.specs.Algorithms.{alg_size};
ghost use Rattle.bits_core.specs.declared.limits.TheConstants.{LARGEST_PAYLOAD};
ghost use Rattle.ssp_slots.specs.Slots.{AreWellFormed};
ghost use Rattle.service_table.specs.declared.service.Service.TheVariants as service;
ghost use Rattle.crypto_services.specs.AtSlots.{on_slot};
ghost use Rattle.crypto_services.specs.Services.{mac_at};
ghost use Rattle.crypto_services.specs.Serves.{Serves};

use crate::leftmost::put_leftmost;
use crate::outcome::{status_of, with_indicator};
use crate::{Outcome, Parts};
use bits_core::{Alg, Enabled, Kind, Port, SlotId, wipe};
use engine_core::Engine;
use service_table::{Service, Status, approved};

/// The MAC of a text under the key of a slot (FIPS 198-1), as payload: its leftmost `mac_length` bytes. One use of the key is spent.
/// Refused, in this order, with nothing spent: the slot is empty (EmptySlot); it holds no MAC key (WrongKind); its key is approved
/// and the MAC is too short for an approved use (WrongDomain); its key has no use left (Spent).
pub fn mac<E: Engine>(
    parts: &mut Parts<E>,
    slot: SlotId,
    alg: Alg,
    mac_length: usize,
    text: &[u8],
    port: &mut Port<'_, Enabled>,
) -> Outcome
    requires least { 1 ≤ mac_length }
    requires most { mac_length ≤ alg_size alg }
    requires empty { port.old.outbox.now.bytes ≡ [] }
    requires room { LARGEST_PAYLOAD ≤ port.old.outbox.now.room }
    ensures serves { Serves (record { service = service.Mac; mac_length = mac_length; named = slot ∷ [] })
        (on_slot parts.old.vault.slots slot (mac_at E.calls parts.old.engine alg mac_length text.now)) parts.old parts.new result port.new.outbox.now.bytes }
    ensures same { port.new.outbox.ghost_name ≡ port.old.outbox.ghost_name }
    ensures room { port.new.outbox.now.room ≡ port.old.outbox.now.room }
    ensures well_formed { AreWellFormed parts.new.vault }
{
    let is_approved = approved(Service::Mac, mac_length);
    if let Err(fault) = parts.vault.source(slot, Kind::Mac, is_approved) {
        let status = status_of(fault);
        return with_indicator(Service::Mac, mac_length, &[slot], status, &parts.vault);
    }
    let mut out = [0; 64];
    let key = parts.vault.bytes(slot);
    parts.engine.mac(alg, key, text, &mut out);
    put_leftmost(port, &out, mac_length);
    wipe(&mut out);
    with_indicator(Service::Mac, mac_length, &[slot], Status::Ok, &parts.vault)
}
