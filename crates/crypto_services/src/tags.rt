// Checks of MACs under the keys of the vault.
ghost use Rattle.std.specs.Prelude.{◌≡◌, ◌≤◌, ◌∷◌, [], length, if◌then◌else◌};
ghost use Rattle.bits_core.specs.Algorithms.{alg_size};
ghost use Rattle.ssp_slots.specs.Slots.{AreWellFormed};
ghost use Rattle.service_table.specs.declared.service.Service.TheVariants as service;
ghost use Rattle.crypto_services.specs.AtSlots.{on_slot};
ghost use Rattle.crypto_services.specs.Services.{mac_verify_at};
ghost use Rattle.crypto_services.specs.Serves.{Serves};

use crate::leftmost::has_leftmost;
use crate::outcome::{status_of, with_indicator};
use crate::{Outcome, Parts};
use bits_core::{Alg, Inhibited, Kind, Port, SlotId, wipe};
use engine_core::Engine;
use service_table::{Service, Status, approved};

/// Whether a tag is the leftmost part of the MAC of a text under the key of a slot (FIPS 198-1): Ok if it is, and else AuthFailed.
/// One use of the key is spent in both cases. Refused as `mac` is, by the length of the tag.
pub fn mac_verify<E: Engine>(
    parts: &mut Parts<E>,
    slot: SlotId,
    alg: Alg,
    tag: &[u8],
    text: &[u8],
    port: &mut Port<'_, Inhibited>,
) -> Outcome
    requires least { 1 ≤ length tag.now }
    requires most { length tag.now ≤ alg_size alg }
    requires empty { port.old.outbox.now.bytes ≡ [] }
    ensures serves { Serves (record { service = service.MacVerify; mac_length = length tag.now; named = slot ∷ [] })
        (on_slot parts.old.vault.slots slot (mac_verify_at E.calls parts.old.engine alg tag.now text.now)) parts.old parts.new result port.new.outbox.now.bytes }
    ensures same { port.new.outbox.ghost_name ≡ port.old.outbox.ghost_name }
    ensures room { port.new.outbox.now.room ≡ port.old.outbox.now.room }
    ensures well_formed { AreWellFormed parts.new.vault }
{
    let is_approved = approved(Service::MacVerify, tag.len());
    if let Err(fault) = parts.vault.source(slot, Kind::Mac, is_approved) {
        let status = status_of(fault);
        return with_indicator(Service::MacVerify, tag.len(), &[slot], status, &parts.vault);
    }
    let mut out = [0; 64];
    let key = parts.vault.bytes(slot);
    parts.engine.mac(alg, key, text, &mut out);
    let status = verified(has_leftmost(&out, tag));
    wipe(&mut out);
    with_indicator(Service::MacVerify, tag.len(), &[slot], status, &parts.vault)
}

// The status of a check of a tag.
fn verified(right: bool) -> Status
    ensures { result ≡ (if right then Status.Ok else Status.AuthFailed) }
{
    if right {
        Status::Ok
    } else {
        Status::AuthFailed
    }
}
