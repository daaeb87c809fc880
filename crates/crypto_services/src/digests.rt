// Digests.
ghost use Rattle.std.specs.Prelude.{◌≡◌, ◌≤◌, []};
ghost use Rattle.bits_core.specs.declared.limits.TheConstants.{LARGEST_PAYLOAD};
ghost use Rattle.ssp_slots.specs.Slots.{AreWellFormed};
ghost use Rattle.service_table.specs.declared.service.Service.TheVariants as service;
ghost use Rattle.crypto_services.specs.Services.{hash_result};
ghost use Rattle.crypto_services.specs.Serves.{Serves};

use crate::leftmost::put_leftmost;
use crate::outcome::with_indicator;
use crate::{Outcome, Parts};
use bits_core::{Alg, Enabled, Port, wipe};
use engine_core::Engine;
use service_table::{Service, Status};

/// The digest of a text (FIPS 180-4), as payload. It is never refused, and always an approved use.
pub fn hash<E: Engine>(
    parts: &mut Parts<E>,
    alg: Alg,
    text: &[u8],
    port: &mut Port<'_, Enabled>,
) -> Outcome
    requires empty { port.old.outbox.now.bytes ≡ [] }
    requires room { LARGEST_PAYLOAD ≤ port.old.outbox.now.room }
    ensures serves { Serves (record { service = service.Hash; mac_length = 0; named = [] })
        (hash_result E.calls parts.old.engine alg text.now parts.old.vault.slots) parts.old parts.new result port.new.outbox.now.bytes }
    ensures same { port.new.outbox.ghost_name ≡ port.old.outbox.ghost_name }
    ensures room { port.new.outbox.now.room ≡ port.old.outbox.now.room }
    ensures well_formed { AreWellFormed parts.old.vault → AreWellFormed parts.new.vault }
{
    let mut out = [0; 64];
    parts.engine.hash(alg, text, &mut out);
    put_leftmost(port, &out, alg.size());
    wipe(&mut out);
    with_indicator(Service::Hash, 0, &[], Status::Ok, &parts.vault)
}
