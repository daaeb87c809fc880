// The commit of an entered parameter.
ghost use Rattle.std.specs.Prelude.{◌≡◌, ◌≤◌, ◌<◌, ◌^◌, length, IsTrue, bytes_eq};
ghost use Rattle.bits_core.specs.Parameters.{length_fits};
ghost use Rattle.ssp_slots.specs.Slots.{AreWellFormed};
ghost use Rattle.crypto_services.specs.AtSlots.{on_slot};
ghost use Rattle.crypto_services.specs.Serves.{Leaves};
ghost use Rattle.state_model.specs.Commit.{target_bytes, check_value, after_check, commit_at};

use crate::entry::Target;
use bits_core::{Alg, same, wipe};
use crypto_services::{Parts, status_of};
use engine_core::Engine;
use service_table::Status;

// What the target is in the body that began its entry.
fn target_bytes(target: &Target) -> [u8; 9]
    requires { target.now.length ≤ 64 }
    ensures { result ≡ target_bytes target.now }
{
    let header = &target.header;
    let uses = header.uses.to_be_bytes();
    [
        target.slot.get(),
        header.kind.number(),
        header.domain.number(),
        u8::from(header.export),
        uses[0],
        uses[1],
        uses[2],
        uses[3],
        target.length as u8,
    ]
}

// Whether this is the check value of the bytes.
fn checks<E: Engine>(engine: &mut E, target: &Target, bytes: &[u8], check: &[u8]) -> bool
    requires { target.now.length ≤ 64 }
    ensures answer { result ≡ bytes_eq check.now (check_value E.calls engine.old target.now bytes.now) }
    ensures engine { engine.new ≡ after_check E.calls engine.old target.now bytes.now }
{
    let mut mac = [0; 64];
    engine.mac(Alg::Sha256, bytes, &target_bytes(target), &mut mac);
    let right = same(check, &mac[..8]);
    wipe(&mut mac);
    right
}

/// Commits the bytes that were entered for a target: refused where they are not as many as the parameter has, where its slot is
/// full, and where the check value isn't theirs, in this order; else the slot holds the parameter.
pub fn commit<E: Engine>(
    parts: &mut Parts<E>,
    target: &Target,
    bytes: &[u8],
    check: &[u8],
) -> Status
    requires slot { target.now.slot < 16 }
    requires uses { 1 ≤ target.now.header.uses }
    requires fits { IsTrue (length_fits target.now.header.kind target.now.header.domain target.now.length) }
    ensures leaves { let result' = on_slot parts.old.vault.slots target.now.slot (commit_at E.calls parts.old.engine target.now bytes.now check.now) in
        Leaves result' parts.old parts.new × (result ≡ result'.answer.status) }
    ensures well_formed { AreWellFormed parts.old.vault → AreWellFormed parts.new.vault }
{
    if bytes.len() != target.length {
        return Status::BadLength;
    }
    if let Err(fault) = parts.vault.vacant(target.slot) {
        return status_of(fault);
    }
    if !checks(&mut parts.engine, target, bytes, check) {
        return Status::CheckFailed;
    }
    match parts.vault.put(target.slot, &target.header, bytes) {
        Ok(_) => Status::Ok,
        Err(fault) => status_of(fault),
    }
}
