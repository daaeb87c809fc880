// What a service answers beside its payload.
ghost use Rattle.std.specs.Prelude.{◌≡◌, ◌&&◌, false, Some, None};
ghost use Rattle.std.specs.List.{list_all};
ghost use Rattle.crypto_services.specs.AtSlots.{fault_status, slot_at};
ghost use Rattle.crypto_services.specs.Indicator.{ServiceUse, is_ok, is_in_approved, indicator};

use bits_core::{Domain, SlotId};
use service_table::{Failure, Service, Status, approved};
use ssp_slots::{SlotFault, Vault};

/// What a service answers beside its payload.
#[derive(Clone, Copy, Debug, PartialEq, Eq)]
pub struct Outcome {
    pub status: Status,
    /// What failed, where something did.
    pub failure: Option<Failure>,
    /// Whether it was an approved use. That a service tells so is asked for by ISO/IEC 19790:2012, 7.2.4.2; the rule, by the named slots,
    /// is this project's own.
    pub approved: bool,
}

/// The status of a command that a slot refused.
pub fn status_of(fault: SlotFault) -> Status
    ensures { result ≡ fault_status fault }
{
    match fault {
        SlotFault::EmptySlot => Status::EmptySlot,
        SlotFault::WrongKind => Status::WrongKind,
        SlotFault::WrongDomain => Status::WrongDomain,
        SlotFault::Spent => Status::Spent,
        SlotFault::OccupiedSlot => Status::OccupiedSlot,
        SlotFault::NotExportable => Status::NotExportable,
    }
}

// Whether a slot holds a parameter of the approved domain.
fn is_in_approved(vault: &Vault, slot: SlotId) -> bool
    ensures { result ≡ is_in_approved (slot_at vault.now.slots slot) }
{
    match vault.show(slot).header {
        Some(header) => header.domain == Domain::Approved,
        None => false,
    }
}

// Whether all these slots hold a parameter of the approved domain.
fn are_in_approved(vault: &Vault, named: &[SlotId]) -> bool
    ensures { result ≡ list_all (λ id. is_in_approved (slot_at vault.now.slots id)) named.now }
{
    named.iter().all(|slot| is_in_approved(vault, *slot))
}

/// The outcome of a service that nothing failed in, with the indicator: by the service, the MAC's length where it has one, the slots
/// that the command names, and the vault after it.
pub(crate) fn with_indicator(
    service: Service,
    mac_length: usize,
    named: &[SlotId],
    status: Status,
    vault: &Vault,
) -> Outcome
    ensures { let indicated = indicator (record { service = service; mac_length = mac_length; named = named.now }) status vault.now.slots in
        result ≡ record { status = status; failure = None; approved = indicated } }
{
    let approved = status == Status::Ok
        && approved(service, mac_length)
        && are_in_approved(vault, named);
    Outcome {
        status,
        failure: None,
        approved,
    }
}

/// The outcome of a service that drew, where the noise failed.
pub(crate) fn noise_failed(failure: Failure) -> Outcome
    ensures { result ≡ record { status = Status.NoiseFault; failure = Some failure; approved = false } }
{
    Outcome {
        status: Status::NoiseFault,
        failure: Some(failure),
        approved: false,
    }
}
