// What each service may answer.
ghost use Rattle.std.specs.Prelude.{◌≡◌};
ghost use Rattle.service_table.specs.Answers.{may_answer};
ghost use Rattle.service_table.specs.Services.{is_among, source_services};

use crate::{Service, Status};

// Whether the service uses the key that a slot holds.
fn uses_key(service: Service) -> bool
    ensures { result ≡ is_among source_services service }
{
    matches!(
        &service,
        Service::Mac
            | Service::MacVerify
            | Service::Seal
            | Service::SealIv
            | Service::Open
            | Service::Wrap
            | Service::Unwrap
            | Service::WrapPad
            | Service::UnwrapPad
            | Service::Derive
    )
}

/// Whether the reply to a command for the service may have this status. Each service may answer `Ok`, `NotInState` and `BadBody`, and
/// none `UnknownService` or `OutOfOrder`, which are said of a command that reaches no service. The table is this project's own.
pub fn may_answer(service: Service, status: Status) -> bool
    ensures { result ≡ may_answer service status }
{
    match status {
        Status::Ok | Status::NotInState | Status::BadBody => true,
        Status::UnknownService | Status::OutOfOrder => false,
        Status::TestFailed => matches!(&service, Service::TestStep | Service::Hash)
            || uses_key(service),
        Status::NoiseFault => matches!(
            &service,
            Service::TestStep
                | Service::Seal
                | Service::Random
                | Service::Generate
                | Service::Reseed
        ),
        Status::EmptySlot | Status::WrongKind | Status::Spent => uses_key(service),
        Status::WrongDomain => matches!(
            &service,
            Service::Mac | Service::MacVerify | Service::SealIv | Service::Wrap | Service::WrapPad
        ),
        Status::OccupiedSlot => matches!(
            &service,
            Service::EntryCommit
                | Service::Unwrap
                | Service::UnwrapPad
                | Service::Derive
                | Service::Generate
        ),
        Status::NotExportable => matches!(&service, Service::Wrap | Service::WrapPad),
        Status::BadLength => matches!(
            &service,
            Service::EntryBytes | Service::EntryCommit | Service::Wrap | Service::UnwrapPad
        ),
        Status::CheckFailed => matches!(&service, Service::EntryCommit),
        Status::AuthFailed => matches!(&service, Service::MacVerify | Service::Open),
        Status::UnwrapFailed => matches!(&service, Service::Unwrap | Service::UnwrapPad),
    }
}
