// What a service may give out.
ghost use Rattle.std.specs.Prelude.{◌≡◌};
ghost use Rattle.service_table.specs.Services.{class_of};

use crate::Service;

/// The class of a service's output.
#[derive(Clone, Copy, Debug, PartialEq, Eq)]
pub enum Class {
    /// Its reply may have a payload.
    Payload,
    /// Its reply has none.
    Nothing,
}

/// The class of a service.
pub fn class_of(service: Service) -> Class
    ensures { result ≡ class_of service }
{
    match service {
        Service::PowerOn
        | Service::TestStep
        | Service::RequestTests
        | Service::ShowStatus
        | Service::ShowVersion
        | Service::SelectRole
        | Service::Reset
        | Service::EntryBegin
        | Service::EntryBytes
        | Service::EntryCommit
        | Service::EntryAbort
        | Service::Zeroise
        | Service::ZeroiseAll
        | Service::ShowSlot
        | Service::ZeroiseTree
        | Service::MacVerify
        | Service::Unwrap
        | Service::UnwrapPad
        | Service::Derive
        | Service::Generate
        | Service::Reseed => Class::Nothing,
        Service::Hash
        | Service::Mac
        | Service::Seal
        | Service::SealIv
        | Service::Open
        | Service::Wrap
        | Service::WrapPad
        | Service::Random => Class::Payload,
    }
}
