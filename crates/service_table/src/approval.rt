// Approved uses.
ghost use Rattle.std.specs.Prelude.{◌≡◌};
ghost use Rattle.service_table.specs.Services.{approval_of, is_approved, is_cryptographic};

use crate::Service;

/// The least length in bytes of a MAC that is an approved use: 32 bits, a rule of this project's own.
const MAC_LEAST: usize = 4;

/// Which uses of a service are approved.
#[derive(Clone, Copy, Debug, PartialEq, Eq)]
pub enum Approval {
    /// The service isn't cryptographic: none is.
    NotCryptographic,
    /// The service is cryptographic: each is.
    Always,
    /// The service is cryptographic: one is where its MAC has at least four bytes.
    ByMacLength,
    /// The service is cryptographic: none is.
    Never,
}

/// Which uses of a service are approved.
pub fn approval_of(service: Service) -> Approval
    ensures { result ≡ approval_of service }
{
    match service {
        Service::PowerOn
        | Service::TestStep
        | Service::RequestTests
        | Service::ShowStatus
        | Service::ShowVersion
        | Service::SelectRole
        | Service::Reset
        | Service::EntryBegin
        | Service::EntryBytes
        | Service::EntryCommit
        | Service::EntryAbort
        | Service::Zeroise
        | Service::ZeroiseAll
        | Service::ShowSlot
        | Service::ZeroiseTree => Approval::NotCryptographic,
        Service::Hash
        | Service::Seal
        | Service::Open
        | Service::Wrap
        | Service::Unwrap
        | Service::WrapPad
        | Service::UnwrapPad
        | Service::Derive
        | Service::Random
        | Service::Generate
        | Service::Reseed => Approval::Always,
        Service::Mac | Service::MacVerify => Approval::ByMacLength,
        Service::SealIv => Approval::Never,
    }
}

/// Whether a service is one of the cryptographic ones, whose uses are counted.
pub fn is_cryptographic(service: Service) -> bool
    ensures { result ≡ is_cryptographic service }
{
    match approval_of(service) {
        Approval::NotCryptographic => false,
        Approval::Always | Approval::ByMacLength | Approval::Never => true,
    }
}

/// Whether a service is an approved use, with a MAC of this length in bytes where it has one (ISO/IEC 19790:2012, 7.2.4.2, asks for
/// the indicator; which uses are approved is this project's own table).
pub fn approved(service: Service, mac_length: usize) -> bool
    ensures { result ≡ is_approved service mac_length }
{
    match approval_of(service) {
        Approval::NotCryptographic | Approval::Never => false,
        Approval::Always => true,
        Approval::ByMacLength => mac_length >= MAC_LEAST,
    }
}
