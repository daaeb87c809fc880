// Tables of requests: the service, the hash function, the MAC's length, and whether a slot is named.
ghost use Rattle.std.specs.Prelude.{◌≡◌};
ghost use Rattle.module_frames.specs.Requests.{CryptographicRequest, Cryptographic, request_value, service_for};
ghost use Rattle.module_frames.specs.LawfulSteps.{alg_named, mac_length_of, names_no_slot};

use bits_core::Alg;
use module_frames::Request;
use service_table::Service;

/// The service that a request is for.
pub fn service_for(request: &Request<'_>) -> Service
    ensures { result ≡ service_for (request_value request.now) }
{
    match *request {
        Request::PowerOn { .. } => Service::PowerOn,
        Request::TestStep => Service::TestStep,
        Request::RequestTests => Service::RequestTests,
        Request::ShowStatus => Service::ShowStatus,
        Request::ShowVersion => Service::ShowVersion,
        Request::SelectRole { .. } => Service::SelectRole,
        Request::Reset => Service::Reset,
        Request::EntryBegin { .. } => Service::EntryBegin,
        Request::EntryBytes { .. } => Service::EntryBytes,
        Request::EntryCommit { .. } => Service::EntryCommit,
        Request::EntryAbort => Service::EntryAbort,
        Request::Zeroise { .. } => Service::Zeroise,
        Request::ZeroiseAll => Service::ZeroiseAll,
        Request::ShowSlot { .. } => Service::ShowSlot,
        Request::ZeroiseTree { .. } => Service::ZeroiseTree,
        Request::Hash { .. } => Service::Hash,
        Request::Mac { .. } => Service::Mac,
        Request::MacVerify { .. } => Service::MacVerify,
        Request::Seal { .. } => Service::Seal,
        Request::SealIv { .. } => Service::SealIv,
        Request::Open { .. } => Service::Open,
        Request::Wrap { .. } => Service::Wrap,
        Request::Unwrap { .. } => Service::Unwrap,
        Request::WrapPad { .. } => Service::WrapPad,
        Request::UnwrapPad { .. } => Service::UnwrapPad,
        Request::Derive { .. } => Service::Derive,
        Request::Random { .. } => Service::Random,
        Request::Generate { .. } => Service::Generate,
        Request::Reseed { .. } => Service::Reseed,
    }
}

/// The hash function that a request names.
pub fn alg_named(request: &Request<'_>) -> Option<Alg>
    ensures { (what : CryptographicRequest) → request_value request.now ≡ Cryptographic what → result ≡ alg_named what }
{
    match *request {
        Request::Hash { alg, .. } => Some(alg),
        Request::Mac { alg, .. } => Some(alg),
        Request::MacVerify { alg, .. } => Some(alg),
        Request::PowerOn { .. }
        | Request::TestStep
        | Request::RequestTests
        | Request::ShowStatus
        | Request::ShowVersion
        | Request::SelectRole { .. }
        | Request::Reset
        | Request::EntryBegin { .. }
        | Request::EntryBytes { .. }
        | Request::EntryCommit { .. }
        | Request::EntryAbort
        | Request::Zeroise { .. }
        | Request::ZeroiseAll
        | Request::ShowSlot { .. }
        | Request::ZeroiseTree { .. }
        | Request::Seal { .. }
        | Request::SealIv { .. }
        | Request::Open { .. }
        | Request::Wrap { .. }
        | Request::Unwrap { .. }
        | Request::WrapPad { .. }
        | Request::UnwrapPad { .. }
        | Request::Derive { .. }
        | Request::Random { .. }
        | Request::Generate { .. }
        | Request::Reseed { .. } => None,
    }
}

/// The length of the MAC that a request asks for or gives, in bytes; 0 where there is none.
pub fn mac_length_of(request: &Request<'_>) -> usize
    ensures { (what : CryptographicRequest) → request_value request.now ≡ Cryptographic what → result ≡ mac_length_of what }
{
    match *request {
        Request::Mac { length, .. } => length,
        Request::MacVerify { tag, .. } => tag.len(),
        Request::PowerOn { .. }
        | Request::TestStep
        | Request::RequestTests
        | Request::ShowStatus
        | Request::ShowVersion
        | Request::SelectRole { .. }
        | Request::Reset
        | Request::EntryBegin { .. }
        | Request::EntryBytes { .. }
        | Request::EntryCommit { .. }
        | Request::EntryAbort
        | Request::Zeroise { .. }
        | Request::ZeroiseAll
        | Request::ShowSlot { .. }
        | Request::ZeroiseTree { .. }
        | Request::Hash { .. }
        | Request::Seal { .. }
        | Request::SealIv { .. }
        | Request::Open { .. }
        | Request::Wrap { .. }
        | Request::Unwrap { .. }
        | Request::WrapPad { .. }
        | Request::UnwrapPad { .. }
        | Request::Derive { .. }
        | Request::Random { .. }
        | Request::Generate { .. }
        | Request::Reseed { .. } => 0,
    }
}

/// Whether a request of a cryptographic service names no slot.
pub fn names_no_slot(request: &Request<'_>) -> bool
    ensures { (what : CryptographicRequest) → request_value request.now ≡ Cryptographic what → result ≡ names_no_slot what }
{
    matches!(
        request,
        Request::Hash { .. } | Request::Random { .. } | Request::Reseed { .. }
    )
}
