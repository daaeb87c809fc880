// The known-answer tests that services need.
ghost use Rattle.std.specs.Prelude.{◌≡◌};
ghost use Rattle.service_table.specs.KnownAnswers.{digest_test, mac_test, test_of};

use crate::Service;
use bits_core::Alg;

/// The test of sealing (SP 800-38D).
const SEAL_TEST: u8 = 7;
/// The test of opening what was sealed.
const OPEN_TEST: u8 = 8;
/// The test of wrapping (SP 800-38F, 6.2).
const WRAP_TEST: u8 = 9;
/// The test of unwrapping.
const UNWRAP_TEST: u8 = 10;
/// The test of wrapping with padding (SP 800-38F, 6.3).
const WRAP_PAD_TEST: u8 = 11;
/// The test of unwrapping with padding.
const UNWRAP_PAD_TEST: u8 = 12;
/// The test of key derivation (SP 800-108r1).
const DERIVE_TEST: u8 = 13;
/// The test of the generator of random bits (SP 800-90A).
const DRBG_TEST: u8 = 14;

// The test of a hash function's digests.
fn digest_test(alg: Alg) -> u8
    ensures { result ≡ digest_test alg }
{
    match alg {
        Alg::Sha256 => 1,
        Alg::Sha384 => 2,
        Alg::Sha512 => 3,
    }
}

// The test of a hash function's MACs.
fn mac_test(alg: Alg) -> u8
    ensures { result ≡ mac_test alg }
{
    match alg {
        Alg::Sha256 => 4,
        Alg::Sha384 => 5,
        Alg::Sha512 => 6,
    }
}

/// The number of the known-answer test that a service needs, with the hash function that its command names. `None` exactly for a
/// service that isn't cryptographic, and for one that names a hash function where none is given; any other doesn't look at it.
pub fn test_of(service: Service, alg: Option<Alg>) -> Option<u8>
    ensures { result ≡ test_of service alg }
{
    match service {
        Service::PowerOn
        | Service::TestStep
        | Service::RequestTests
        | Service::ShowStatus
        | Service::ShowVersion
        | Service::SelectRole
        | Service::Reset
        | Service::EntryBegin
        | Service::EntryBytes
        | Service::EntryCommit
        | Service::EntryAbort
        | Service::Zeroise
        | Service::ZeroiseAll
        | Service::ShowSlot
        | Service::ZeroiseTree => None,
        Service::Hash => match alg {
            Some(alg) => Some(digest_test(alg)),
            None => None,
        },
        Service::Mac | Service::MacVerify => match alg {
            Some(alg) => Some(mac_test(alg)),
            None => None,
        },
        Service::Seal | Service::SealIv => Some(SEAL_TEST),
        Service::Open => Some(OPEN_TEST),
        Service::Wrap => Some(WRAP_TEST),
        Service::Unwrap => Some(UNWRAP_TEST),
        Service::WrapPad => Some(WRAP_PAD_TEST),
        Service::UnwrapPad => Some(UNWRAP_PAD_TEST),
        Service::Derive => Some(DERIVE_TEST),
        Service::Random | Service::Generate | Service::Reseed => Some(DRBG_TEST),
    }
}
