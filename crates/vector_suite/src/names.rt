//! The names of the kinds.
ghost use Rattle.std.specs.Prelude.{◌≡◌};
ghost use Rattle.vector_suite.specs.Kinds.{name_of, kind_of};

use crate::kind::{KINDS, Kind};
use bits_core::Alg;
use cmac_core::Mode;

// The first word of a kind's lines.
fn name_of(kind: Kind) -> &'static [u8]
    ensures { result.now ≡ name_of kind }
{
    match kind {
        Kind::Hash(Alg::Sha256) => b"sha256",
        Kind::Hash(Alg::Sha384) => b"sha384",
        Kind::Hash(Alg::Sha512) => b"sha512",
        Kind::Mac(Alg::Sha256) => b"hmac256",
        Kind::Mac(Alg::Sha384) => b"hmac384",
        Kind::Mac(Alg::Sha512) => b"hmac512",
        Kind::Seal => b"seal",
        Kind::Open => b"open",
        Kind::Wrap { pad: false } => b"wrap",
        Kind::Wrap { pad: true } => b"wrappad",
        Kind::Unwrap { pad: false } => b"unwrap",
        Kind::Unwrap { pad: true } => b"unwrappad",
        Kind::Derive => b"derive",
        Kind::Drbg => b"drbg",
        Kind::Cmac => b"cmac",
        Kind::CmacKdf(Mode::Counter) => b"kbcounter",
        Kind::CmacKdf(Mode::Feedback) => b"kbfeedback",
        Kind::CmacKdf(Mode::Pipeline) => b"kbpipeline",
    }
}

/// The kind with a name, if one has it.
pub fn kind_of(name: &[u8]) -> Option<Kind>
    ensures { result ≡ kind_of name.now }
{
    for place in 0..KINDS.len() {
        if name == name_of(KINDS[place]) {
            return Some(KINDS[place]);
        }
    }
    None
}
