//! The kinds of vectors.
use bits_core::Alg;
use cmac_core::Mode;

/// What a vector is of.
#[derive(Clone, Copy)]
pub enum Kind {
    /// A digest (FIPS 180-4).
    Hash(Alg),
    /// A MAC by a hash (FIPS 198-1).
    Mac(Alg),
    /// Authenticated encryption (SP 800-38D, 7.1).
    Seal,
    /// Authenticated decryption (SP 800-38D, 7.2).
    Open,
    /// Key wrapping (SP 800-38F, 6.2, and with padding 6.3).
    Wrap { pad: bool },
    Unwrap { pad: bool },
    /// Key derivation with HMAC (SP 800-108 Rev. 1, 4.1).
    Derive,
    /// A generator's first request (SP 800-90A Rev. 1, 10.1.2).
    Drbg,
    /// A MAC by AES (SP 800-38B).
    Cmac,
    /// Key derivation with CMAC (SP 800-108 Rev. 1, 4.1 to 4.3).
    CmacKdf(Mode),
}

/// All kinds.
pub const KINDS: [Kind; 18] = [
    Kind::Hash(Alg::Sha256),
    Kind::Hash(Alg::Sha384),
    Kind::Hash(Alg::Sha512),
    Kind::Mac(Alg::Sha256),
    Kind::Mac(Alg::Sha384),
    Kind::Mac(Alg::Sha512),
    Kind::Seal,
    Kind::Open,
    Kind::Wrap { pad: false },
    Kind::Wrap { pad: true },
    Kind::Unwrap { pad: false },
    Kind::Unwrap { pad: true },
    Kind::Derive,
    Kind::Drbg,
    Kind::Cmac,
    Kind::CmacKdf(Mode::Counter),
    Kind::CmacKdf(Mode::Feedback),
    Kind::CmacKdf(Mode::Pipeline),
];
