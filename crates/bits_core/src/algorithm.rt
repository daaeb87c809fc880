//! The hash functions of FIPS 180-4 that the module offers.
ghost use Rattle.std.specs.Prelude.{◌≡◌, IfSome, IfNone};
ghost use Rattle.bits_core.specs.Algorithms.{alg_number, alg_of, alg_size, alg_block, IsNoAlg};

/// A hash function.
#[derive(Clone, Copy, Debug, PartialEq, Eq)]
pub enum Alg {
    Sha256,
    Sha384,
    Sha512,
}

impl Alg {
    /// The number by which commands name it: 1, 2 or 3.
    pub fn number(self) -> u8
        ensures { result ≡ alg_number self }
    {
        match self {
            Alg::Sha256 => 1,
            Alg::Sha384 => 2,
            Alg::Sha512 => 3,
        }
    }

    /// The algorithm with this number; None where no algorithm has it.
    pub fn from_number(number: u8) -> Option<Alg>
        ensures value { result ≡ alg_of number }
        ensures numbered { IfSome result (λ alg. alg_number alg ≡ number) }
        ensures none { IfNone result (IsNoAlg number) }
    {
        match number {
            1 => Some(Alg::Sha256),
            2 => Some(Alg::Sha384),
            3 => Some(Alg::Sha512),
            _ => None,
        }
    }

    /// The length of a digest in bytes (FIPS 180-4, figure 1).
    pub fn size(self) -> usize
        ensures { result ≡ alg_size self }
    {
        match self {
            Alg::Sha256 => 32,
            Alg::Sha384 => 48,
            Alg::Sha512 => 64,
        }
    }

    /// The length of a message block in bytes (FIPS 180-4, figure 1).
    pub fn block(self) -> usize
        ensures { result ≡ alg_block self }
    {
        match self {
            Alg::Sha256 => 64,
            Alg::Sha384 => 128,
            Alg::Sha512 => 128,
        }
    }
}
