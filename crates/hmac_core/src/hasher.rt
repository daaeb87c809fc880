//! The three hashers as one type, and the digest of a whole message.
ghost use Rattle.std.specs.Prelude.{◌≡◌, ⊤, ℕ, ◌++◌, ◌≤◌, List, [], length};
ghost use Rattle.bits_core.specs.declared.algorithm.Alg.{Alg};
ghost use Rattle.bits_core.specs.ByteList.{zero_padded};
ghost use Rattle.hmac_core.specs.Hash.{HoldsMessage, hash};

use bits_core::Alg;
use sha2::{Digest, Sha256, Sha384, Sha512};
use std::alloc::AllocError;

/// A hasher under one of the algorithms.
#[derive(Drop)]
pub(crate) enum Hasher {
    Of256(Sha256),
    Of384(Sha384),
    Of512(Sha512),
}

impl Hasher {
    /// A hasher of the empty message.
    pub(crate) fn new(alg: Alg) -> Hasher
        ensures { HoldsMessage result alg [] }
    {
        match alg {
            Alg::Sha256 => Hasher::Of256(Sha256::new()),
            Alg::Sha384 => Hasher::Of384(Sha384::new()),
            Alg::Sha512 => Hasher::Of512(Sha512::new()),
        }
    }

    /// The hasher's algorithm.
    pub(crate) fn alg(&self) -> Alg
        ensures { (alg : Alg) (message : List ℕ) → HoldsMessage self.now alg message → result ≡ alg }
    {
        match self {
            Hasher::Of256(_) => Alg::Sha256,
            Hasher::Of384(_) => Alg::Sha384,
            Hasher::Of512(_) => Alg::Sha512,
        }
    }

    /// Adds a piece to the message.
    pub(crate) fn update(&mut self, piece: &[u8])
        ensures { (alg : Alg) (message : List ℕ) → HoldsMessage self.old alg message
            → HoldsMessage self.new alg (message ++ piece.now) }
    {
        match self {
            Hasher::Of256(it) => it.update(piece),
            Hasher::Of384(it) => it.update(piece),
            Hasher::Of512(it) => it.update(piece),
        }
    }

    /// The message's digest with zeros after it.
    pub(crate) fn finish(self) -> [u8; 64]
        ensures { (alg : Alg) (message : List ℕ) → HoldsMessage self alg message
            → result ≡ zero_padded 64 (hash alg message) }
    {
        match self {
            Hasher::Of256(it) => widened(&it.finalize()),
            Hasher::Of384(it) => widened(&it.finalize()),
            Hasher::Of512(it) => it.finalize(),
        }
    }
}

impl Clone for Hasher {
    ghost is_clone = { λ x y. y ≡ x };

    ghost is_infallible = { λ _. ⊤ };

    fn clone(&self) -> Result<Hasher, AllocError> {
        match self {
            Hasher::Of256(it) => Ok(Hasher::Of256(it.clone()?)),
            Hasher::Of384(it) => Ok(Hasher::Of384(it.clone()?)),
            Hasher::Of512(it) => Ok(Hasher::Of512(it.clone()?)),
        }
    }
}

/// The digest of `text` (FIPS 180-4), in the first `alg.size()` bytes of `out`; the bytes of `out`
/// after it are zero.
pub fn hash(alg: Alg, text: &[u8], out: &mut [u8; 64])
    ensures { out.new ≡ zero_padded 64 (hash alg text.now) }
{
    let mut hasher = Hasher::new(alg);
    hasher.update(text);
    *out = hasher.finish();
}

/// The bytes with zeros after them, N in all.
pub(crate) fn widened<const N: usize>(bytes: &[u8]) -> [u8; N]
    requires { length bytes.now ≤ N }
    ensures { result ≡ zero_padded N bytes.now }
{
    let mut out = [0u8; N];
    for i in 0..bytes.len() {
        out[i] = bytes[i];
    }
    out
}
