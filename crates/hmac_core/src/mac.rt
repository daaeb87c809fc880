//! HMAC (FIPS 198-1), piece by piece and in one call.
ghost use Rattle.std.specs.Prelude.{◌≡◌, ⊤, ℕ, ◌++◌, ◌≤◌, List, [], take, length, map, bit_xor};
ghost use Rattle.bits_core.specs.Algorithms.{alg_block};
ghost use Rattle.bits_core.specs.declared.algorithm.Alg.{Alg};
ghost use Rattle.bits_core.specs.ByteList.{zero_padded};
ghost use Rattle.hmac_core.specs.Hash.{HoldsMessage};
ghost use Rattle.hmac_core.specs.Hmac.{HoldsText, block_key, hmac};

use crate::hasher::{Hasher, widened};
use bits_core::{Alg, wipe};
use std::alloc::AllocError;

/// The byte that is repeated to ipad (FIPS 198-1, section 2.3, and step 4 of table 1).
const IPAD: u8 = 0x36;

/// The byte that is repeated to opad (section 2.3, and step 7 of table 1).
const OPAD: u8 = 0x5c;

/// An HMAC that takes its text piece by piece.
///
/// It keeps two hashers that have each taken a block of padded key, and no key.
#[derive(Drop)]
pub struct MacStream {
    inner: Hasher,
    outer: Hasher,
}

impl MacStream {
    /// A stream under this key, of any length, that has taken no text.
    pub fn new(alg: Alg, key: &[u8]) -> MacStream
        ensures { HoldsText result alg key.now [] }
    {
        let mut block = padded_key(alg, key);
        let inner = keyed(alg, &block, IPAD);
        let outer = keyed(alg, &block, OPAD);
        wipe(&mut block);
        MacStream { inner, outer }
    }

    /// Takes a piece of the text, of any length.
    pub fn update(&mut self, piece: &[u8])
        ensures { (alg : Alg) (key text : List ℕ) → HoldsText self.old alg key text
            → HoldsText self.new alg key (text ++ piece.now) }
    {
        self.inner.update(piece);
    }

    /// The MAC of the pieces joined, in the first `size` bytes of `out`; the bytes of `out` after it
    /// are zero.
    pub fn finish(self, out: &mut [u8; 64])
        ensures { (alg : Alg) (key text : List ℕ) → HoldsText self alg key text
            → out.new ≡ zero_padded 64 (hmac alg key text) }
    {
        let MacStream { inner, mut outer } = self;
        let alg = inner.alg();
        let digest = inner.finish();
        outer.update(&digest[..alg.size()]);
        *out = outer.finish();
    }

    /// The leftmost 32 bytes of the MAC of the pieces joined (FIPS 198-1, section 5): the whole MAC
    /// under SHA-256.
    pub fn finish_leftmost(self) -> [u8; 32]
        ensures { (alg : Alg) (key text : List ℕ) → HoldsText self alg key text
            → result ≡ take 32 (hmac alg key text) }
    {
        let mut whole = [0u8; 64];
        self.finish(&mut whole);
        let out = leftmost(&whole);
        wipe(&mut whole);
        out
    }
}

impl Clone for MacStream {
    ghost is_clone = { λ x y. y ≡ x };

    ghost is_infallible = { λ _. ⊤ };

    fn clone(&self) -> Result<MacStream, AllocError> {
        Ok(MacStream {
            inner: self.inner.clone()?,
            outer: self.outer.clone()?,
        })
    }
}

/// The MAC of `text` under `key`, of any length, in the first `alg.size()` bytes of `out`; the bytes
/// of `out` after it are zero.
pub fn hmac(alg: Alg, key: &[u8], text: &[u8], out: &mut [u8; 64])
    ensures { out.new ≡ zero_padded 64 (hmac alg key.now text.now) }
{
    let mut stream = MacStream::new(alg, key);
    stream.update(text);
    stream.finish(out);
}

/// The key as one block (FIPS 198-1, section 4, steps 1 to 3), with zeros after it.
fn padded_key(alg: Alg, key: &[u8]) -> [u8; 128]
    ensures { take (alg_block alg) result ≡ block_key alg key.now }
{
    if key.len() > alg.block() {
        let mut hasher = Hasher::new(alg);
        hasher.update(key);
        let mut digest = hasher.finish();
        let block = widened(&digest[..alg.size()]);
        wipe(&mut digest);
        block
    } else {
        widened(key)
    }
}

/// A hasher that has taken the key's block, each byte xor `pad`.
fn keyed(alg: Alg, block: &[u8; 128], pad: u8) -> Hasher
    ensures { HoldsMessage result alg (map (λ b. bit_xor b pad) (take (alg_block alg) block.now)) }
{
    let mut padded = [0u8; 128];
    for i in 0usize..128 {
        padded[i] = block[i] ^ pad;
    }
    let mut hasher = Hasher::new(alg);
    hasher.update(&padded[..alg.block()]);
    wipe(&mut padded);
    hasher
}

/// The first 32 bytes.
fn leftmost(whole: &[u8; 64]) -> [u8; 32]
    ensures { result ≡ take 32 whole.now }
{
    let mut out = [0u8; 32];
    out.copy_from_slice(&whole[..32]);
    out
}
