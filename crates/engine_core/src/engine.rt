// What an engine owes its callers.
ghost use Rattle.std.specs.Prelude.{◌≡◌, ◌≤◌, ◌-◌, ℕ, List, length, take, drop};
ghost use Rattle.bits_core.specs.ByteList.{zeros};
ghost use Rattle.drbg_core.specs.Generator.{empty};
ghost use Rattle.gcm_mode.specs.Filled.{IsFilled};
ghost use Rattle.gcm_mode.specs.Gcm.{IsIv, IsSealable, IsTagLength};
ghost use Rattle.engine_core.specs.Calls.{Calls, Keeps};
ghost use Rattle.engine_core.specs.Inputs.{IsUnwrappable, IsWrappable};

use bits_core::Alg;
use drbg_core::Drbg;
use gcm_mode::Prepared;

/// The cryptographic functions of the module. Of an engine nothing is known but that each answer, and the engine after it, is a
/// function of the engine's value and the arguments, where a prepared key counts as the key that filled it, and the lengths, bytes
/// and counters of `Keeps`.
pub trait Engine: Drop {
    ghost calls: { Calls Self };

    /// Call 0: the digest of a text (FIPS 180-4), in the first `size` bytes of `out`. `out` is zero before.
    fn hash(&mut self, alg: Alg, text: &[u8], out: &mut [u8; 64])
        requires { out.old ≡ zeros 64 }
        ensures out { out.new ≡ calls.hash self.old alg text.now }
        ensures engine { self.new ≡ calls.hash_after self.old alg text.now };

    /// Call 1: the MAC of a text under a key (FIPS 198-1), in the first `size` bytes of `out`. `out` is zero before.
    fn mac(&mut self, alg: Alg, key: &[u8], text: &[u8], out: &mut [u8; 64])
        requires { out.old ≡ zeros 64 }
        ensures out { out.new ≡ calls.mac self.old alg key.now text.now }
        ensures engine { self.new ≡ calls.mac_after self.old alg key.now text.now };

    /// Call 2: encrypts `text` in place and writes its tag (SP 800-38D, 7.1). `prepared` was filled; the IV has 1 to 255 bytes, `aad`
    /// and `text` at most 65,664 each. `tag` is zero before.
    fn seal(
        &mut self,
        prepared: &Prepared,
        iv: &[u8],
        aad: &[u8],
        text: &mut [u8],
        tag: &mut [u8; 16],
    )
        requires filled { (key : List ℕ) × IsFilled prepared.now key }
        requires iv { IsIv iv.now }
        requires aad { IsSealable aad.now }
        requires text { IsSealable text.old }
        requires tag { tag.old ≡ zeros 16 }
        ensures ciphertext { (key : List ℕ) → IsFilled prepared.now key
            → text.new ≡ (calls.seal self.old key iv.now aad.now text.old).ciphertext }
        ensures tag { (key : List ℕ) → IsFilled prepared.now key → tag.new ≡ (calls.seal self.old key iv.now aad.now text.old).tag }
        ensures engine { (key : List ℕ) → IsFilled prepared.now key → self.new ≡ calls.seal_after self.old key iv.now aad.now text.old };

    /// Call 3: whether `tag`, of 12 to 16 bytes, is the leftmost part of the tag of the ciphertext `text`, which is decrypted in place
    /// (SP 800-38D, 7.2). The other lengths are those of `seal`.
    fn open(
        &mut self,
        prepared: &Prepared,
        iv: &[u8],
        aad: &[u8],
        text: &mut [u8],
        tag: &[u8],
    ) -> bool
        requires filled { (key : List ℕ) × IsFilled prepared.now key }
        requires iv { IsIv iv.now }
        requires aad { IsSealable aad.now }
        requires text { IsSealable text.old }
        requires tag { IsTagLength (length tag.now) }
        ensures answer { (key : List ℕ) → IsFilled prepared.now key
            → result ≡ (calls.open self.old key iv.now aad.now text.old tag.now).authentic }
        ensures text { (key : List ℕ) → IsFilled prepared.now key
            → text.new ≡ (calls.open self.old key iv.now aad.now text.old tag.now).text }
        ensures engine { (key : List ℕ) → IsFilled prepared.now key
            → self.new ≡ calls.open_after self.old key iv.now aad.now text.old tag.now };

    /// Call 4: wraps the first `length` bytes of `buf`, and answers the length of the wrapping, which stands at the front (SP 800-38F,
    /// 6.2, and with padding 6.3). `length` is a multiple of 8 from 16 to 64, with padding 1 to 64. `buf` is zero past its input.
    fn wrap(&mut self, pad: bool, prepared: &Prepared, buf: &mut [u8; 80], length: usize) -> usize
        requires filled { (key : List ℕ) × IsFilled prepared.now key }
        requires length { IsWrappable pad length }
        requires zero { drop length buf.old ≡ zeros (80 - length) }
        ensures size { (key : List ℕ) → IsFilled prepared.now key → result ≡ (calls.wrap self.old pad key (take length buf.old)).size }
        ensures buf { (key : List ℕ) → IsFilled prepared.now key → buf.new ≡ (calls.wrap self.old pad key (take length buf.old)).buf }
        ensures engine { (key : List ℕ) → IsFilled prepared.now key → self.new ≡ calls.wrap_after self.old pad key (take length buf.old) };

    /// Call 5: unwraps the first `length` bytes of `buf`, and answers the length of the plaintext, if there is one (SP 800-38F, 6.2,
    /// and with padding 6.3). `length` is a multiple of 8 up to 72, from 24, with padding from 16. `buf` is zero past its input.
    fn unwrap(
        &mut self,
        pad: bool,
        prepared: &Prepared,
        buf: &mut [u8; 80],
        length: usize,
    ) -> Option<usize>
        requires filled { (key : List ℕ) × IsFilled prepared.now key }
        requires length { IsUnwrappable pad length }
        requires zero { drop length buf.old ≡ zeros (80 - length) }
        ensures size { (key : List ℕ) → IsFilled prepared.now key → result ≡ (calls.unwrap self.old pad key (take length buf.old)).size }
        ensures buf { (key : List ℕ) → IsFilled prepared.now key → buf.new ≡ (calls.unwrap self.old pad key (take length buf.old)).buf }
        ensures engine { (key : List ℕ) → IsFilled prepared.now key → self.new ≡ calls.unwrap_after self.old pad key (take length buf.old) };

    /// Call 6: fills `out`, of 1 to 65,536 zero bytes, with key material (SP 800-108 Rev. 1, 4.1).
    fn derive(&mut self, key: &[u8], label: &[u8], context: &[u8], out: &mut [u8])
        requires some { 1 ≤ length out.old }
        requires most { length out.old ≤ 65536 }
        requires zero { out.old ≡ zeros (length out.old) }
        ensures out { out.new ≡ calls.derive self.old key.now label.now context.now (length out.old) }
        ensures engine { self.new ≡ calls.derive_after self.old key.now label.now context.now (length out.old) };

    /// Call 7: seeds a generator that is all zero (SP 800-90A Rev. 1, 10.1.2.3).
    fn drbg_instantiate(&mut self, entropy: &[u8], nonce: &[u8], personal: &[u8], drbg: &mut Drbg)
        requires { drbg.old ≡ empty }
        ensures drbg { drbg.new ≡ calls.instantiate self.old entropy.now nonce.now personal.now }
        ensures engine { self.new ≡ calls.instantiate_after self.old entropy.now nonce.now personal.now };

    /// Call 8: mixes fresh entropy into a generator (SP 800-90A Rev. 1, 10.1.2.4).
    fn drbg_reseed(&mut self, entropy: &[u8], additional: &[u8], drbg: &mut Drbg)
        ensures drbg { drbg.new ≡ calls.reseed self.old drbg.old entropy.now additional.now }
        ensures engine { self.new ≡ calls.reseed_after self.old drbg.old entropy.now additional.now };

    /// Call 9: fills `out`, of at most 65,536 zero bytes, with one request's output (SP 800-90A Rev. 1, 10.1.2.5). The generator was
    /// seeded, and its counter is at most 1,024.
    fn drbg_generate(&mut self, additional: &[u8], drbg: &mut Drbg, out: &mut [u8])
        requires length { length out.old ≤ 65536 }
        requires zero { out.old ≡ zeros (length out.old) }
        requires seeded { 1 ≤ drbg.old.counter }
        requires counter { drbg.old.counter ≤ 1024 }
        ensures bytes { out.new ≡ (calls.generate self.old drbg.old additional.now (length out.old)).bytes }
        ensures drbg { drbg.new ≡ (calls.generate self.old drbg.old additional.now (length out.old)).after }
        ensures engine { self.new ≡ calls.generate_after self.old drbg.old additional.now (length out.old) };

    // Laws of the answers, which each engine proves.
    ghost keeps: { Keeps calls };
}
