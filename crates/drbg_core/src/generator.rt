//! The generator and its requests.
ghost use Rattle.std.specs.Prelude.{◌≡◌, ℕ, ◌+◌, ◌/◌, ◌≤◌, ◌∷◌, ◌++◌, List, [], length, take, IsTrue, ◌↔◌, ◌<◌};
ghost use Rattle.hmac_core.specs.Blocks.{joined};
ghost use Rattle.hmac_core.specs.Hmac.{HoldsText, hmac};
ghost use Rattle.bits_core.specs.declared.algorithm.Alg.TheVariants.{Sha256};
ghost use Rattle.drbg_core.specs.Generator.{empty, generate, instantiate, mix, primed, reseed, update, value_after};

use bits_core::{Alg, wipe};
use hmac_core::MacStream;

/// A generator: its key K, its value V and its reseed counter, the number of the next request since
/// the last seed.
#[derive(Drop)]
pub struct Drbg {
    pub k: [u8; 32],
    pub v: [u8; 32],
    pub counter: u32,
}

impl Drbg {
    /// A generator without a seed: all bytes and the counter are zero.
    pub fn empty() -> Drbg
        ensures { result ≡ empty }
    {
        Drbg {
            k: [0; 32],
            v: [0; 32],
            counter: 0,
        }
    }

    /// Makes all bytes and the counter zero.
    pub fn wipe(&mut self)
        ensures { self.new ≡ empty }
    {
        wipe(&mut self.k);
        wipe(&mut self.v);
        self.counter = 0;
    }

    /// Seeds the generator anew, whatever it held (SP 800-90A Rev. 1, 10.1.2.3). The inputs have any
    /// length. The counter is 1.
    pub fn instantiate(&mut self, entropy: &[u8], nonce: &[u8], personal: &[u8])
        ensures state { self.new ≡ instantiate entropy.now nonce.now personal.now }
        ensures counter { self.new.counter ≡ 1 }
    {
        self.k = [0; 32];
        self.v = [1; 32];
        self.counter = 1;
        self.update(entropy, nonce, personal);
    }

    /// Mixes fresh entropy in (SP 800-90A Rev. 1, 10.1.2.4). The inputs have any length. The counter
    /// is 1.
    pub fn reseed(&mut self, entropy: &[u8], additional: &[u8])
        ensures state { self.new ≡ reseed self.old entropy.now additional.now }
        ensures counter { self.new.counter ≡ 1 }
    {
        self.counter = 1;
        self.update(entropy, additional, &[]);
    }

    /// Fills `out`, of at most 65,536 bytes, with one request's output (SP 800-90A Rev. 1, 10.1.2.5).
    /// The generator was seeded: it isn't empty or wiped. The additional input has any length. The counter
    /// grows by one.
    pub fn generate(&mut self, additional: &[u8], out: &mut [u8])
        requires length { length out.old ≤ 65536 }
        requires seeded { 1 ≤ self.old.counter }
        requires counter { self.old.counter ≤ 1024 }
        ensures bytes { out.new ≡ (generate self.old additional.now (length out.old)).bytes }
        ensures after { self.new ≡ (generate self.old additional.now (length out.old)).after }
        ensures counter { self.new.counter ≡ self.old.counter + 1 }
    {
        self.prime(additional);
        fill(&self.k, &mut self.v, out);
        self.update(additional, &[], &[]);
        self.counter += 1;
    }

    // Update with additional input, where there is any.
    fn prime(&mut self, input: &[u8])
        ensures { self.new ≡ primed self.old input.now }
    {
        if !input.is_empty() {
            self.update(input, &[], &[]);
        }
    }

    // Update with three pieces joined (10.1.2.2).
    fn update(&mut self, first: &[u8], second: &[u8], third: &[u8])
        ensures { self.new ≡ update self.old (first.now ++ second.now ++ third.now) }
    {
        self.mix(0, first, second, third);
        if have_bytes(first, second, third) {
            self.mix(1, first, second, third);
        }
    }

    // One half of Update.
    fn mix(&mut self, byte: u8, first: &[u8], second: &[u8], third: &[u8])
        ensures { self.new ≡ mix self.old byte (first.now ++ second.now ++ third.now) }
    {
        let mut stream = MacStream::new(Alg::Sha256, &self.k);
        stream.update(&self.v);
        stream.update(&[byte]);
        stream.update(first);
        stream.update(second);
        stream.update(third);
        self.k = stream.finish_leftmost();
        self.v = next(&MacStream::new(Alg::Sha256, &self.k), &self.v);
    }
}

// Whether the pieces joined have any byte.
fn have_bytes(first: &[u8], second: &[u8], third: &[u8]) -> bool
    ensures { IsTrue result ↔ (0 < length (first.now ++ second.now ++ third.now)) }
{
    !first.is_empty() || !second.is_empty() || !third.is_empty()
}

// Fills `out` from the successors of `v` under the key `k`, and leaves `v` the last of them.
fn fill(k: &[u8; 32], v: &mut [u8; 32], out: &mut [u8])
    ensures bytes { out.new ≡ take (length out.old) (joined (value_after k.now v.old) ((length out.old + 31) / 32)) }
    ensures last { v.new ≡ value_after k.now v.old ((length out.old + 31) / 32) }
{
    let keyed = MacStream::new(Alg::Sha256, k);
    for i in 0..out.len() {
        if i % 32 == 0 {
            *v = next(&keyed, v);
        }
        out[i] = v[i % 32];
    }
}

// HMAC of `v` under the key of a stream that has taken no text.
fn next(keyed: &MacStream, v: &[u8; 32]) -> [u8; 32]
    ensures { (key : List ℕ) → HoldsText keyed.now Sha256 key [] → result ≡ hmac Sha256 key v.now }
{
    let mut stream = keyed.clone().unwrap();
    stream.update(v);
    stream.finish_leftmost()
}
