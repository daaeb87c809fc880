// An engine that fails on purpose, to test what the module makes of one.
ghost use Rattle.std.specs.Prelude.{◌≡◌, ◌≤◌};
ghost use Rattle.engine_core.specs.Faults.{turned};

use crate::{Engine, standard};
use bits_core::{Alg, wipe};
use drbg_core::Drbg;
use gcm_mode::Prepared;

/// An engine that answers as `Shipped` does but for one of its calls. That call is right so many times, and wrong from then on:
///
/// - `open` and `unwrap` refuse, and leave zeros;
/// - `seal` turns a bit of the first byte of the tag;
/// - `drbg_instantiate` and `drbg_reseed` turn a bit of the first byte of the generator's key;
/// - every other call turns a bit of the first byte of its output, where that has one.
#[derive(Clone, Copy, Debug, PartialEq, Eq)]
pub struct Faulty {
    /// The number of the call.
    pub call: u8,
    /// How many times it will still be right.
    pub left: u32,
    /// The bit that is turned, 0 the lowest and 7 the highest.
    pub bit: u8,
}

fn turn(out: &mut [u8], bit: u8)
    ensures { out.new ≡ turned bit out.old }
{
    if let Some(first) = out.first_mut() {
        *first ^= 1 << (bit % 8);
    }
}

impl Faulty {
    ghost use Rattle.engine_core.specs.Engines.{fails, counted};

    /// An engine whose call of this number, 0 to 9, is right `after` times. Then bit `bit` is turned, where 0 is the lowest and 7 the
    /// highest.
    pub fn new(call: u8, after: u32, bit: u8) -> Faulty
        requires call { call ≤ 9 }
        requires bit { bit ≤ 7 }
        ensures { result ≡ record { call = call; left = after; bit = bit } }
    {
        Faulty {
            call,
            left: after,
            bit,
        }
    }

    // Counts a call of this number, and says whether it is wrong.
    fn count(&mut self, call: u8) -> bool
        ensures wrong { result ≡ fails call self.old }
        ensures counted { self.new ≡ counted call self.old }
    {
        if self.call != call {
            return false;
        }
        if self.left == 0 {
            return true;
        }
        self.left -= 1;
        false
    }
}

impl Engine for Faulty {
    ghost use Rattle.engine_core.specs.Engines.{faulty_calls};
    ghost use Rattle.engine_core.specs.Keeping.{faulty_keeps};

    ghost calls = { faulty_calls };

    ghost keeps = { faulty_keeps };

    fn hash(&mut self, alg: Alg, text: &[u8], out: &mut [u8; 64]) {
        hmac_core::hash(alg, text, out);
        if self.count(0) {
            turn(out, self.bit);
        }
    }

    fn mac(&mut self, alg: Alg, key: &[u8], text: &[u8], out: &mut [u8; 64]) {
        hmac_core::hmac(alg, key, text, out);
        if self.count(1) {
            turn(out, self.bit);
        }
    }

    fn seal(
        &mut self,
        prepared: &Prepared,
        iv: &[u8],
        aad: &[u8],
        text: &mut [u8],
        tag: &mut [u8; 16],
    ) {
        standard::seal(prepared, iv, aad, text, tag);
        if self.count(2) {
            turn(tag, self.bit);
        }
    }

    fn open(
        &mut self,
        prepared: &Prepared,
        iv: &[u8],
        aad: &[u8],
        text: &mut [u8],
        tag: &[u8],
    ) -> bool {
        if self.count(3) {
            wipe(text);
            return false;
        }
        standard::open(prepared, iv, aad, text, tag)
    }

    fn wrap(&mut self, pad: bool, prepared: &Prepared, buf: &mut [u8; 80], length: usize) -> usize {
        let size = standard::wrap(pad, prepared, buf, length);
        if self.count(4) {
            turn(buf, self.bit);
        }
        size
    }

    fn unwrap(
        &mut self,
        pad: bool,
        prepared: &Prepared,
        buf: &mut [u8; 80],
        length: usize,
    ) -> Option<usize> {
        if self.count(5) {
            wipe(buf);
            return None;
        }
        standard::unwrap(pad, prepared, buf, length)
    }

    fn derive(&mut self, key: &[u8], label: &[u8], context: &[u8], out: &mut [u8]) {
        kbkdf_core::derive(key, label, context, out);
        if self.count(6) {
            turn(out, self.bit);
        }
    }

    fn drbg_instantiate(&mut self, entropy: &[u8], nonce: &[u8], personal: &[u8], drbg: &mut Drbg) {
        drbg.instantiate(entropy, nonce, personal);
        if self.count(7) {
            turn(&mut drbg.k, self.bit);
        }
    }

    fn drbg_reseed(&mut self, entropy: &[u8], additional: &[u8], drbg: &mut Drbg) {
        drbg.reseed(entropy, additional);
        if self.count(8) {
            turn(&mut drbg.k, self.bit);
        }
    }

    fn drbg_generate(&mut self, additional: &[u8], drbg: &mut Drbg, out: &mut [u8]) {
        drbg.generate(additional, out);
        if self.count(9) {
            turn(out, self.bit);
        }
    }
}
