// The engine that the program has.
ghost use Rattle.std.specs.Prelude.{◌≡◌};

use crate::{Engine, standard};
use bits_core::Alg;
use drbg_core::Drbg;
use gcm_mode::Prepared;

/// The engine that answers as the standards say.
#[derive(Clone, Copy, Debug, PartialEq, Eq)]
pub struct Shipped;

impl Shipped {
    ghost use Rattle.engine_core.specs.declared.shipped.Shipped.{Shipped};

    /// The engine; there is one, and it keeps nothing.
    pub fn new() -> Shipped
        ensures { (other : Shipped) → result ≡ other }
    {
        Shipped
    }
}

impl Engine for Shipped {
    ghost use Rattle.engine_core.specs.Engines.{shipped_calls};
    ghost use Rattle.engine_core.specs.Keeping.{shipped_keeps};

    ghost calls = { shipped_calls };

    ghost keeps = { shipped_keeps };

    fn hash(&mut self, alg: Alg, text: &[u8], out: &mut [u8; 64]) {
        hmac_core::hash(alg, text, out);
    }

    fn mac(&mut self, alg: Alg, key: &[u8], text: &[u8], out: &mut [u8; 64]) {
        hmac_core::hmac(alg, key, text, out);
    }

    fn seal(
        &mut self,
        prepared: &Prepared,
        iv: &[u8],
        aad: &[u8],
        text: &mut [u8],
        tag: &mut [u8; 16],
    ) {
        standard::seal(prepared, iv, aad, text, tag);
    }

    fn open(
        &mut self,
        prepared: &Prepared,
        iv: &[u8],
        aad: &[u8],
        text: &mut [u8],
        tag: &[u8],
    ) -> bool {
        standard::open(prepared, iv, aad, text, tag)
    }

    fn wrap(&mut self, pad: bool, prepared: &Prepared, buf: &mut [u8; 80], length: usize) -> usize {
        standard::wrap(pad, prepared, buf, length)
    }

    fn unwrap(
        &mut self,
        pad: bool,
        prepared: &Prepared,
        buf: &mut [u8; 80],
        length: usize,
    ) -> Option<usize> {
        standard::unwrap(pad, prepared, buf, length)
    }

    fn derive(&mut self, key: &[u8], label: &[u8], context: &[u8], out: &mut [u8]) {
        kbkdf_core::derive(key, label, context, out);
    }

    fn drbg_instantiate(&mut self, entropy: &[u8], nonce: &[u8], personal: &[u8], drbg: &mut Drbg) {
        drbg.instantiate(entropy, nonce, personal);
    }

    fn drbg_reseed(&mut self, entropy: &[u8], additional: &[u8], drbg: &mut Drbg) {
        drbg.reseed(entropy, additional);
    }

    fn drbg_generate(&mut self, additional: &[u8], drbg: &mut Drbg, out: &mut [u8]) {
        drbg.generate(additional, out);
    }
}
