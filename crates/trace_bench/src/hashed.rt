//! GHASH, and the works over a hash function.

use crate::work::Kernel;
use bits_core::{Alg, wipe};
use drbg_core::Drbg;
use ghash_core::Table;
use hmac_core::hmac;
use kbkdf_core::derive;

/// The sum of all blocks of sixteen bytes, so that no byte of a work's output can be left out.
pub fn folded(bytes: &[u8]) -> [u8; 16] {
    let mut sum = [0u8; 16];
    for place in 0..bytes.len() {
        sum[place % 16] ^= bytes[place];
    }
    sum
}

/// The running value after the text, for the subkey of the key's first half and from its second half on.
pub fn absorbed(kernel: Kernel, key: &[u8; 32], text: &[u8]) -> [u8; 16] {
    let mut subkey = [0u8; 16];
    let mut acc = [0u8; 16];
    for i in 0usize..16 {
        subkey[i] = key[i];
        acc[i] = key[16 + i];
    }
    let mut table = Table::empty();
    table.fill(&subkey);
    match kernel {
        Kernel::Shuffles => table.absorb(&mut acc, text),
        Kernel::Lanes => table.absorb_lanes(&mut acc, text),
        Kernel::Table => table.absorb_table(&mut acc, text),
        Kernel::Plain => table.absorb_plain(&mut acc, text),
    }
    table.wipe();
    acc
}

/// The HMAC of the text by each hash function, each under the one before, the first under the key.
pub fn maced(key: &[u8; 32], text: &[u8]) -> [u8; 16] {
    let mut first = [0u8; 64];
    hmac(Alg::Sha256, key, text, &mut first);
    let mut second = [0u8; 64];
    hmac(Alg::Sha384, &first, text, &mut second);
    let mut third = [0u8; 64];
    hmac(Alg::Sha512, &second, text, &mut third);
    wipe(&mut first);
    wipe(&mut second);
    folded(&third)
}

/// 64 bytes derived from the key, with the text for context.
pub fn derived(key: &[u8; 32], text: &[u8]) -> [u8; 16] {
    let mut out = [0u8; 64];
    derive(key, b"label", text, &mut out);
    folded(&out)
}

/// Two requests to a generator whose entropy is the key, reseeded between them; the text is each time beside it.
pub fn generated(key: &[u8; 32], text: &[u8]) -> [u8; 16] {
    let mut drbg = Drbg::empty();
    drbg.instantiate(key, &[2; 16], text);
    let mut out = [0u8; 64];
    drbg.generate(text, &mut out);
    drbg.reseed(key, &out);
    drbg.generate(text, &mut out);
    drbg.wipe();
    folded(&out)
}
