//! The blocks that GCM makes of its inputs.
ghost use Rattle.std.specs.Prelude.{◌≡◌, ℕ, List, [], ◌∷◌, ◌++◌, ◌^◌, ◌<◌, length};
ghost use Rattle.aes_core.specs.Gctr.{inc32};
ghost use Rattle.gcm_mode.specs.Gcm.{bit_lengths, full_tag, hashed_iv, initial_counter};
ghost use Rattle.gcm_mode.specs.Filled.{IsFilled, IsReady};

use crate::Prepared;
use aes_core::gctr;

/// The two lengths in bits, each a number of 64 bits.
pub fn lengths(first: usize, second: usize) -> [u8; 16]
    requires first_fits { first < 2 ^ 61 }
    requires second_fits { second < 2 ^ 61 }
    ensures { result ≡ bit_lengths first second }
{
    let [a0, a1, a2, a3, a4, a5, a6, a7] = (8 * first as u64).to_be_bytes();
    let [b0, b1, b2, b3, b4, b5, b6, b7] = (8 * second as u64).to_be_bytes();
    [
        a0, a1, a2, a3, a4, a5, a6, a7, b0, b1, b2, b3, b4, b5, b6, b7,
    ]
}

/// One more in the last 32 bits, modulo 2^32 (SP 800-38D, section 6.2).
pub fn next_counter(block: [u8; 16]) -> [u8; 16]
    ensures { result ≡ inc32 block }
{
    let count = u32::from_be_bytes([block[12], block[13], block[14], block[15]]).wrapping_add(1);
    let [c0, c1, c2, c3] = count.to_be_bytes();
    [
        block[0], block[1], block[2], block[3], block[4], block[5], block[6], block[7], block[8],
        block[9], block[10], block[11], c0, c1, c2, c3,
    ]
}

/// J0 of an IV of any other length than 12: its GHASH with its length (SP 800-38D, section 7.1, step 2).
fn hashed_counter(prepared: &Prepared, iv: &[u8]) -> [u8; 16]
    requires { length iv.now < 256 }
    ensures { (key : List ℕ) → IsFilled prepared.now key → result ≡ hashed_iv key iv.now }
{
    let mut counter = [0u8; 16];
    prepared.table.absorb(&mut counter, iv);
    prepared.table.absorb(&mut counter, &lengths(0, iv.len()));
    counter
}

/// J0 of an IV of 12 bytes: the IV, 31 zeros and a one (SP 800-38D, section 7.1, step 2).
fn short_counter(iv: &[u8]) -> [u8; 16]
    requires { length iv.now ≡ 12 }
    ensures { result ≡ iv.now ++ 0 ∷ 0 ∷ 0 ∷ 1 ∷ [] }
{
    [
        iv[0], iv[1], iv[2], iv[3], iv[4], iv[5], iv[6], iv[7], iv[8], iv[9], iv[10], iv[11], 0, 0,
        0, 1,
    ]
}

/// J0 (SP 800-38D, section 7.1, step 2).
pub fn first_counter(prepared: &Prepared, iv: &[u8]) -> [u8; 16]
    requires { length iv.now < 256 }
    ensures { (key : List ℕ) → IsFilled prepared.now key → result ≡ initial_counter key iv.now }
{
    if iv.len() == 12 {
        short_counter(iv)
    } else {
        hashed_counter(prepared, iv)
    }
}

/// The full tag of a ciphertext, under J0 (SP 800-38D, section 7.1, steps 4 to 6).
pub fn tag_of(prepared: &Prepared, counter: &[u8; 16], aad: &[u8], text: &[u8]) -> [u8; 16]
    requires ready { IsReady prepared.now }
    requires aad_fits { length aad.now < 2 ^ 61 }
    requires text_fits { length text.now < 2 ^ 61 }
    ensures { (key : List ℕ) → IsFilled prepared.now key → result ≡ full_tag key counter.now aad.now text.now }
{
    let mut hash = [0u8; 16];
    prepared.table.absorb(&mut hash, aad);
    prepared.table.absorb(&mut hash, text);
    prepared
        .table
        .absorb(&mut hash, &lengths(aad.len(), text.len()));
    gctr(&prepared.schedule, counter, &mut hash);
    hash
}
