//! The product of two blocks, one bit at a time.
ghost use Rattle.std.specs.Prelude.{◌≡◌, ℕ, ◌/◌, ◌%◌, ◌^◌, ◌<◌, bit_xor};
ghost use Rattle.ghash_core.specs.Number.{number_product, shift_by_x, when};

/// R, the bits 11100001 and 120 zeros (SP 800-38D, section 6.3).
const REDUCTION: u128 = 0xe100_0000_0000_0000_0000_0000_0000_0000;

/// The product by x: one place down, and R where a one fell out.
#[inline(always)]
pub fn by_x(v: u128) -> u128
    ensures { result ≡ shift_by_x v }
{
    // The bit goes into a product and into no test, since v may be a key's.
    (v >> 1) ^ ((v & 1) * REDUCTION)
}

/// z and, where bit k of x is set, v.
#[inline(always)]
fn add_where(z: u128, v: u128, x: u128, k: u32) -> u128
    requires { k < 128 }
    ensures { result ≡ bit_xor z (when (x / 2 ^ k % 2) v) }
{
    if (x >> k) & 1 == 1 { z ^ v } else { z }
}

/// The product, by the steps of SP 800-38D, section 6.3.
pub fn multiply(x: u128, h: u128) -> u128
    ensures { result ≡ number_product x h }
{
    let mut z = 0u128;
    let mut v = h;
    for i in 0u32..128 {
        z = add_where(z, v, x, 127 - i);
        v = by_x(v);
    }
    z
}
