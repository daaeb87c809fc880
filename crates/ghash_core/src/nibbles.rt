//! The product by a fixed block, four bits at a time from sixteen multiples of it.
ghost use Rattle.std.specs.Prelude.{◌≡◌, ℕ};
ghost use Rattle.ghash_core.specs.Number.{number_product, shift_by, AreMultiples};

use crate::bitwise::by_x;

/// The product by x^4. The four bits that fall out come back at the top, once for each one of R, so no table
/// of reductions is needed.
#[inline(always)]
fn by_x4(z: u128) -> u128
    ensures { result ≡ shift_by 4 z }
{
    let low = (z & 15) << 124;
    (z >> 4) ^ low ^ (low >> 1) ^ (low >> 2) ^ (low >> 7)
}

/// The products of the sixteen numbers of four bits by h.
pub fn multiples(h: u128) -> [u128; 16]
    ensures { AreMultiples result h }
{
    let h4 = by_x(h);
    let h2 = by_x(h4);
    let h1 = by_x(h2);
    [
        0,
        h1,
        h2,
        h2 ^ h1,
        h4,
        h4 ^ h1,
        h4 ^ h2,
        h4 ^ (h2 ^ h1),
        h,
        h ^ h1,
        h ^ h2,
        h ^ (h2 ^ h1),
        h ^ h4,
        h ^ (h4 ^ h1),
        h ^ (h4 ^ h2),
        h ^ (h4 ^ (h2 ^ h1)),
    ]
}

/// The product, four bits of `x` at a time, from the last on.
#[inline(always)]
pub fn multiply(table: &[u128; 16], x: u128) -> u128
    ensures { (h : ℕ) → AreMultiples table.now h → result ≡ number_product x h }
{
    let mut z = 0u128;
    let mut rest = x;
    for step in 0u32..32 {
        z = by_x4(z) ^ table[(rest & 15) as usize];
        rest >>= 4;
    }
    z
}
