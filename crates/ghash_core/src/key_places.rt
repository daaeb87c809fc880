//! The byte places of a block: made from its products by x to x^7, and the block read back from them.
ghost use Rattle.std.specs.Prelude.{◌≡◌, ℕ};
ghost use Rattle.ghash_core.specs.Places.{ArePlaces};

use crate::absorb;
use crate::bitwise::by_x;
use crate::place::{self, Place};

/// Writes the places of `h`, one after the other, where they stay: no second copy is made of them.
pub fn fill(places: &mut [Place; 16], h: u128)
    ensures { ArePlaces places.new h }
{
    let by_1 = by_x(h);
    let by_2 = by_x(by_1);
    let by_3 = by_x(by_2);
    let by_4 = by_x(by_3);
    let by_5 = by_x(by_4);
    let by_6 = by_x(by_5);
    let by_7 = by_x(by_6);
    let bytes_0 = h.to_be_bytes();
    let bytes_1 = by_1.to_be_bytes();
    let bytes_2 = by_2.to_be_bytes();
    let bytes_3 = by_3.to_be_bytes();
    let bytes_4 = by_4.to_be_bytes();
    let bytes_5 = by_5.to_be_bytes();
    let bytes_6 = by_6.to_be_bytes();
    let bytes_7 = by_7.to_be_bytes();
    for k in 0usize..16 {
        places[k] = Place {
            high: place::sums(bytes_0[k], bytes_1[k], bytes_2[k], bytes_3[k]),
            low: place::sums(bytes_4[k], bytes_5[k], bytes_6[k], bytes_7[k]),
        };
    }
}

/// The block that the places are of. Byte k of it is that of its product by the block of the first byte 128, which is 1.
pub fn multiplicand(places: &[Place; 16]) -> u128
    ensures { (h : ℕ) → ArePlaces places.now h → result ≡ h }
{
    let mut bytes = [0u8; 16];
    for k in 0usize..16 {
        bytes[k] = places[k].high[8];
    }
    absorb::number(&bytes)
}
