//! What is kept of a hash subkey, and the calls that take bytes into a running value.
ghost use Rattle.std.specs.Prelude.{◌≡◌, ℕ, List};
ghost use Rattle.ghash_core.specs.Block.{absorbed, block_of, blocks_of, bytes_of};
ghost use Rattle.ghash_core.specs.Filled.{IsFilled, IsWiped};

use crate::place::Place;
use crate::{absorb, by_places, key_places, lanes, nibbles, product};

/// The byte places of H^4 to H, for a hash subkey H: by them a block is multiplied with no address that depends on it or
/// on H. They are 2,048 bytes, and H and its powers can be read back from them.
///
/// The absorb calls have one contract. For the subkey that the table was filled for, of `m` begun groups of
/// 16 bytes, the last padded with zeros, `acc` becomes `acc` times H^m plus the GHASH of these blocks (SP 800-38D,
/// section 6.4). So calls one after the other add up, as long as each but the last takes whole blocks.
#[derive(Drop)]
pub struct Table {
    fourth: [Place; 16],
    third: [Place; 16],
    second: [Place; 16],
    first: [Place; 16],
}

impl Table {
    /// A table of zeros.
    pub fn empty() -> Table
        ensures { IsWiped result }
    {
        Table {
            fourth: [Place::ZERO; 16],
            third: [Place::ZERO; 16],
            second: [Place::ZERO; 16],
            first: [Place::ZERO; 16],
        }
    }

    /// Fills the table for the subkey `h`.
    pub fn fill(&mut self, h: &[u8; 16])
        ensures { IsFilled self.new h.now }
    {
        let by_1 = by_places::block(h);
        key_places::fill(&mut self.first, by_places::number(by_1));
        let by_2 = product::multiply(&self.first, by_1);
        key_places::fill(&mut self.second, by_places::number(by_2));
        let by_3 = product::multiply(&self.first, by_2);
        key_places::fill(&mut self.third, by_places::number(by_3));
        let by_4 = product::multiply(&self.first, by_3);
        key_places::fill(&mut self.fourth, by_places::number(by_4));
    }

    /// Makes all of it zero.
    pub fn wipe(&mut self)
        ensures { IsWiped self.new }
    {
        self.fourth = [Place::ZERO; 16];
        self.third = [Place::ZERO; 16];
        self.second = [Place::ZERO; 16];
        self.first = [Place::ZERO; 16];
    }

    /// Takes the blocks of `bytes` into `acc`, by the fastest way that there is.
    pub fn absorb(&self, acc: &mut [u8; 16], bytes: &[u8])
        ensures { (h : List ℕ) → IsFilled self.now h
            → acc.new ≡ bytes_of (absorbed (block_of h) (block_of acc.old) (blocks_of bytes.now)) }
    {
        let before = by_places::block(acc);
        let end = by_places::by_fours(
            &self.fourth,
            &self.third,
            &self.second,
            &self.first,
            before,
            bytes,
        );
        *acc = by_places::bytes(end);
    }

    /// Takes the blocks of `bytes` into `acc`, bit by bit as the standard writes it: slow, and plain to read.
    pub fn absorb_plain(&self, acc: &mut [u8; 16], bytes: &[u8])
        ensures { (h : List ℕ) → IsFilled self.now h
            → acc.new ≡ bytes_of (absorbed (block_of h) (block_of acc.old) (blocks_of bytes.now)) }
    {
        let h = key_places::multiplicand(&self.first);
        let end = absorb::by_bits(h, absorb::number(acc), bytes);
        *acc = end.to_be_bytes();
    }

    /// Takes the blocks of `bytes` into `acc`, four bits at a time by sixteen multiples of H, which it makes anew.
    pub fn absorb_table(&self, acc: &mut [u8; 16], bytes: &[u8])
        ensures { (h : List ℕ) → IsFilled self.now h
            → acc.new ≡ bytes_of (absorbed (block_of h) (block_of acc.old) (blocks_of bytes.now)) }
    {
        let multiples = nibbles::multiples(key_places::multiplicand(&self.first));
        let end = absorb::by_nibbles(&multiples, absorb::number(acc), bytes);
        *acc = end.to_be_bytes();
    }

    /// Takes the blocks of `bytes` into `acc`, four side by side in vectors of four lanes, by shifts and masks alone; a rest
    /// of fewer than four goes bit by bit. It makes the rows of the four powers anew.
    pub fn absorb_lanes(&self, acc: &mut [u8; 16], bytes: &[u8])
        ensures { (h : List ℕ) → IsFilled self.now h
            → acc.new ≡ bytes_of (absorbed (block_of h) (block_of acc.old) (blocks_of bytes.now)) }
    {
        let powers = [
            key_places::multiplicand(&self.fourth),
            key_places::multiplicand(&self.third),
            key_places::multiplicand(&self.second),
            key_places::multiplicand(&self.first),
        ];
        let rows = lanes::rows_of(&powers);
        let end = absorb::by_lanes(&rows, powers[3], absorb::number(acc), bytes);
        *acc = end.to_be_bytes();
    }
}
