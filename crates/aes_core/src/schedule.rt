//! A key's schedule, and the cipher under it.
ghost use Rattle.std.specs.Prelude.{◌≡◌, ◌<◌, ◌≤◌, List, ℕ, length, IsTrue};
ghost use Rattle.bits_core.specs.Parameters.{is_aes_length};
ghost use Rattle.aes_spec.specs.Gctr.{gctr};
ghost use Rattle.aes_spec.specs.Key.{aes, aes_inverse};
ghost use Rattle.aes_core.specs.Schedules.{blank, IsExpanded};

use crate::expansion;
use std::marker::Model;

/// The round keys of an AES key, or zeros. Contracts see the number of rounds and the sixty words.
#[derive(Drop)]
pub struct Schedule {
    words: [[u8; 4]; 60],
    rounds: usize,
}

impl Model for Schedule {
    ghost use Rattle.std.specs.Prelude.{◌≤◌};
    ghost use Rattle.aes_core.specs.Schedules.{KeySchedule};

    ghost Value = { KeySchedule };

    ghost view = { λ a. record { rounds = a.rounds; words = a.words } };

    ghost invariant = { λ a. a.rounds ≤ 14 };
}

impl Schedule {
    /// A schedule of zeros, under which nothing can be enciphered.
    pub fn empty() -> Schedule
        ensures { result ≡ blank }
    {
        Schedule {
            words: [[0; 4]; 60],
            rounds: 0,
        }
    }

    /// Makes the schedule that of a key of 16, 24 or 32 bytes (FIPS 197, section 5.2).
    pub fn expand(&mut self, key: &[u8])
        requires { IsTrue (is_aes_length (length key.now)) }
        ensures { IsExpanded self.new key.now }
    {
        self.wipe();
        expansion::fill(&mut self.words, key);
        self.rounds = key.len() / 4 + 6;
    }

    /// Makes all of it zero.
    pub fn wipe(&mut self)
        ensures { self.new ≡ blank }
    {
        self.words = [[0; 4]; 60];
        self.rounds = 0;
    }

    /// Enciphers a block under the key that was expanded (FIPS 197, section 5.1).
    pub fn encrypt(&self, block: &mut [u8; 16])
        requires { 0 < self.now.rounds }
        ensures { (key : List ℕ) → IsExpanded self.now key → block.new ≡ aes key block.old }
    {
        *block = aes_lanes::enciphered(&self.words, self.rounds, *block);
    }

    /// Deciphers a block under the key that was expanded (FIPS 197, section 5.3).
    pub fn decrypt(&self, block: &mut [u8; 16])
        requires { 0 < self.now.rounds }
        ensures { (key : List ℕ) → IsExpanded self.now key → block.new ≡ aes_inverse key block.old }
    {
        *block = aes_lanes::deciphered(&self.words, self.rounds, *block);
    }

    /// Adds the key stream from the block `start` on to a text, under the key that was expanded.
    pub(crate) fn add_stream(&self, start: &[u8; 16], text: &mut [u8])
        requires { 0 < self.now.rounds }
        ensures { (key : List ℕ) → IsExpanded self.now key → text.new ≡ gctr (aes key) start.now text.old }
    {
        aes_lanes::add_stream(&self.words, self.rounds, start, text);
    }

    /// As `add_stream`, with SBOX() as a power.
    pub(crate) fn add_stream_by_powers(&self, start: &[u8; 16], text: &mut [u8])
        requires { 0 < self.now.rounds }
        ensures { (key : List ℕ) → IsExpanded self.now key → text.new ≡ gctr (aes key) start.now text.old }
    {
        aes_lanes::add_stream_by_powers(&self.words, self.rounds, start, text);
    }
}

#[cfg(test)]
impl Schedule {
    /// The last round key.
    pub(crate) fn last_key(&self) -> [u8; 16] {
        aes_lanes::round_key(&self.words, self.rounds)
    }
}
