//! Repeats a call of AES, for the benchmark in bench/, and prints a checksum alone. Its words are what is
//! measured, the bytes of the key and how often, so that a script can time it at two counts and take the difference.
#![tactic(auto)]

ghost use Rattle.std.specs.Prelude.{IsTrue};
ghost use Rattle.bits_core.specs.Parameters.{is_aes_length};

mod work;

use aes_core::Schedule;
use anyhow::{Context, Result, ensure};
use std::alloc::{AllocError, Global};
use std::env;
use work::Work;

/// The bytes of a text.
const LENGTH: usize = 65536;

/// The text or the block after `count` turns.
fn repeated(alloc: Global, work: Work, key_bytes: usize, count: u32) -> Result<Vec<u8>, AllocError>
    requires { IsTrue (is_aes_length key_bytes) }
{
    let key = [7; 32];
    let mut schedule = Schedule::empty();
    schedule.expand(&key[..key_bytes]);
    let mut text = vec![in alloc; 0u8; LENGTH]?;
    match work {
        Work::Stream => work::streams(&schedule, &mut text, count),
        Work::Kibibyte => work::streams(&schedule, &mut text[..1024], count),
        Work::Lanes => work::streams_by_lanes(&schedule, &mut text, count),
        Work::Encrypt => text[..16].copy_from_slice(&work::enciphered(&schedule, count)),
        Work::Decrypt => text[..16].copy_from_slice(&work::deciphered(&schedule, count)),
        Work::Rekey => text[..16].copy_from_slice(&work::rekeyed(key_bytes, count)),
    }
    schedule.wipe();
    Ok(text)
}

/// A polynomial in 31 of the bytes, modulo 2^32.
fn checksum(bytes: &[u8]) -> u32 {
    let mut sum = 0u32;
    for byte in bytes {
        sum = sum.wrapping_mul(31).wrapping_add(u32::from(*byte));
    }
    sum
}

fn main(rt: HostRuntime) -> Result<()> {
    let words: Vec<String> = env::args(&rt)?.collect(rt.alloc())?;
    ensure!(words.len() == 4, "usage: aes_bench WORK KEYBYTES COUNT");
    let work = Work::of(words[1].as_str()).context(
        "the work is stream, kibibyte, lanes, encrypt, decrypt or rekey",
    )?;
    let key_bytes: usize = words[2].parse().context("the bytes of the key")?;
    let count: u32 = words[3].parse().context("how often")?;
    ensure!(
        key_bytes == 16 || key_bytes == 24 || key_bytes == 32,
        "a key has 16, 24 or 32 bytes"
    );
    let text = repeated(rt.alloc(), work, key_bytes, count)?;
    println!(rt; "{}", checksum(&text))?;
    Ok(())
}
