//! Wraps 32 bytes over and over, each time the first 32 of the wrapping before, and prints the first 16 bytes of the
//! last. Its word is the count, so that a script can time it from outside at two counts and take the difference.
#![tactic(auto)]

mod work;

use anyhow::{Context, Result};
use std::env;

fn main(rt: HostRuntime) -> Result<()> {
    let mut words = env::args(&rt)?;
    let _program = words.next();
    let count = words.next().context("a count")?.as_str().parse::<u32>()?;
    let front = u128::from_be_bytes(work::rewrapped(count));
    let high = (front >> 64) as u64;
    let low = (front & 0xffff_ffff_ffff_ffff) as u64;
    println!(rt; "{high:016x}{low:016x}")?;
    Ok(())
}
