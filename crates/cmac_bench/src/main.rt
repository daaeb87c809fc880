//! Makes the CMAC of a text over and over, each time with the last one at its front, and prints the last. Its words
//! are the number of bytes and the count, so that a script can time it from outside at two counts and take the
//! difference.
#![tactic(auto)]

mod work;

use anyhow::{Context, Result};
use std::env;

fn main(rt: HostRuntime) -> Result<()> {
    let mut words = env::args(&rt)?;
    let _program = words.next();
    let length = words
        .next()
        .context("a number of bytes")?
        .as_str()
        .parse::<usize>()?;
    let count = words.next().context("a count")?.as_str().parse::<u32>()?;
    let mut text = vec![in rt.alloc(); 0u8; length]?;
    let mac = u128::from_be_bytes(work::repeated(&mut text, count));
    let high = (mac >> 64) as u64;
    let low = (mac & 0xffff_ffff_ffff_ffff) as u64;
    println!(rt; "{high:016x}{low:016x}")?;
    Ok(())
}
