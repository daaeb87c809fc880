//! Seals or opens a text over and over, and prints the last tag. Its words are the call, the number of bytes and the count,
//! so that a script can time it from outside at two counts and take the difference.
#![tactic(auto)]

mod work;

use anyhow::{Context, Result, ensure};
use bits_core::LARGEST_PAYLOAD;
use std::env;
use work::Call;

fn main(rt: HostRuntime) -> Result<()> {
    let mut words = env::args(&rt)?;
    let _program = words.next();
    let name = words.next().context("seal or open")?;
    let call = Call::of(name.as_str()).context("the call is seal or open")?;
    let length = words
        .next()
        .context("a number of bytes")?
        .as_str()
        .parse::<usize>()?;
    let count = words.next().context("a count")?.as_str().parse::<u32>()?;
    ensure!(length <= LARGEST_PAYLOAD, "at most {LARGEST_PAYLOAD} bytes");
    let mut text = work::text(rt.alloc(), length)?;
    let mut work = work::text(rt.alloc(), length)?;
    let sum = u128::from_be_bytes(work::repeated(call, &mut text, &mut work, count));
    let high = (sum >> 64) as u64;
    let low = (sum & 0xffff_ffff_ffff_ffff) as u64;
    println!(rt; "{high:016x}{low:016x}")?;
    Ok(())
}
