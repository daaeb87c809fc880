//! Repeats one of the hash-based functions and prints the value after it. Its words are the function
//! and the count, so that a script can time it from outside at two counts and take the difference.
#![tactic(auto)]

mod work;

use anyhow::{Context, Result};
use std::env;
use work::Work;

/// The bytes of a text that is authenticated, and of a request for random bytes.
const LENGTH: usize = 65536;

fn main(rt: HostRuntime) -> Result<()> {
    let mut words = env::args(&rt)?;
    let _program = words.next();
    let name = words
        .next()
        .context("a function: hmac, generate or derive")?;
    let work = Work::of(name.as_str()).context("the function is hmac, generate or derive")?;
    let count = words.next().context("a count")?.as_str().parse::<u32>()?;
    let mut buffer = vec![in rt.alloc(); 0u8; LENGTH]?;
    let value = u64::from_be_bytes(match work {
        Work::Hmac => work::macs(&buffer, count),
        Work::Generate => work::requests(&mut buffer, count),
        Work::Derive => work::derivations(count),
    });
    println!(rt; "{value:016x}")?;
    Ok(())
}
