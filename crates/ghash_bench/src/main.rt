//! Repeats one way of GHASH over a text, and prints the value after it. Its words are the way, the number of
//! bytes and the count, so that a script can time it from outside at two counts and take the difference.
#![tactic(auto)]

mod work;

use anyhow::{Context, Result, ensure};
use std::env;
use work::Way;

/// The longest text that is measured.
const LIMIT: usize = 1 << 20;

fn main(rt: HostRuntime) -> Result<()> {
    let mut words = env::args(&rt)?;
    let _program = words.next();
    let name = words.next().context("a way of GHASH")?;
    let way = Way::of(name.as_str()).context("the way is shuffles, lanes, table, plain or fill")?;
    let length = words
        .next()
        .context("a number of bytes")?
        .as_str()
        .parse::<usize>()?;
    let count = words.next().context("a count")?.as_str().parse::<u32>()?;
    ensure!(length <= LIMIT, "at most {LIMIT} bytes");
    let text = work::text(rt.alloc(), length)?;
    let sum = u128::from_be_bytes(work::repeated(way, &text, count));
    let high = (sum >> 64) as u64;
    let low = (sum & 0xffff_ffff_ffff_ffff) as u64;
    println!(rt; "{high:016x}{low:016x}")?;
    Ok(())
}
