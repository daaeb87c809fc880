//! Does one work on a key of 32 bytes and a text, both from standard input, and writes what comes of it as bytes: nothing
//! but the work goes by their values, so that checks/same_trace.sh can compare the traces of two runs. Its words are the
//! work, as `Work::of` names it, and the number of bytes of the text.
#![tactic(auto)]

mod ciphered;
mod hashed;
mod work;

use anyhow::{Context, Result, ensure};
use bits_core::LARGEST_PAYLOAD;
use std::env;
use std::io::{Read, Write};
use work::Work;

fn main(rt: HostRuntime) -> Result<()> {
    let mut words = env::args(&rt)?;
    let _program = words.next();
    let name = words.next().context("a work")?;
    let work = Work::of(name.as_str()).context("a work that is not known")?;
    let length = words
        .next()
        .context("a number of bytes")?
        .as_str()
        .parse::<usize>()?;
    ensure!(length <= LARGEST_PAYLOAD, "at most {LARGEST_PAYLOAD} bytes");
    let mut key = [0u8; 32];
    let mut text = work::zeros(rt.alloc(), length)?;
    let mut input = rt.stdin();
    input.read_exact(&mut key)?;
    input.read_exact(&mut text)?;
    let value = work::done(work, &key, &mut text);
    let mut output = rt.stdout();
    output.write_all(&value)?;
    output.write_all(&text)?;
    Ok(())
}
