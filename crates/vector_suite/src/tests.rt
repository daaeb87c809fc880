//! Lines of each kind with the shipped engine, with the rows of `checks/vector_rows.py`, and lines of no kind.
mod rows;

use crate::{VectorRead, check_line};
use engine_core::Shipped;
use std::alloc::Global;
use std::process::Abort;
use std::test::Fail;

// What a line is found to be, which leaves `work` zero.
fn read(rt: &impl Abort, line: &[u8], work: &mut [u8]) -> VectorRead {
    assert!(rt; line.len() <= 131_400 && work.len() >= 131_456);
    let found = check_line(&mut Shipped::new(), line, work);
    assert!(rt; work.iter().all(|byte| *byte == 0));
    found
}

// Each of the lines is found to be the same.
fn expect(rt: &impl Abort, alloc: Global, lines: &[&str], found: VectorRead) -> Result<(), Fail> {
    let mut work = vec![in alloc; 0xffu8; 131_456]?;
    for line in lines {
        assert_eq!(rt; read(rt, line.as_bytes(), &mut work), found, "{line}");
    }
    Ok(())
}

#[test]
fn expected_answers_pass(rt: HostRuntime) -> Result<(), Fail> {
    expect(&rt, rt.alloc(), &rows::PASSING, VectorRead::Pass)
}

#[test]
fn other_answers_fail(rt: HostRuntime) -> Result<(), Fail> {
    expect(&rt, rt.alloc(), &rows::FAILING, VectorRead::Fail)
}

#[test]
fn a_byte_more_fails(rt: HostRuntime) -> Result<(), Fail> {
    expect(&rt, rt.alloc(), &rows::LONGER, VectorRead::Fail)
}

#[test]
fn a_byte_less_fails(rt: HostRuntime) -> Result<(), Fail> {
    expect(&rt, rt.alloc(), &rows::SHORTER, VectorRead::Fail)
}

#[test]
fn a_refusal_in_place_of_an_answer_fails(rt: HostRuntime) -> Result<(), Fail> {
    expect(&rt, rt.alloc(), &rows::REFUSED, VectorRead::Fail)
}

// The sealed zeros of GCM's test case 14, the key wrapping of RFC 3394, 4.1, and the padded one of RFC 5649, 6; digits of either case.
const PUBLISHED: [&str; 4] = [
    "seal 0000000000000000000000000000000000000000000000000000000000000000 000000000000000000000000 - 00000000000000000000000000000000 cea7403d4d606b6e074ec5d3baf39d18 d0d1c8a799996bf0265b98b5d48ab919",
    "wrap 000102030405060708090A0B0C0D0E0F 00112233445566778899AABBCCDDEEFF 1FA68B0A8112B447AEF34BD8FB5A7B829D3E862371D2CFE5",
    "wrappad 5840df6e29b02af1ab493b705bf16ea1ae8338f4dcc176a8 466f7250617369 afbeb0f07dfbf5419200f2ccb50bb24f",
    "cmac 2b7e151628aed2a6abf7158809cf4f3c - bb1d6929e95937287fa37d129b756746",
];

#[test]
fn published_vectors_pass(rt: HostRuntime) -> Result<(), Fail> {
    expect(&rt, rt.alloc(), &PUBLISHED, VectorRead::Pass)
}

#[test]
fn an_empty_answer_fails(rt: HostRuntime) -> Result<(), Fail> {
    expect(
        &rt,
        rt.alloc(),
        &[
            "sha256 616263 -",
            "cmac 2b7e151628aed2a6abf7158809cf4f3c - -",
        ],
        VectorRead::Fail,
    )
}

#[test]
fn comments(rt: HostRuntime) -> Result<(), Fail> {
    expect(
        &rt,
        rt.alloc(),
        &["", "#", "# sha256 616263 00", "#\t"],
        VectorRead::Comment,
    )
}

// Other words than those of a kind, or other spaces.
const OTHER_WORDS: [&str; 16] = [
    " ",
    " # no comment",
    "sha256",
    "sha256 616263",
    "sha256 616263 00 00",
    "sha256  616263 00",
    " sha256 616263 00",
    "sha256 616263 00 ",
    "sha256\t616263 00",
    "sha256 616263 00\r",
    "SHA256 616263 00",
    "sha1 616263 00",
    "sha2566 616263 00",
    "sha256 61626 00",
    "sha256 61626g 00",
    "sha256 616263 fail",
];

#[test]
fn other_words_are_bad(rt: HostRuntime) -> Result<(), Fail> {
    expect(&rt, rt.alloc(), &OTHER_WORDS, VectorRead::Bad)
}

// Lengths that are just not allowed, of keys, IVs, tags, and of what is wrapped and unwrapped.
const OTHER_LENGTHS: [&str; 16] = [
    "seal 000000000000000000000000000000 00 - - - 000000000000000000000000",
    "seal 00000000000000000000000000000000 - - - - 000000000000000000000000",
    "seal 00000000000000000000000000000000 00 - - - 0000000000000000000000",
    "open 00000000000000000000000000000000 00 - - 0000000000000000000000000000000000 -",
    "open 0000000000000000000000000000000000 00 - - 000000000000000000000000 fail",
    "wrap 00000000000000000000000000000000 0000000000000000 -",
    "wrap 00000000000000000000000000000000 0000000000000000000000000000000000 -",
    "wrappad 00000000000000000000000000000000 - -",
    "unwrap 00000000000000000000000000000000 00000000000000000000000000000000 fail",
    "unwrap 00000000000000000000000000000000 00000000000000000000000000000000000000000000000000 fail",
    "unwrappad 00000000000000000000000000000000 0000000000000000 fail",
    "unwrappad 00000000000000000000000000000000 0000000000000000000000000000000000 fail",
    "derive - - - -",
    "drbg - - - -",
    "cmac 0000000000000000000000000000000000 - 00",
    "kbcounter 00000000000000000000000000000000 - - -",
];

#[test]
fn other_lengths_are_bad(rt: HostRuntime) -> Result<(), Fail> {
    expect(&rt, rt.alloc(), &OTHER_LENGTHS, VectorRead::Bad)
}

// Puts digits behind what stands in a line, and a word behind them.
fn push_digits(line: &mut Vec<u8>, digits: usize, word: &[u8]) -> Result<(), Fail> {
    for _ in 0..digits {
        line.push(b'0')?;
    }
    for byte in word {
        line.push(*byte)?;
    }
    Ok(())
}

#[test]
fn the_longest_label(rt: HostRuntime) -> Result<(), Fail> {
    let mut work = vec![in rt.alloc(); 0xffu8; 131_456]?;
    let mut line = Vec::new(rt.alloc());
    push_digits(&mut line, 0, b"derive 00 ")?;
    push_digits(&mut line, 510, b"")?;
    let mut longer = Vec::new(rt.alloc());
    push_digits(&mut longer, 0, b"derive 00 ")?;
    push_digits(&mut longer, 512, b" - 00")?;
    push_digits(&mut line, 0, b" - 00")?;
    assert_eq!(rt; read(&rt, &line, &mut work), VectorRead::Fail);
    assert_eq!(rt; read(&rt, &longer, &mut work), VectorRead::Bad);
    Ok(())
}

#[test]
fn the_longest_line(rt: HostRuntime) -> Result<(), Fail> {
    let mut work = vec![in rt.alloc(); 0xffu8; 131_456]?;
    let mut line = Vec::new(rt.alloc());
    push_digits(&mut line, 0, b"drbg - - - ")?;
    push_digits(&mut line, 131_072, b"")?;
    assert_eq!(rt; read(&rt, &line, &mut work), VectorRead::Fail);
    push_digits(&mut line, 2, b"")?;
    assert_eq!(rt; read(&rt, &line, &mut work), VectorRead::Bad);
    Ok(())
}
