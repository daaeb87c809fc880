//! Values of the standard's steps over Python's hmac, a case of the NIST's CAVS, and the known answer
//! again from calls of `hmac`.
mod rows;

ghost use Rattle.std.specs.Prelude.{◌≤◌, length};

use crate::Drbg;
use bits_core::Alg;
use hmac_core::{MacStream, hmac};
use std::alloc::{AllocError, Global};
use std::process::Abort;
use std::test::Fail;

// Bytes that count up from `first`.
fn counting<const N: usize>(first: u8) -> [u8; N] {
    let mut bytes = [0u8; N];
    let mut next = first;
    for i in 0..N {
        bytes[i] = next;
        next = next.wrapping_add(1);
    }
    bytes
}

// A generator with the entropy 00 to 1f and the nonce 20 to 2f.
fn seeded(personal: &[u8]) -> Drbg {
    let mut drbg = Drbg::empty();
    drbg.instantiate(&counting::<32>(0), &counting::<16>(32), personal);
    drbg
}

fn expect_state(rt: &impl Abort, drbg: &Drbg, k: &[u8; 32], v: &[u8; 32], counter: u32) {
    assert_eq!(rt; drbg.k, *k);
    assert_eq!(rt; drbg.v, *v);
    assert_eq!(rt; drbg.counter, counter);
}

#[test]
fn seeds(rt: HostRuntime) {
    let additional = counting::<40>(100);
    let fresh = counting::<32>(48);
    let mut drbg = seeded(&additional);
    expect_state(&rt, &drbg, &rows::PERSONAL_K, &rows::PERSONAL_V, 1);
    drbg.instantiate(&counting::<32>(0), &counting::<16>(32), &[]);
    expect_state(&rt, &drbg, &rows::SEEDED_K, &rows::SEEDED_V, 1);
    drbg.reseed(&fresh, &additional);
    expect_state(
        &rt,
        &drbg,
        &rows::RESEEDED_WITH_INPUT_K,
        &rows::RESEEDED_WITH_INPUT_V,
        1,
    );
    drbg.wipe();
    expect_state(&rt, &drbg, &[0; 32], &[0; 32], 0);
}

#[test]
fn known_answer(rt: HostRuntime) {
    let mut drbg = seeded(&[]);
    drbg.reseed(&counting::<32>(48), &[]);
    expect_state(&rt, &drbg, &rows::RESEEDED_K, &rows::RESEEDED_V, 1);
    let mut out = [0u8; 32];
    drbg.generate(&[], &mut out);
    assert_eq!(rt; out, rows::KNOWN_ANSWER);
    expect_state(
        &rt,
        &drbg,
        &rows::AFTER_KNOWN_ANSWER_K,
        &rows::AFTER_KNOWN_ANSWER_V,
        2,
    );
}

#[test]
fn case_of_the_nist(rt: HostRuntime) {
    let mut drbg = Drbg::empty();
    drbg.instantiate(&rows::CAVS_ENTROPY, &rows::CAVS_NONCE, &[]);
    let mut out = [0u8; 128];
    drbg.generate(&[], &mut out);
    assert_eq!(rt; drbg.counter, 2);
    drbg.generate(&[], &mut out);
    assert_eq!(rt; out, rows::CAVS_OUTPUT);
}

// Two requests in a row, each of as many bytes as `out` has.
fn expect_twice(rt: &impl Abort, additional: &[u8], out: &mut [u8], want: &[u8; 32])
    requires { length out.old ≤ 65536 }
{
    let mut drbg = seeded(&[]);
    let mut check = MacStream::new(Alg::Sha256, b"row");
    assert_eq!(rt; drbg.counter, 1);
    drbg.generate(additional, out);
    check.update(out);
    assert_eq!(rt; drbg.counter, 2);
    drbg.generate(additional, out);
    check.update(out);
    assert_eq!(rt; drbg.counter, 3);
    check.update(&drbg.k);
    check.update(&drbg.v);
    assert_eq!(rt; check.finish_leftmost(), *want);
}

// The same, over an array.
fn expect_array_twice<const N: usize>(rt: &impl Abort, additional: &[u8], want: &[u8; 32])
    requires { N ≤ 65536 }
{
    let mut out = [0u8; N];
    expect_twice(rt, additional, &mut out, want);
}

#[test]
fn requests_bare(rt: HostRuntime) {
    expect_array_twice::<0>(&rt, &[], &rows::TWICE_0_BARE);
    expect_array_twice::<1>(&rt, &[], &rows::TWICE_1_BARE);
    expect_array_twice::<31>(&rt, &[], &rows::TWICE_31_BARE);
    expect_array_twice::<32>(&rt, &[], &rows::TWICE_32_BARE);
    expect_array_twice::<33>(&rt, &[], &rows::TWICE_33_BARE);
    expect_array_twice::<64>(&rt, &[], &rows::TWICE_64_BARE);
}

#[test]
fn requests_with_input(rt: HostRuntime) {
    let additional = counting::<40>(100);
    expect_array_twice::<0>(&rt, &additional, &rows::TWICE_0_WITH_INPUT);
    expect_array_twice::<1>(&rt, &additional, &rows::TWICE_1_WITH_INPUT);
    expect_array_twice::<31>(&rt, &additional, &rows::TWICE_31_WITH_INPUT);
    expect_array_twice::<32>(&rt, &additional, &rows::TWICE_32_WITH_INPUT);
    expect_array_twice::<33>(&rt, &additional, &rows::TWICE_33_WITH_INPUT);
    expect_array_twice::<64>(&rt, &additional, &rows::TWICE_64_WITH_INPUT);
}

#[test]
fn longest_requests(rt: HostRuntime) -> Result<(), Fail> {
    let mut out = vec![in rt.alloc(); 0u8; 65536]?;
    expect_twice(&rt, &[], &mut out, &rows::TWICE_65536_BARE);
    expect_twice(
        &rt,
        &counting::<40>(100),
        &mut out,
        &rows::TWICE_65536_WITH_INPUT,
    );
    Ok(())
}

// The first half.
fn first(whole: &[u8; 64]) -> [u8; 32] {
    let mut out = [0u8; 32];
    out.copy_from_slice(&whole[..32]);
    out
}

// HMAC-SHA-256 in one call.
fn mac(key: &[u8], text: &[u8]) -> [u8; 32] {
    let mut whole = [0u8; 64];
    hmac(Alg::Sha256, key, text, &mut whole);
    first(&whole)
}

// HMAC-SHA-256 of V, one byte and some input under K.
fn next_key(
    alloc: Global,
    k: &[u8; 32],
    v: &[u8; 32],
    byte: u8,
    input: &[u8],
) -> Result<[u8; 32], AllocError> {
    let mut text = Vec::new(alloc);
    text.extend_from_slice(v)?;
    text.push(byte)?;
    text.extend_from_slice(input)?;
    Ok(mac(k, &text))
}

// The known answer again, step by step with `hmac` alone.
#[test]
fn known_answer_step_by_step(rt: HostRuntime) -> Result<(), Fail> {
    let seed = counting::<48>(0);
    let k = next_key(rt.alloc(), &[0; 32], &[1; 32], 0, &seed)?;
    let v = mac(&k, &[1; 32]);
    let k = next_key(rt.alloc(), &k, &v, 1, &seed)?;
    let v = mac(&k, &v);
    assert_eq!(rt; k, rows::SEEDED_K);
    assert_eq!(rt; v, rows::SEEDED_V);
    let fresh = counting::<32>(48);
    let k = next_key(rt.alloc(), &k, &v, 0, &fresh)?;
    let v = mac(&k, &v);
    let k = next_key(rt.alloc(), &k, &v, 1, &fresh)?;
    let v = mac(&k, &v);
    let v = mac(&k, &v);
    assert_eq!(rt; v, rows::KNOWN_ANSWER);
    let k = next_key(rt.alloc(), &k, &v, 0, &[])?;
    assert_eq!(rt; k, rows::AFTER_KNOWN_ANSWER_K);
    assert_eq!(rt; mac(&k, &v), rows::AFTER_KNOWN_ANSWER_V);
    Ok(())
}
