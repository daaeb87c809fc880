//! Values of the standard's formula over Python's hmac, and the known answer again from `hmac`.
mod rows;

ghost use Rattle.std.specs.Prelude.{◌≤◌, length};

use crate::derive;
use bits_core::Alg;
use hmac_core::{MacStream, hmac};
use std::process::Abort;
use std::test::Fail;

// Bytes that count up from 0.
fn counting<const N: usize>() -> [u8; N] {
    let mut bytes = [0u8; N];
    let mut next = 0u8;
    for i in 0..N {
        bytes[i] = next;
        next = next.wrapping_add(1);
    }
    bytes
}

#[test]
fn known_answer(rt: HostRuntime) {
    let mut out = [0u8; 32];
    derive(&counting::<32>(), b"label", b"context", &mut out);
    assert_eq!(rt; out, rows::KNOWN_ANSWER);
}

// The one block of the known answer, from its text.
#[test]
fn known_answer_step_by_step(rt: HostRuntime) {
    let text = b"\x00\x00\x00\x01label\x00context\x00\x00\x01\x00";
    let mut out = [0xffu8; 64];
    hmac(Alg::Sha256, &counting::<32>(), text, &mut out);
    assert_eq!(rt; first(&out), rows::KNOWN_ANSWER);
}

// The first half.
fn first(whole: &[u8; 64]) -> [u8; 32] {
    let mut out = [0u8; 32];
    out.copy_from_slice(&whole[..32]);
    out
}

fn expect_derived(rt: &impl Abort, label: &[u8], context: &[u8], out: &mut [u8], want: &[u8; 32])
    requires some { 1 ≤ length out.old }
    requires most { length out.old ≤ 65536 }
{
    derive(&counting::<32>(), label, context, out);
    let mut check = MacStream::new(Alg::Sha256, b"row");
    check.update(out);
    assert_eq!(rt; check.finish_leftmost(), *want);
}

// The same, over an array.
fn expect_array<const N: usize>(rt: &impl Abort, label: &[u8], context: &[u8], want: &[u8; 32])
    requires some { 1 ≤ N }
    requires most { N ≤ 65536 }
{
    let mut out = [0u8; N];
    expect_derived(rt, label, context, &mut out, want);
}

#[test]
fn short_material(rt: HostRuntime) {
    let label = counting::<255>();
    let mut context = label;
    context.reverse();
    expect_array::<1>(&rt, &[], &[], &rows::DERIVED_1_BARE);
    expect_array::<1>(&rt, &label, &context, &rows::DERIVED_1_LONG);
    expect_array::<31>(&rt, &[], &[], &rows::DERIVED_31_BARE);
    expect_array::<31>(&rt, &label, &context, &rows::DERIVED_31_LONG);
    expect_array::<32>(&rt, &[], &[], &rows::DERIVED_32_BARE);
    expect_array::<32>(&rt, &label, &context, &rows::DERIVED_32_LONG);
    expect_array::<33>(&rt, &[], &[], &rows::DERIVED_33_BARE);
    expect_array::<33>(&rt, &label, &context, &rows::DERIVED_33_LONG);
}

#[test]
fn longest_material(rt: HostRuntime) -> Result<(), Fail> {
    let label = counting::<255>();
    let mut context = label;
    context.reverse();
    let mut out = vec![in rt.alloc(); 0u8; 65536]?;
    expect_derived(&rt, &[], &[], &mut out, &rows::DERIVED_65536_BARE);
    expect_derived(&rt, &label, &context, &mut out, &rows::DERIVED_65536_LONG);
    Ok(())
}
