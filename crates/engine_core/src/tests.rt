//! Values of FIPS 180-4 and RFC 4231.
mod keyed;
mod rows;

ghost use Rattle.std.specs.Prelude.{◌≤◌, ◌<◌};

use crate::{Engine, Faulty, Shipped};
use bits_core::Alg;
use std::process::Abort;

fn expect_hash<E: Engine>(rt: &impl Abort, engine: &mut E, alg: Alg, text: &[u8], want: &[u8; 64]) {
    let mut out = [0; 64];
    engine.hash(alg, text, &mut out);
    assert_eq!(rt; out, *want);
}

// The second case of RFC 4231.
fn expect_short<E: Engine>(rt: &impl Abort, engine: &mut E, alg: Alg, want: &[u8; 64]) {
    let mut out = [0; 64];
    engine.mac(alg, b"Jefe", b"what do ya want for nothing?", &mut out);
    assert_eq!(rt; out, *want);
}

// The sixth case of RFC 4231: a key longer than a block.
fn expect_mac<E: Engine>(rt: &impl Abort, engine: &mut E, alg: Alg, want: &[u8; 64]) {
    let text = b"Test Using Larger Than Block-Size Key - Hash Key First";
    let mut out = [0; 64];
    engine.mac(alg, &[0xaa; 131], text, &mut out);
    assert_eq!(rt; out, *want);
}

fn expect_standard<E: Engine>(rt: &impl Abort, engine: &mut E) {
    expect_hash(rt, engine, Alg::Sha256, b"", &rows::HASH_256_EMPTY);
    expect_hash(rt, engine, Alg::Sha256, b"abc", &rows::HASH_256_ABC);
    expect_short(rt, engine, Alg::Sha256, &rows::MAC_256_SHORT_KEY);
    expect_mac(rt, engine, Alg::Sha256, &rows::MAC_256_LONG_KEY);
    expect_hash(rt, engine, Alg::Sha384, b"", &rows::HASH_384_EMPTY);
    expect_hash(rt, engine, Alg::Sha384, b"abc", &rows::HASH_384_ABC);
    expect_short(rt, engine, Alg::Sha384, &rows::MAC_384_SHORT_KEY);
    expect_mac(rt, engine, Alg::Sha384, &rows::MAC_384_LONG_KEY);
    expect_hash(rt, engine, Alg::Sha512, b"", &rows::HASH_512_EMPTY);
    expect_hash(rt, engine, Alg::Sha512, b"abc", &rows::HASH_512_ABC);
    expect_short(rt, engine, Alg::Sha512, &rows::MAC_512_SHORT_KEY);
    expect_mac(rt, engine, Alg::Sha512, &rows::MAC_512_LONG_KEY);
}

// A value with bits of its first byte turned.
fn turned<const N: usize>(right: &[u8; N], mask: u8) -> [u8; N]
    requires { 0 < N }
{
    let mut value = *right;
    value[0] ^= mask;
    value
}

// The call of this number is right twice and then wrong in this bit, and the other is always right.
fn expect_faults(rt: &impl Abort, call: u8, bit: u8, mask: u8)
    requires call { call ≤ 1 }
    requires bit { bit ≤ 7 }
{
    let mut engine = Faulty::new(call, 2, bit);
    for wrong in [0, 0, mask, mask] {
        let of_hash = if call == 0 { wrong } else { 0 };
        let of_mac = if call == 1 { wrong } else { 0 };
        let hash = turned(&rows::HASH_384_ABC, of_hash);
        expect_hash(rt, &mut engine, Alg::Sha384, b"abc", &hash);
        let mac = turned(&rows::MAC_512_LONG_KEY, of_mac);
        expect_mac(rt, &mut engine, Alg::Sha512, &mac);
    }
}

#[test]
fn engines_answer_as_published(rt: HostRuntime) {
    expect_standard(&rt, &mut Shipped::new());
    expect_standard(&rt, &mut Faulty::new(9, 0, 7));
    expect_standard(&rt, &mut Faulty::new(0, 6, 7));
    expect_standard(&rt, &mut Faulty::new(1, 6, 0));
}

#[test]
fn one_call_fails_after_a_while(rt: HostRuntime) {
    expect_faults(&rt, 0, 0, 0x01);
    expect_faults(&rt, 0, 7, 0x80);
    expect_faults(&rt, 1, 0, 0x01);
    expect_faults(&rt, 1, 3, 0x08);
}
