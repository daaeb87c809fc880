//! The calls on prepared keys, key derivation and the generator: published values, and rows of `checks/engine_rows.py`. Each call is
//! also tried with an engine that is wrong in it.
ghost use Rattle.std.specs.Prelude.{◌≡◌, ◌≤◌, ◌<◌, ◌-◌, ℕ, List, length, drop, IsTrue};
ghost use Rattle.bits_core.specs.ByteList.{zeros};
ghost use Rattle.bits_core.specs.Parameters.{is_aes_length};
ghost use Rattle.gcm_mode.specs.Filled.{IsFilled};
ghost use Rattle.engine_core.specs.Inputs.{IsUnwrappable, IsWrappable};

use super::{rows, turned};
use crate::{Engine, Faulty, Shipped};
use drbg_core::Drbg;
use gcm_mode::Prepared;
use std::process::Abort;

fn fill(prepared: &mut Prepared, key: &[u8])
    requires { IsTrue (is_aes_length (length key.now)) }
    ensures { (key : List ℕ) × IsFilled prepared.new key }
{
    prepared.fill(key);
}

// The bytes at the front, with zeros after them.
fn in_buffer(bytes: &[u8]) -> [u8; 80]
    requires { length bytes.now ≤ 80 }
    ensures { drop (length bytes.now) result ≡ zeros (80 - length bytes.now) }
{
    let mut buf = [0; 80];
    buf[..bytes.len()].copy_from_slice(bytes);
    buf
}

fn expect_seal<E: Engine>(rt: &impl Abort, engine: &mut E, mask: u8) {
    let mut prepared = Prepared::empty();
    fill(&mut prepared, &[0; 32]);
    let mut text = [0; 16];
    let mut tag = [0; 16];
    engine.seal(&prepared, &[0; 12], &[], &mut text, &mut tag);
    assert_eq!(rt; text, rows::CIPHERTEXT);
    assert_eq!(rt; tag, turned(&rows::TAG, mask));
}

// Opens under the tag with bits of its last byte turned.
fn expect_open<E: Engine>(rt: &impl Abort, engine: &mut E, mask: u8, authentic: bool) {
    let mut prepared = Prepared::empty();
    fill(&mut prepared, &[0; 32]);
    let mut text = rows::CIPHERTEXT;
    let mut tag = rows::TAG;
    tag[15] ^= mask;
    let answer = engine.open(&prepared, &[0; 12], &[], &mut text, &tag);
    assert_eq!(rt; answer, authentic);
    assert_eq!(rt; text, [0; 16]);
}

fn expect_wrap<E: Engine>(
    rt: &impl Abort,
    engine: &mut E,
    pad: bool,
    key: &[u8],
    plain: &[u8],
    wrapped: &[u8],
    mask: u8,
)
    requires key { IsTrue (is_aes_length (length key.now)) }
    requires plain { IsWrappable pad (length plain.now) }
    requires wrapped { length wrapped.now ≤ 80 }
{
    let mut prepared = Prepared::empty();
    fill(&mut prepared, &[7; 32]);
    fill(&mut prepared, key);
    let mut buf = in_buffer(plain);
    let size = engine.wrap(pad, &prepared, &mut buf, plain.len());
    assert_eq!(rt; size, wrapped.len());
    assert_eq!(rt; buf, turned(&in_buffer(wrapped), mask));
}

// The plaintext is empty where a refusal is expected.
fn expect_unwrap<E: Engine>(
    rt: &impl Abort,
    engine: &mut E,
    pad: bool,
    key: &[u8],
    wrapped: &[u8],
    plain: &[u8],
)
    requires key { IsTrue (is_aes_length (length key.now)) }
    requires wrapped { IsUnwrappable pad (length wrapped.now) }
    requires plain { length plain.now ≤ 80 }
{
    let mut prepared = Prepared::empty();
    fill(&mut prepared, key);
    let mut buf = in_buffer(wrapped);
    let size = engine.unwrap(pad, &prepared, &mut buf, wrapped.len());
    assert_eq!(rt; size.unwrap_or(0), plain.len());
    assert_eq!(rt; size.is_none(), plain.is_empty());
    assert_eq!(rt; buf, in_buffer(plain));
}

fn expect_derive<E: Engine>(rt: &impl Abort, engine: &mut E, mask: u8) {
    let mut out = [0; 32];
    engine.derive(&rows::KEY, b"label", b"context", &mut out);
    assert_eq!(rt; out, turned(&rows::DERIVED, mask));
}

// The bits that are turned by each of the three calls; they are turned back before the next.
fn expect_generator<E: Engine>(rt: &impl Abort, engine: &mut E, masks: &[u8; 3]) {
    let mut drbg = Drbg::empty();
    engine.drbg_instantiate(&rows::ENTROPY, &rows::NONCE, &[], &mut drbg);
    assert_eq!(rt; drbg.k, turned(&rows::SEEDED_K, masks[0]));
    drbg.k = rows::SEEDED_K;
    engine.drbg_reseed(&rows::FRESH, &[], &mut drbg);
    assert_eq!(rt; drbg.k, turned(&rows::RESEEDED_K, masks[1]));
    drbg.k = rows::RESEEDED_K;
    assert_eq!(rt; drbg.counter, 1);
    let mut out = [0; 32];
    engine.drbg_generate(&[], &mut drbg, &mut out);
    assert_eq!(rt; out, turned(&rows::GENERATED, masks[2]));
    assert_eq!(rt; drbg.counter, 2);
    engine.drbg_generate(&[], &mut drbg, &mut []);
    assert_eq!(rt; drbg.counter, 3);
}

fn expect_wrapping<E: Engine>(rt: &impl Abort, engine: &mut E, mask: u8) {
    let kek = &rows::KEK_16;
    expect_wrap(
        rt,
        engine,
        false,
        kek,
        &rows::PLAIN_16,
        &rows::WRAPPED_16,
        mask,
    );
    let kek = &rows::KEK_24;
    expect_wrap(
        rt,
        engine,
        true,
        kek,
        &rows::PLAIN_7,
        &rows::WRAPPED_7,
        mask,
    );
}

fn expect_unwrapping<E: Engine>(rt: &impl Abort, engine: &mut E, plain_16: &[u8], plain_7: &[u8])
    requires whole { length plain_16.now ≤ 80 }
    requires padded { length plain_7.now ≤ 80 }
{
    expect_unwrap(
        rt,
        engine,
        false,
        &rows::KEK_16,
        &rows::WRAPPED_16,
        plain_16,
    );
    expect_unwrap(rt, engine, true, &rows::KEK_24, &rows::WRAPPED_7, plain_7);
}

fn expect_all<E: Engine>(rt: &impl Abort, engine: &mut E) {
    expect_seal(rt, engine, 0);
    expect_open(rt, engine, 0, true);
    expect_open(rt, engine, 1, false);
    expect_wrapping(rt, engine, 0);
    expect_unwrapping(rt, engine, &rows::PLAIN_16, &rows::PLAIN_7);
    expect_derive(rt, engine, 0);
    expect_generator(rt, engine, &[0, 0, 0]);
}

#[test]
fn keyed_calls_answer_as_published(rt: HostRuntime) {
    expect_all(&rt, &mut Shipped::new());
    expect_all(&rt, &mut Faulty::new(0, 0, 7));
    expect_all(&rt, &mut Faulty::new(9, 2, 7));
}

#[test]
fn wrong_wrappings_are_refused(rt: HostRuntime) {
    let mut engine = Shipped::new();
    let mut wrapped = rows::WRAPPED_16;
    wrapped[23] ^= 1;
    expect_unwrap(&rt, &mut engine, false, &rows::KEK_16, &wrapped, &[]);
    expect_unwrap(
        &rt,
        &mut engine,
        false,
        &rows::KEK_24,
        &rows::WRAPPED_16,
        &[],
    );
    expect_unwrap(&rt, &mut engine, true, &rows::KEK_16, &rows::WRAPPED_7, &[]);
}

#[test]
fn each_keyed_call_fails(rt: HostRuntime) {
    expect_seal(&rt, &mut Faulty::new(2, 0, 7), 0x80);
    expect_open(&rt, &mut Faulty::new(3, 0, 0), 0, false);
    expect_wrapping(&rt, &mut Faulty::new(4, 0, 1), 0x02);
    expect_unwrapping(&rt, &mut Faulty::new(5, 0, 0), &[], &[]);
    expect_derive(&rt, &mut Faulty::new(6, 0, 2), 0x04);
    expect_generator(&rt, &mut Faulty::new(7, 0, 3), &[0x08, 0, 0]);
    expect_generator(&rt, &mut Faulty::new(8, 0, 4), &[0, 0x10, 0]);
    expect_generator(&rt, &mut Faulty::new(9, 0, 5), &[0, 0, 0x20]);
}
