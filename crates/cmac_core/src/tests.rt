//! Values of SP 800-38B, appendix D, and the rows of `checks/cmac_rows.py`.
mod rows;

ghost use Rattle.std.specs.Prelude.{◌≤◌, ◌<◌, length, IsTrue};
ghost use Rattle.bits_core.specs.Parameters.{is_aes_length};

use crate::{CmacStream, Mode, cmac, kdf, subkeys};
use aes_core::Schedule;
use std::process::Abort;
use std::test::Fail;

const KEY_OF_16: [u8; 16] = [
    0x2b, 0x7e, 0x15, 0x16, 0x28, 0xae, 0xd2, 0xa6, 0xab, 0xf7, 0x15, 0x88, 0x09, 0xcf, 0x4f, 0x3c,
];

const KEY_OF_24: [u8; 24] = [
    0x8e, 0x73, 0xb0, 0xf7, 0xda, 0x0e, 0x64, 0x52, 0xc8, 0x10, 0xf3, 0x2b, 0x80, 0x90, 0x79, 0xe5,
    0x62, 0xf8, 0xea, 0xd2, 0x52, 0x2c, 0x6b, 0x7b,
];

const KEY_OF_32: [u8; 32] = [
    0x60, 0x3d, 0xeb, 0x10, 0x15, 0xca, 0x71, 0xbe, 0x2b, 0x73, 0xae, 0xf0, 0x85, 0x7d, 0x77, 0x81,
    0x1f, 0x35, 0x2c, 0x07, 0x3b, 0x61, 0x08, 0xd7, 0x2d, 0x98, 0x10, 0xa3, 0x09, 0x14, 0xdf, 0xf4,
];

/// The text of the standard's examples.
const TEXT: [u8; 64] = [
    0x6b, 0xc1, 0xbe, 0xe2, 0x2e, 0x40, 0x9f, 0x96, 0xe9, 0x3d, 0x7e, 0x11, 0x73, 0x93, 0x17, 0x2a,
    0xae, 0x2d, 0x8a, 0x57, 0x1e, 0x03, 0xac, 0x9c, 0x9e, 0xb7, 0x6f, 0xac, 0x45, 0xaf, 0x8e, 0x51,
    0x30, 0xc8, 0x1c, 0x46, 0xa3, 0x5c, 0xe4, 0x11, 0xe5, 0xfb, 0xc1, 0x19, 0x1a, 0x0a, 0x52, 0xef,
    0xf6, 0x9f, 0x24, 0x45, 0xdf, 0x4f, 0x9b, 0x17, 0xad, 0x2b, 0x41, 0x7b, 0xe6, 0x6c, 0x37, 0x10,
];

// The schedule of a key.
fn schedule_of(key: &[u8]) -> Schedule
    requires { IsTrue (is_aes_length (length key.now)) }
    ensures { 0 < result.rounds }
{
    let mut schedule = Schedule::empty();
    schedule.expand(key);
    schedule
}

// Bytes that count up from 0.
fn counting<const N: usize>() -> [u8; N] {
    let mut bytes = [0u8; N];
    let mut next = 0u8;
    for i in 0..N {
        bytes[i] = next;
        next = next.wrapping_add(1);
    }
    bytes
}

fn expect_cmac(rt: &impl Abort, schedule: &Schedule, text: &[u8], want: u128)
    requires { 0 < schedule.now.rounds }
{
    let mut out = [0xff; 16];
    cmac(schedule, text, &mut out);
    assert_eq!(rt; u128::from_be_bytes(out), want);
}

fn expect_examples(rt: &impl Abort, key: &[u8], first: u128, second: u128, want: &[u128; 4])
    requires { IsTrue (is_aes_length (length key.now)) }
{
    let schedule = schedule_of(key);
    let mut k1 = [0xff; 16];
    let mut k2 = [0xff; 16];
    subkeys(&schedule, &mut k1, &mut k2);
    assert_eq!(rt; u128::from_be_bytes(k1), first);
    assert_eq!(rt; u128::from_be_bytes(k2), second);
    expect_cmac(rt, &schedule, &[], want[0]);
    expect_cmac(rt, &schedule, &TEXT[..16], want[1]);
    expect_cmac(rt, &schedule, &TEXT[..40], want[2]);
    expect_cmac(rt, &schedule, &TEXT, want[3]);
}

#[test]
fn examples(rt: HostRuntime) {
    let keys = rows::SUBKEYS;
    expect_examples(&rt, &KEY_OF_16, keys[0][0], keys[0][1], &rows::MACS[0]);
    expect_examples(&rt, &KEY_OF_24, keys[1][0], keys[1][1], &rows::MACS[1]);
    expect_examples(&rt, &KEY_OF_32, keys[2][0], keys[2][1], &rows::MACS[2]);
}

// A text that is cut in two at each of its places.
fn expect_cuts(rt: &impl Abort, schedule: &Schedule, text: &[u8], want: u128)
    requires { 0 < schedule.now.rounds }
{
    for cut in 0..text.len() {
        let mut stream = CmacStream::new(schedule);
        stream.update(schedule, &text[..cut]);
        stream.update(schedule, &text[cut..]);
        let mut out = [0xff; 16];
        stream.finish(schedule, &mut out);
        assert_eq!(rt; u128::from_be_bytes(out), want, "cut at {cut}");
    }
}

// A text that comes byte by byte, with an empty piece at its end.
fn expect_bytes(rt: &impl Abort, schedule: &Schedule, text: &[u8], want: u128)
    requires { 0 < schedule.now.rounds }
{
    let mut stream = CmacStream::new(schedule);
    for byte in text {
        stream.update(schedule, &[*byte]);
    }
    stream.update(schedule, &[]);
    let mut out = [0xff; 16];
    stream.finish(schedule, &mut out);
    assert_eq!(rt; u128::from_be_bytes(out), want);
}

// N bytes that count up from 0, whole and in pieces.
fn expect_pieces<const N: usize>(rt: &impl Abort, want: u128)
    requires { N ≤ 4096 }
{
    let schedule = schedule_of(&KEY_OF_16);
    let text = counting::<N>();
    expect_cmac(rt, &schedule, &text, want);
    expect_cuts(rt, &schedule, &text, want);
    expect_bytes(rt, &schedule, &text, want);
}

#[test]
fn pieces(rt: HostRuntime) {
    expect_pieces::<1>(&rt, rows::COUNTED[0]);
    expect_pieces::<15>(&rt, rows::COUNTED[1]);
    expect_pieces::<17>(&rt, rows::COUNTED[2]);
    expect_pieces::<31>(&rt, rows::COUNTED[3]);
    expect_pieces::<32>(&rt, rows::COUNTED[4]);
    expect_pieces::<33>(&rt, rows::COUNTED[5]);
    expect_pieces::<4096>(&rt, rows::COUNTED[6]);
}

fn expect_sixteen(rt: &impl Abort, mode: Mode, want: u128) {
    let mut out = [0xff; 16];
    kdf(
        &schedule_of(&KEY_OF_16),
        mode,
        b"label",
        b"context",
        &mut out,
    );
    assert_eq!(rt; u128::from_be_bytes(out), want);
}

#[test]
fn one_block(rt: HostRuntime) {
    expect_sixteen(&rt, Mode::Counter, rows::SIXTEEN);
    expect_sixteen(&rt, Mode::Feedback, rows::SIXTEEN);
    expect_sixteen(&rt, Mode::Pipeline, rows::SIXTEEN_PIPELINE);
}

// What is derived with a label of `size` bytes and as many of context; `want` is its CMAC.
fn expect_derived(rt: &impl Abort, mode: Mode, size: usize, out: &mut [u8], want: u128)
    requires least { 1 ≤ length out.old }
    requires most { length out.old ≤ 65536 }
    requires within { size ≤ 255 }
{
    let schedule = schedule_of(&KEY_OF_16);
    let label = counting::<255>();
    let mut context = label;
    context.reverse();
    kdf(&schedule, mode, &label[..size], &context[..size], out);
    expect_cmac(rt, &schedule, out, want);
}

// The same, over an array.
fn expect_array<const N: usize>(rt: &impl Abort, mode: Mode, size: usize, want: u128)
    requires least { 1 ≤ N }
    requires most { N ≤ 65536 }
    requires within { size ≤ 255 }
{
    let mut out = [0u8; N];
    expect_derived(rt, mode, size, &mut out, want);
}

fn expect_mode(rt: &impl Abort, mode: Mode, size: usize, out: &mut [u8], want: &[u128; 6])
    requires least { 1 ≤ length out.old }
    requires most { length out.old ≤ 65536 }
    requires within { size ≤ 255 }
{
    expect_array::<1>(rt, mode, size, want[0]);
    expect_array::<15>(rt, mode, size, want[1]);
    expect_array::<16>(rt, mode, size, want[2]);
    expect_array::<17>(rt, mode, size, want[3]);
    expect_array::<255>(rt, mode, size, want[4]);
    expect_derived(rt, mode, size, out, want[5]);
}

#[test]
fn derivations(rt: HostRuntime) -> Result<(), Fail> {
    let mut out = vec![in rt.alloc(); 0u8; 65536]?;
    expect_mode(&rt, Mode::Counter, 0, &mut out, &rows::COUNTER[0]);
    expect_mode(&rt, Mode::Counter, 255, &mut out, &rows::COUNTER[1]);
    expect_mode(&rt, Mode::Feedback, 0, &mut out, &rows::FEEDBACK[0]);
    expect_mode(&rt, Mode::Feedback, 255, &mut out, &rows::FEEDBACK[1]);
    expect_mode(&rt, Mode::Pipeline, 0, &mut out, &rows::PIPELINE[0]);
    expect_mode(&rt, Mode::Pipeline, 255, &mut out, &rows::PIPELINE[1]);
    Ok(())
}
