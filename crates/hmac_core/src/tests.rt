//! Values of FIPS 180-4, RFC 4231 and Python's hashlib and hmac.
mod rows;

use crate::{MacStream, hash, hmac};
use bits_core::Alg;
use std::process::Abort;
use std::test::Fail;

// Bytes that count up from `first`.
fn counting<const N: usize>(first: u8) -> [u8; N] {
    let mut bytes = [0u8; N];
    let mut next = first;
    for i in 0..N {
        bytes[i] = next;
        next = next.wrapping_add(1);
    }
    bytes
}

fn expect_hash(rt: &impl Abort, alg: Alg, text: &[u8], want: &[u8; 64]) {
    let mut out = [0xffu8; 64];
    hash(alg, text, &mut out);
    assert_eq!(rt; out, *want);
}

fn expect_mac(rt: &impl Abort, alg: Alg, key: &[u8], text: &[u8], want: &[u8; 64]) {
    let mut out = [0xffu8; 64];
    hmac(alg, key, text, &mut out);
    assert_eq!(rt; out, *want);
}

// A text cut in two at each of its places, under a key that is longer than a block.
fn expect_cuts(rt: &impl Abort, alg: Alg, want: &[u8; 64]) {
    let key = counting::<131>(0);
    let text = counting::<200>(0);
    for cut in 0usize..201 {
        let mut stream = MacStream::new(alg, &key);
        stream.update(&text[..cut]);
        stream.update(&text[cut..]);
        let mut out = [0xffu8; 64];
        stream.finish(&mut out);
        assert_eq!(rt; out, *want, "cut at {cut}");
    }
}

fn expect_leftmost(rt: &impl Abort, alg: Alg, want: &[u8; 64]) {
    let text = counting::<200>(0);
    let mut stream = MacStream::new(alg, &counting::<131>(0));
    stream.update(&text);
    assert_eq!(rt; stream.finish_leftmost().as_slice(), &want[..32]);
}

#[test]
fn digests(rt: HostRuntime) {
    let text = counting::<200>(0);
    expect_hash(&rt, Alg::Sha256, &[], &rows::HASH_256_EMPTY);
    expect_hash(&rt, Alg::Sha256, b"abc", &rows::HASH_256_ABC);
    expect_hash(&rt, Alg::Sha256, &text, &rows::HASH_256_COUNTING);
    expect_hash(&rt, Alg::Sha384, &[], &rows::HASH_384_EMPTY);
    expect_hash(&rt, Alg::Sha384, b"abc", &rows::HASH_384_ABC);
    expect_hash(&rt, Alg::Sha384, &text, &rows::HASH_384_COUNTING);
    expect_hash(&rt, Alg::Sha512, &[], &rows::HASH_512_EMPTY);
    expect_hash(&rt, Alg::Sha512, b"abc", &rows::HASH_512_ABC);
    expect_hash(&rt, Alg::Sha512, &text, &rows::HASH_512_COUNTING);
}

// The cases of RFC 4231 but for the fifth, whose MAC is cut.
fn expect_cases(rt: &impl Abort, alg: Alg, want: [&[u8; 64]; 6]) {
    let [first, second, third, fourth, sixth, seventh] = want;
    let counting = counting::<25>(1);
    let sixth_text = b"Test Using Larger Than Block-Size Key - Hash Key First";
    let seventh_text =
        b"This is a test using a larger than block-size key and a larger than block-size data. The key needs to be hashed before being used by the HMAC algorithm.";
    expect_mac(rt, alg, &[0x0b; 20], b"Hi There", first);
    expect_mac(rt, alg, b"Jefe", b"what do ya want for nothing?", second);
    expect_mac(rt, alg, &[0xaa; 20], &[0xdd; 50], third);
    expect_mac(rt, alg, &counting, &[0xcd; 50], fourth);
    expect_mac(rt, alg, &[0xaa; 131], sixth_text, sixth);
    expect_mac(rt, alg, &[0xaa; 131], seventh_text, seventh);
}

#[test]
fn cases_of_rfc_4231_with_sha256(rt: HostRuntime) {
    let want = [
        &rows::CASE_256_1,
        &rows::CASE_256_2,
        &rows::CASE_256_3,
        &rows::CASE_256_4,
        &rows::CASE_256_6,
        &rows::CASE_256_7,
    ];
    expect_cases(&rt, Alg::Sha256, want);
}

#[test]
fn cases_of_rfc_4231_with_sha384(rt: HostRuntime) {
    let want = [
        &rows::CASE_384_1,
        &rows::CASE_384_2,
        &rows::CASE_384_3,
        &rows::CASE_384_4,
        &rows::CASE_384_6,
        &rows::CASE_384_7,
    ];
    expect_cases(&rt, Alg::Sha384, want);
}

#[test]
fn cases_of_rfc_4231_with_sha512(rt: HostRuntime) {
    let want = [
        &rows::CASE_512_1,
        &rows::CASE_512_2,
        &rows::CASE_512_3,
        &rows::CASE_512_4,
        &rows::CASE_512_6,
        &rows::CASE_512_7,
    ];
    expect_cases(&rt, Alg::Sha512, want);
}

#[test]
fn keys_around_a_block_with_sha256(rt: HostRuntime) {
    let text = counting::<200>(0);
    expect_mac(&rt, Alg::Sha256, &text[..0], &text, &rows::KEY_256_0);
    expect_mac(&rt, Alg::Sha256, &text[..1], &text, &rows::KEY_256_1);
    expect_mac(&rt, Alg::Sha256, &text[..63], &text, &rows::KEY_256_63);
    expect_mac(&rt, Alg::Sha256, &text[..64], &text, &rows::KEY_256_64);
    expect_mac(&rt, Alg::Sha256, &text[..65], &text, &rows::KEY_256_65);
    expect_mac(&rt, Alg::Sha256, &text[..127], &text, &rows::KEY_256_127);
    expect_mac(&rt, Alg::Sha256, &text[..128], &text, &rows::KEY_256_128);
    expect_mac(&rt, Alg::Sha256, &text[..129], &text, &rows::KEY_256_129);
    expect_mac(&rt, Alg::Sha256, &text[..131], &text, &rows::KEY_256_131);
    expect_mac(&rt, Alg::Sha256, &text[..200], &text, &rows::KEY_256_200);
}

#[test]
fn keys_around_a_block_with_sha384(rt: HostRuntime) {
    let text = counting::<200>(0);
    expect_mac(&rt, Alg::Sha384, &text[..0], &text, &rows::KEY_384_0);
    expect_mac(&rt, Alg::Sha384, &text[..1], &text, &rows::KEY_384_1);
    expect_mac(&rt, Alg::Sha384, &text[..63], &text, &rows::KEY_384_63);
    expect_mac(&rt, Alg::Sha384, &text[..64], &text, &rows::KEY_384_64);
    expect_mac(&rt, Alg::Sha384, &text[..65], &text, &rows::KEY_384_65);
    expect_mac(&rt, Alg::Sha384, &text[..127], &text, &rows::KEY_384_127);
    expect_mac(&rt, Alg::Sha384, &text[..128], &text, &rows::KEY_384_128);
    expect_mac(&rt, Alg::Sha384, &text[..129], &text, &rows::KEY_384_129);
    expect_mac(&rt, Alg::Sha384, &text[..131], &text, &rows::KEY_384_131);
    expect_mac(&rt, Alg::Sha384, &text[..200], &text, &rows::KEY_384_200);
}

#[test]
fn keys_around_a_block_with_sha512(rt: HostRuntime) {
    let text = counting::<200>(0);
    expect_mac(&rt, Alg::Sha512, &text[..0], &text, &rows::KEY_512_0);
    expect_mac(&rt, Alg::Sha512, &text[..1], &text, &rows::KEY_512_1);
    expect_mac(&rt, Alg::Sha512, &text[..63], &text, &rows::KEY_512_63);
    expect_mac(&rt, Alg::Sha512, &text[..64], &text, &rows::KEY_512_64);
    expect_mac(&rt, Alg::Sha512, &text[..65], &text, &rows::KEY_512_65);
    expect_mac(&rt, Alg::Sha512, &text[..127], &text, &rows::KEY_512_127);
    expect_mac(&rt, Alg::Sha512, &text[..128], &text, &rows::KEY_512_128);
    expect_mac(&rt, Alg::Sha512, &text[..129], &text, &rows::KEY_512_129);
    expect_mac(&rt, Alg::Sha512, &text[..131], &text, &rows::KEY_512_131);
    expect_mac(&rt, Alg::Sha512, &text[..200], &text, &rows::KEY_512_200);
}

#[test]
fn pieces_cut_at_every_place(rt: HostRuntime) {
    expect_cuts(&rt, Alg::Sha256, &rows::KEY_256_131);
    expect_cuts(&rt, Alg::Sha384, &rows::KEY_384_131);
    expect_cuts(&rt, Alg::Sha512, &rows::KEY_512_131);
}

// A copy goes its own way, and an empty piece adds nothing.
#[test]
fn copies_of_a_stream(rt: HostRuntime) -> Result<(), Fail> {
    let mut stream = MacStream::new(Alg::Sha256, &counting::<64>(0));
    stream.update(&counting::<100>(0));
    let mut copy = stream.clone()?;
    copy.update(b"another text");
    stream.update(&[]);
    stream.update(&counting::<100>(100));
    let mut out = [0xffu8; 64];
    stream.finish(&mut out);
    assert_eq!(rt; out, rows::KEY_256_64);
    copy.finish(&mut out);
    assert!(rt; out != rows::KEY_256_64);
    Ok(())
}

#[test]
fn leftmost_bytes(rt: HostRuntime) {
    expect_leftmost(&rt, Alg::Sha256, &rows::KEY_256_131);
    expect_leftmost(&rt, Alg::Sha384, &rows::KEY_384_131);
    expect_leftmost(&rt, Alg::Sha512, &rows::KEY_512_131);
}
