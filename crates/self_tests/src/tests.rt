//! Each test with the shipped engine and with one that is wrong in its call; sets of tests; the integrity of an image.
use crate::table::{DERIVATION_KEY, DERIVED, ENTROPY, GENERATED, NONCE, RESEED_ENTROPY};
use crate::{Test, Tested, integrity, known_answer};
use bits_core::Alg;
use engine_core::{Engine, Faulty, Shipped};
use hmac_core::MacStream;
use std::process::Abort;

// HMAC-SHA-256 of the bytes 616263 under the image key, by Python's hmac.
const IMAGE_DIGEST: [u8; 32] = [
    0xf0, 0x13, 0x37, 0x29, 0xc4, 0x16, 0x3d, 0xed, 0xe8, 0x1e, 0x21, 0xcd, 0x47, 0x83, 0x92, 0x56,
    0xda, 0x58, 0x17, 0x12, 0x38, 0xc8, 0xa0, 0xd8, 0x74, 0x39, 0x7c, 0x73, 0xb1, 0x4e, 0x1e, 0x47,
];

// The number of each test, a call of the engine that it makes, and how often it makes it.
const CALLS: [(u8, u8, u32); 16] = [
    (1, 0, 1),
    (2, 0, 1),
    (3, 0, 1),
    (4, 1, 1),
    (5, 1, 1),
    (6, 1, 1),
    (7, 2, 1),
    (8, 3, 2),
    (9, 4, 1),
    (10, 5, 1),
    (11, 4, 1),
    (12, 5, 1),
    (13, 6, 1),
    (14, 7, 1),
    (14, 8, 1),
    (14, 9, 1),
];

fn answer<E: Engine>(rt: &impl Abort, engine: &mut E, number: u8) -> bool {
    let test = Test::new(number).expect(rt, "the number of a test");
    assert_eq!(rt; test.number(), number);
    let mut work = [0; 256];
    known_answer(engine, test, &mut work)
}

#[test]
fn the_shipped_engine_is_right(rt: HostRuntime) {
    for number in 1..=14 {
        assert!(&rt; answer(&rt, &mut Shipped::new(), number));
    }
}

#[test]
fn an_engine_wrong_in_a_call_is_found(rt: HostRuntime) {
    for (number, call, _) in CALLS {
        assert!(&rt; call <= 9);
        assert!(&rt; !answer(&rt, &mut Faulty::new(call, 0, 0), number));
    }
}

#[test]
fn each_call_is_made_as_often_as_it_stands_there(rt: HostRuntime) {
    for (number, call, times) in CALLS {
        assert!(&rt; call <= 9);
        let mut engine = Faulty::new(call, times, 7);
        assert!(&rt; answer(&rt, &mut engine, number));
        assert_eq!(&rt; engine.left, 0);
    }
}

#[test]
fn tests_have_the_numbers_1_to_14(rt: HostRuntime) {
    for number in [0, 15, 16, 255] {
        assert!(&rt; Test::new(number).is_none());
    }
}

#[test]
fn a_set_has_what_was_added(rt: HostRuntime) {
    let mut tested = Tested::empty();
    tested.add(Test::HmacSha256);
    tested.add(Test::Generator);
    tested.add(Test::HmacSha256);
    assert_eq!(&rt; tested.bits(), 0x4010);
    assert!(&rt; tested.has(Test::HmacSha256));
    assert!(&rt; tested.has(Test::Generator));
    assert!(&rt; !tested.has(Test::HmacSha384));
}

// Whether an image has a digest in which bits of a byte are turned.
fn image_is_right(image: &[u8], place: usize, mask: u8) -> bool {
    let mut digest = IMAGE_DIGEST;
    if place < 32 {
        digest[place] ^= mask;
    }
    integrity(&mut Shipped::new(), image, &digest)
}

#[test]
fn a_bit_of_image_or_digest_is_found(rt: HostRuntime) {
    assert!(&rt; image_is_right(b"abc", 0, 0));
    assert!(&rt; !image_is_right(b"abb", 0, 0));
    assert!(&rt; !image_is_right(b"abc", 0, 0x80));
    assert!(&rt; !image_is_right(b"abc", 31, 0x01));
    assert!(&rt; !image_is_right(b"", 0, 0));
    assert!(&rt; !integrity(&mut Faulty::new(1, 0, 0), b"abc", &IMAGE_DIGEST));
}

// HMAC-SHA-256 of three pieces joined.
fn mac(key: &[u8], first: &[u8], second: &[u8], third: &[u8]) -> [u8; 32] {
    let mut stream = MacStream::new(Alg::Sha256, key);
    stream.update(first);
    stream.update(second);
    stream.update(third);
    stream.finish_leftmost()
}

// Half an Update of the generator, by K, V, a byte and input (SP 800-90A Rev. 1, 10.1.2.2).
fn mixed(
    key: &[u8; 32],
    value: &[u8; 32],
    byte: &[u8; 1],
    seed: &[u8],
    nonce: &[u8],
) -> ([u8; 32], [u8; 32]) {
    let mut stream = MacStream::new(Alg::Sha256, key);
    stream.update(value);
    stream.update(byte);
    stream.update(seed);
    stream.update(nonce);
    let next = stream.finish_leftmost();
    (next, mac(&next, value, &[], &[]))
}

#[test]
fn the_last_two_answers_are_those_of_their_standards(rt: HostRuntime) {
    let derived = mac(
        &DERIVATION_KEY,
        b"\x00\x00\x00\x01label",
        b"\x00context",
        b"\x00\x00\x01\x00",
    );
    assert_eq!(&rt; derived, DERIVED);
    let (key, value) = mixed(&[0; 32], &[1; 32], &[0], &ENTROPY, &NONCE);
    let (key, value) = mixed(&key, &value, &[1], &ENTROPY, &NONCE);
    let (key, value) = mixed(&key, &value, &[0], &RESEED_ENTROPY, &[]);
    let (key, value) = mixed(&key, &value, &[1], &RESEED_ENTROPY, &[]);
    assert_eq!(&rt; mac(&key, &value, &[], &[]), GENERATED);
}
