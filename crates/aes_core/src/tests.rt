//! Values of FIPS 197, and values computed with Python's `cryptography` and from the standard's text.
ghost use Rattle.std.specs.Prelude.{◌<◌, length, IsTrue};
ghost use Rattle.bits_core.specs.Parameters.{is_aes_length};

use crate::{Schedule, gctr, gctr_lanes, gctr_plain};
use std::process::Abort;
use std::test::Fail;

const COUNTED: [u8; 32] = [
    0x00, 0x01, 0x02, 0x03, 0x04, 0x05, 0x06, 0x07, 0x08, 0x09, 0x0a, 0x0b, 0x0c, 0x0d, 0x0e, 0x0f,
    0x10, 0x11, 0x12, 0x13, 0x14, 0x15, 0x16, 0x17, 0x18, 0x19, 0x1a, 0x1b, 0x1c, 0x1d, 0x1e, 0x1f,
];

/// A schedule of the key, the block of appendix C under it, and back.
fn check_vector(rt: &impl Abort, key: &[u8], last_key: [u8; 16], want: [u8; 16])
    requires { IsTrue (is_aes_length (length key.now)) }
{
    let text = [
        0x00, 0x11, 0x22, 0x33, 0x44, 0x55, 0x66, 0x77, 0x88, 0x99, 0xaa, 0xbb, 0xcc, 0xdd, 0xee,
        0xff,
    ];
    let mut schedule = Schedule::empty();
    schedule.expand(key);
    assert!(rt; schedule.last_key() == last_key);
    let mut block = text;
    schedule.encrypt(&mut block);
    assert!(rt; block == want);
    schedule.decrypt(&mut block);
    assert!(rt; block == text);
}

#[test]
fn key_of_16_bytes(rt: HostRuntime) {
    check_vector(
        &rt,
        &COUNTED[..16],
        [
            0x13, 0x11, 0x1d, 0x7f, 0xe3, 0x94, 0x4a, 0x17, 0xf3, 0x07, 0xa7, 0x8b, 0x4d, 0x2b,
            0x30, 0xc5,
        ],
        [
            0x69, 0xc4, 0xe0, 0xd8, 0x6a, 0x7b, 0x04, 0x30, 0xd8, 0xcd, 0xb7, 0x80, 0x70, 0xb4,
            0xc5, 0x5a,
        ],
    );
}

#[test]
fn key_of_24_bytes(rt: HostRuntime) {
    check_vector(
        &rt,
        &COUNTED[..24],
        [
            0xa4, 0x97, 0x0a, 0x33, 0x1a, 0x78, 0xdc, 0x09, 0xc4, 0x18, 0xc2, 0x71, 0xe3, 0xa4,
            0x1d, 0x5d,
        ],
        [
            0xdd, 0xa9, 0x7c, 0xa4, 0x86, 0x4c, 0xdf, 0xe0, 0x6e, 0xaf, 0x70, 0xa0, 0xec, 0x0d,
            0x71, 0x91,
        ],
    );
}

#[test]
fn key_of_32_bytes(rt: HostRuntime) {
    check_vector(
        &rt,
        &COUNTED[..32],
        [
            0x24, 0xfc, 0x79, 0xcc, 0xbf, 0x09, 0x79, 0xe9, 0x37, 0x1a, 0xc2, 0x3c, 0x6d, 0x68,
            0xde, 0x36,
        ],
        [
            0x8e, 0xa2, 0xb7, 0xca, 0x51, 0x67, 0x45, 0xbf, 0xea, 0xfc, 0x49, 0x90, 0x4b, 0x49,
            0x60, 0x89,
        ],
    );
}

/// Two blocks of zeros, enciphered under the key of zeros from the count 2^32 - 1 on: the second one is the
/// block of zeros under that key.
fn check_wrapped(rt: &impl Abort, text: &[u8; 32]) {
    assert!(rt;
        text[16..]
            == [
                0x66, 0xe9, 0x4b, 0xd4, 0xef, 0x8a, 0x2c, 0x3b, 0x88, 0x4c, 0xfa, 0x59, 0xca, 0x34,
                0x2b, 0x2e
            ]
    );
}

#[test]
fn counter_wraps_in_its_last_32_bits(rt: HostRuntime) {
    let mut schedule = Schedule::empty();
    schedule.expand(&[0; 16]);
    let start = [0, 0, 0, 0, 0, 0, 0, 0, 0, 0, 0, 0, 0xff, 0xff, 0xff, 0xff];
    let mut text = [0; 32];
    gctr(&schedule, &start, &mut text);
    check_wrapped(&rt, &text);
    let mut lanes = [0; 32];
    gctr_lanes(&schedule, &start, &mut lanes);
    check_wrapped(&rt, &lanes);
    let mut plain = [0; 32];
    gctr_plain(&schedule, &start, &mut plain);
    check_wrapped(&rt, &plain);
    schedule.wipe();
    assert!(rt; schedule.last_key() == [0; 16]);
}

/// A polynomial in 31 of the bytes, modulo 2^32.
fn checksum(bytes: &[u8]) -> u32 {
    let mut sum = 0u32;
    for byte in bytes {
        sum = sum.wrapping_mul(31).wrapping_add(u32::from(*byte));
    }
    sum
}

/// The checksum of the text 00, 01, .. fa, 00, .. of this length, enciphered by both calls.
fn enciphered_sum(
    rt: &(impl Abort + AllocGlobal),
    length: usize,
    start: &[u8; 16],
) -> Result<u32, Fail> {
    let mut schedule = Schedule::empty();
    schedule.expand(&COUNTED);
    let mut text = vec![in rt.alloc(); 0u8; length]?;
    for (i, byte) in text.iter_mut().enumerate() {
        *byte = (i % 251) as u8;
    }
    gctr(&schedule, start, &mut text);
    let sum = checksum(&text);
    gctr_plain(&schedule, start, &mut text);
    for (i, byte) in text.iter().enumerate() {
        assert!(rt; usize::from(*byte) == i % 251);
    }
    Ok(sum)
}

#[test]
fn each_length_of_tail(rt: HostRuntime) -> Result<(), Fail> {
    let start = [0, 1, 2, 3, 4, 5, 6, 7, 8, 9, 10, 11, 12, 13, 14, 15];
    let mut wraps = start;
    wraps[12] = 0xff;
    wraps[13] = 0xff;
    wraps[14] = 0xff;
    wraps[15] = 0xfe;
    for (length, sum, wrapped_sum) in [
        (0usize, 0u32, 0u32),
        (1, 0x0000005a, 0x0000008b),
        (15, 0x4884ccd3, 0x954676d6),
        (16, 0xc814ce2a, 0x13886455),
        (17, 0x3a84f786, 0x5d8426d8),
        (255, 0xfb6f5e57, 0x6b271154),
        (256, 0x727c6d5e, 0xf9bb1a23),
        (257, 0xdd113e76, 0x3da82a53),
        (65594, 0xab4ee479, 0xdaf4bd88),
    ] {
        assert_eq!(rt; enciphered_sum(&rt, length, &start)?, sum, "{length} bytes");
        assert_eq!(rt;
            enciphered_sum(&rt, length, &wraps)?,
            wrapped_sum,
            "{length} bytes, a start that wraps"
        );
    }
    Ok(())
}

/// The text 00, 01, .. fa, 00, .. of this length.
fn counted_text(rt: &impl AllocGlobal, length: usize) -> Result<Vec<u8>, Fail> {
    let mut text = vec![in rt.alloc(); 0u8; length]?;
    for (i, byte) in text.iter_mut().enumerate() {
        *byte = (i % 251) as u8;
    }
    Ok(text)
}

/// The checksum of the counted text of this length, enciphered alike by the three calls.
fn agreed_sum(
    rt: &(impl Abort + AllocGlobal),
    schedule: &Schedule,
    start: &[u8; 16],
    length: usize,
) -> Result<u32, Fail>
    requires { 0 < schedule.now.rounds }
{
    let mut text = counted_text(rt, length)?;
    gctr(schedule, start, &mut text);
    let mut lanes = counted_text(rt, length)?;
    gctr_lanes(schedule, start, &mut lanes);
    assert!(rt; lanes == text);
    let mut plain = counted_text(rt, length)?;
    gctr_plain(schedule, start, &mut plain);
    assert!(rt; plain == text);
    Ok(checksum(&text))
}

/// Each row has the last four bytes of the start, the checksum of those of the lengths 0 to 300, and that of
/// 65,594 bytes, of checks/aes_rows.py.
fn check_rows(
    rt: &(impl Abort + AllocGlobal),
    key_bytes: usize,
    rows: &[(u32, u32, u32)],
) -> Result<(), Fail>
    requires { IsTrue (is_aes_length key_bytes) }
{
    let mut schedule = Schedule::empty();
    schedule.expand(&COUNTED[..key_bytes]);
    for (last, short_sum, long_sum) in rows {
        let [a, b, c, d] = last.to_be_bytes();
        let start = [0, 1, 2, 3, 4, 5, 6, 7, 8, 9, 10, 11, a, b, c, d];
        let mut sum = 0u32;
        for length in 0..301usize {
            sum = sum
                .wrapping_mul(31)
                .wrapping_add(agreed_sum(rt, &schedule, &start, length)?);
        }
        assert_eq!(rt; sum, *short_sum, "a start that ends in {last:08x}");
        let sum = agreed_sum(rt, &schedule, &start, 65594)?;
        assert_eq!(rt; sum, *long_sum, "a start that ends in {last:08x}");
    }
    Ok(())
}

/// Starts that wrap behind each of the sixteen blocks of a group, and one that doesn't.
#[test]
fn kernels_agree_at_each_wrap(rt: HostRuntime) -> Result<(), Fail> {
    check_rows(
        &rt,
        32,
        &[
            (0xffffffff, 0xe78d2968, 0x0f455b8e),
            (0xfffffffe, 0x800d99b9, 0xdaf4bd88),
            (0xfffffffd, 0x48248075, 0xcbc2cbc1),
            (0xfffffffc, 0xfd253d4c, 0x0930ec05),
            (0xfffffffb, 0x2d55873b, 0x963ef8db),
            (0xfffffffa, 0x11d99f24, 0xe2dcba3f),
            (0xfffffff9, 0x8a153020, 0x0d4ffb4e),
            (0xfffffff8, 0xbf6a17e2, 0x83be8701),
            (0xfffffff7, 0x550be303, 0x3808b14b),
            (0xfffffff6, 0xabd41abd, 0x0b79da43),
            (0xfffffff5, 0x3cb0fe20, 0x2430a10c),
            (0xfffffff4, 0xd543b8e8, 0xb814194e),
            (0xfffffff3, 0x1cb3ca31, 0x0f13f4dd),
            (0xfffffff2, 0xe3b99542, 0x8d399ce9),
            (0xfffffff1, 0x5552aaa7, 0x253c4953),
            (0xfffffff0, 0x8c2dbfdf, 0xf9fe574b),
            (0x00000001, 0xcf0e51ef, 0x5b3e78b4),
        ],
    )
}

#[test]
fn kernels_agree_for_shorter_keys(rt: HostRuntime) -> Result<(), Fail> {
    check_rows(&rt, 16, &[(0xfffffff8, 0x9e94557b, 0x469f17a9)])?;
    check_rows(&rt, 24, &[(0xfffffff8, 0x0918bea6, 0x6e317f68)])
}

const BITS: [u8; 8] = [0x80, 0x40, 0x20, 0x10, 0x08, 0x04, 0x02, 0x01];

/// The checksum of a block enciphered under the first bytes of a key, from which deciphering leads back.
fn turned_sum(rt: &impl Abort, key: &[u8; 32], key_bytes: usize, block: &[u8; 16]) -> u32
    requires { IsTrue (is_aes_length key_bytes) }
{
    let mut schedule = Schedule::empty();
    schedule.expand(&key[..key_bytes]);
    let mut turned = *block;
    schedule.encrypt(&mut turned);
    let sum = checksum(&turned);
    schedule.decrypt(&mut turned);
    assert!(rt; turned == *block);
    sum
}

/// The checksum of those of the blocks of one bit under the key of zeros.
fn sum_of_blocks(rt: &impl Abort, key_bytes: usize) -> u32
    requires { IsTrue (is_aes_length key_bytes) }
{
    let key = [0u8; 32];
    let mut sum = 0u32;
    for bit in 0..128usize {
        let mut block = [0u8; 16];
        block[bit / 8] = BITS[bit % 8];
        sum = sum
            .wrapping_mul(31)
            .wrapping_add(turned_sum(rt, &key, key_bytes, &block));
    }
    sum
}

/// The checksum of those of the block of zeros under the keys of one bit.
fn sum_of_keys(rt: &impl Abort, key_bytes: usize) -> u32
    requires { IsTrue (is_aes_length key_bytes) }
{
    let mut sum = 0u32;
    for bit in 0..8 * key_bytes {
        let mut key = [0u8; 32];
        key[bit / 8] = BITS[bit % 8];
        sum = sum
            .wrapping_mul(31)
            .wrapping_add(turned_sum(rt, &key, key_bytes, &[0; 16]));
    }
    sum
}

/// Length of the key, and the two checksums of checks/aes_rows.py.
#[test]
fn blocks_and_keys_of_one_bit(rt: HostRuntime) {
    for (key_bytes, blocks, keys) in [
        (16usize, 0x18747736u32, 0x93e123d6u32),
        (24, 0x4d9e67a6, 0x21cbbcc2),
        (32, 0x03e8aca2, 0xc50669b8),
    ] {
        assert_eq!(rt;
            sum_of_blocks(&rt, key_bytes),
            blocks,
            "a key of {key_bytes} bytes"
        );
        assert_eq!(rt;
            sum_of_keys(&rt, key_bytes),
            keys,
            "a key of {key_bytes} bytes"
        );
    }
}
