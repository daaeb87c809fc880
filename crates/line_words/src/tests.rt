//! Words of each form, and words of none.
use crate::{bytes_length, first_word, number_of, read_bytes};
use std::process::Abort;

// The number of words of a line.
fn count_words(line: &[u8]) -> usize {
    let mut rest = Some(line);
    let mut count = 0usize;
    for _ in 0..=line.len() {
        if let Some(left) = rest {
            count = count.saturating_add(1);
            rest = first_word(left).rest;
        }
    }
    count
}

fn expect_words(rt: &impl Abort, line: &[u8], count: usize) {
    assert_eq!(rt; count_words(line), count);
}

#[test]
fn spaces_part_words(rt: HostRuntime) {
    expect_words(&rt, b"", 1);
    expect_words(&rt, b"status", 1);
    expect_words(&rt, b"a b", 2);
    expect_words(&rt, b"a  b", 3);
    expect_words(&rt, b" a", 2);
    expect_words(&rt, b"a ", 2);
    expect_words(&rt, b"a\tb", 1);
    assert_eq!(rt; first_word(b"ab cd").word, b"ab".as_slice());
    assert!(rt; first_word(b"  ab").word.is_empty());
}

fn expect_number(rt: &impl Abort, word: &[u8], most: u64, number: Option<u64>) {
    assert_eq!(rt; number_of(word, most), number);
}

#[test]
fn numbers_without_leading_zeros(rt: HostRuntime) {
    expect_number(&rt, b"0", 255, Some(0));
    expect_number(&rt, b"255", 255, Some(255));
    expect_number(&rt, b"256", 255, None);
    expect_number(&rt, b"4294967295", 4_294_967_295, Some(4_294_967_295));
    expect_number(&rt, b"4294967296", 4_294_967_295, None);
    expect_number(&rt, b"18446744073709551615", u64::MAX, Some(u64::MAX));
    expect_number(&rt, b"18446744073709551616", u64::MAX, None);
    expect_number(
        &rt,
        b"340282366920938463463374607431768211456",
        u64::MAX,
        None,
    );
}

#[test]
fn no_numbers(rt: HostRuntime) {
    let words: [&[u8]; 9] = [
        b"", b"00", b"01", b"+1", b"-1", b"1 ", b"1a", b"0x1", b"1_0",
    ];
    for word in words {
        expect_number(&rt, word, u64::MAX, None);
    }
}

#[test]
fn lengths_of_bytes(rt: HostRuntime) {
    assert_eq!(rt; bytes_length(b"-"), Some(0));
    assert_eq!(rt; bytes_length(b"00"), Some(1));
    assert_eq!(rt; bytes_length(b"09afAF"), Some(3));
    let words: [&[u8]; 7] = [b"", b"0", b"000", b"--", b"-0", b"0g", b" 0"];
    for word in words {
        assert_eq!(rt; bytes_length(word), None);
    }
}

#[test]
fn digits_of_either_case(rt: HostRuntime) {
    let mut bytes = [0u8; 4];
    if bytes_length(b"09afAF7e") == Some(4) {
        read_bytes(b"09afAF7e", &mut bytes);
    }
    assert_eq!(rt; bytes, [0x09u8, 0xaf, 0xaf, 0x7e]);
}
