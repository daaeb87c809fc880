//! Published answers, and the tables of `checks/key_wrap_rows.py`.
ghost use Rattle.std.specs.Prelude.{◌≤◌, ◌<◌};

use crate::{unwrap, unwrap_pad, wrap, wrap_pad};
use aes_core::Schedule;
use std::process::Abort;

/// With padding or not, bytes of key and of plaintext, and the wrapping.
const ROWS: [(bool, usize, usize, &str); 41] = [
    (
        false,
        16,
        16,
        "861dfe4c2b3f72048e95495adce396c3b28adf53a5907ba7",
    ),
    (
        false,
        16,
        24,
        "6b40224de3a3ff5ed4c24b6ce03f1527e68e70b348879b35cca0ca7d5801247f",
    ),
    (
        false,
        16,
        32,
        "2d322ac702b7a8fe3d6f2e768da669e42ce324b20f96a815064d634c581338692b4695a8e193fe52",
    ),
    (
        false,
        16,
        40,
        "764333dfaea5c4fafc55e01ee6ccd8127fe4fef0d5a02cde645efb1c4ca90d21b2e07129802882d8680d5a1dd8e4a971",
    ),
    (
        false,
        16,
        48,
        "0cc90486b088f537d9c2b50f7b9c5d51bb6775ba11521ed4d8be14cfb825ebc79ea628358db04606eb42621c91385172c7bc9d60229e4efd",
    ),
    (
        false,
        16,
        56,
        "5282177f687ecd6fa26c37b569202ccf54078d71b32d38e349c983e3f27c4e898a8b3096bbde7917082dc7d3d3044beb4c4dde0bb8e6e73ca783b916eab87a70",
    ),
    (
        false,
        16,
        64,
        "58f44fb149b834c4deff42d9f0585e3e651f373628fc552013527afab1a50b788763b9ed8f4a61c4aa086f363161f55f913438cb187da7decad3d149872765edb908bebfcefcf2ef",
    ),
    (
        false,
        24,
        16,
        "9b649af38f41ee4cb125ba053ffcc681cf42a93282cd6a3c",
    ),
    (
        false,
        24,
        24,
        "e59f4c5287c95a51cb0aa9900204f5c145589c3493e7daa9e75de5cfccd12196",
    ),
    (
        false,
        24,
        32,
        "9c1b46102389d29219afddb27065d98be8cfa8db1c9a2b2752b9ddb7ed49d7b06bd94bd5b087f29d",
    ),
    (
        false,
        24,
        40,
        "9c6c03cf47475473d94e117c3269597bcbf7118ed0a92e21754361dd07bd11f7aa04381efbc8d8d617dcb4e4d656a3c6",
    ),
    (
        false,
        24,
        48,
        "1de5a97e3303510be5d44cd210d5abbcf4ccdb33eb124adefba09afa624eabb45e3b1d58d7d1995951dc8872463bd5c076e0fae8d5844188",
    ),
    (
        false,
        24,
        56,
        "27a4223ae63940932c25ac85d71b5176bbb44dd9847c9103046476cb7d151c434621bbf4365eb542f6dc731f464b2c6c826295e7a432e3256fd9c2fd24bafe50",
    ),
    (
        false,
        24,
        64,
        "27e4413acdcab649ce304136fa36393ecbe6022db0c74031d3df3ca023e0c8171d8f5ea6b7aefc04aaef7b3a036ea0c04947de4bfed30ac9fd2c4df5f1a5969585410a0e75e4f83f",
    ),
    (
        false,
        32,
        16,
        "97af3e16b42ba08445b8391e5552e36c252c2681837fb1c9",
    ),
    (
        false,
        32,
        24,
        "f4580c2ab68fe154f9563248faae128774d32333ad1f49dc572d80f26e449570",
    ),
    (
        false,
        32,
        32,
        "8166e1f233ef7fc3b6656ac82400a6ca47c96aa447f550ebaf215d0bb25e0191982cff7fa486bf59",
    ),
    (
        false,
        32,
        40,
        "b75fb272f0fa881832efab66d5cf16fd88cb7b670612a8d6058a0587624b2fce58a058ef3f13c8b1b65694ff6c192142",
    ),
    (
        false,
        32,
        48,
        "e657d424204d2eb8147c2ab51b17dd5238df2f3eab87ba61c95928c0da2db23dcf5d537632f5f292b3b5ec11bca8326806f608030599d1ab",
    ),
    (
        false,
        32,
        56,
        "a04330e0222cdf4e999bb7accf64bc6165db8d0db18ad02f046105b8b886e5eda68b19d41f5f8f9e0c6bbaae0019e0bff414c2fef3cfbad979a1011786ed56a3",
    ),
    (
        false,
        32,
        64,
        "c3dbd45cb48dece15c7370a362423e2b273600b817486d0f9383c1a0c2fb0577d15214952962077b4840585e089db78b073277971718abcb21e4362987a45809bf8d7302de97ae0c",
    ),
    (true, 16, 1, "c68f27db4babc4b2062ab7321595b8de"),
    (true, 24, 2, "4efda08afaa917eaa58873c7783a617c"),
    (true, 32, 7, "d6b78444b09bba057b8f468a980da1d7"),
    (true, 16, 8, "4a2b41b41863d9dbb5ecd72058119a50"),
    (
        true,
        24,
        9,
        "103b41c54fbd7400e1ed1fe7df1c3fa7eeaadf02bbbacbd7",
    ),
    (
        true,
        32,
        15,
        "0f245d0de39ca328787c02f12573ed2978aa469c0c0f5014",
    ),
    (
        true,
        16,
        16,
        "619b83c616dfee873c58628293b43d974682f24eed94831c",
    ),
    (
        true,
        24,
        17,
        "a4e8cf7a4566613bbebbf6ed9853bf729cec36a425f44241e5229fcf9df31b6e",
    ),
    (
        true,
        32,
        20,
        "90210c53628d863b91dd5d1a1b75a21b26f9693120dfbdc837e1ab699a1597e2",
    ),
    (
        true,
        16,
        24,
        "4f7a7557b352d58230af5dcffc0e46ed1b3e314d8413482f0c4a204dedc0045d",
    ),
    (
        true,
        24,
        31,
        "d858213a7925ba2497ea1709e022620d55933a2b81f4ae04cafff85af5648e39ae36ff10e1f8fd27",
    ),
    (
        true,
        32,
        32,
        "c758f222801789afbe783886285df09ebb576d2d76657811280a2291eb9c346a2a5895a135f6e758",
    ),
    (
        true,
        16,
        33,
        "0a15607866a5ad0e6d4ecfa85be145d1758b072698bdc390d85f32cc2fc75e3520cfc6da5cb4f765fca0d55f72bfe992",
    ),
    (
        true,
        24,
        40,
        "999d358c9690ca3421bf3584c664fef088afe304e86a8484e5be16201d86f300f6fe074ddce056233fef0f4dbda244d1",
    ),
    (
        true,
        32,
        47,
        "be4419360b1fec59f92a3aca2a57bfcb850fd11fa8d25dd07c623fe33c0ff590517bd038c7c2ffbc2a1fdad6cae0d6411577c766a70df617",
    ),
    (
        true,
        16,
        48,
        "9a3a82b600df8078171ba572145217fdd4990a3f32524d71fbf89aeb55df73767031fa742b293a2e9c31c55f2921b1af7d24731baf51c3cb",
    ),
    (
        true,
        24,
        55,
        "a802389fc57090af0f5d2325b7e1096c7d5afc8a7ffd5d2dfe84c8f137d52380c6a1605a50e61b76c73a8d7c2c1ccfd98dc251e6366d438afa7765800cf1ef10",
    ),
    (
        true,
        32,
        56,
        "39a538cbf9445381bf2430e97fdfdafea4be9a444d16329e7928a6d45d3bd344e4c645c7c629558db83e87f996d85fa06a1e248cf93329a6f68986996317cd84",
    ),
    (
        true,
        16,
        63,
        "8d84443047079f9a27a891b9ace735f0381e037d7a59e7afaec9976bbd45b80185d5769a3034fb6ba12d1557e9d5e2149190eb62833e47345a1ea6d575971dd312b98ac93de688d7",
    ),
    (
        true,
        24,
        64,
        "c48f2efe649ba3ea5ee766999542e606fd5642df2bdb0a2a8b580fd65d0dbe5fad25013bac80de876e3781f64f0c0e4a8f2a1b798fb021147160603692e324051c8760b91a0cad73",
    ),
];

/// What `unwrap_pad` is given under the key of 32 bytes, and whether that is a wrapping.
const PADDED: [(&str, bool, &str); 15] = [
    (
        "a plaintext of 9 bytes",
        true,
        "de22ff03bd6bffdb0d833769263cb4e57b307050f3353bb4",
    ),
    (
        "the last byte of padding is 1",
        false,
        "98cdf86e7e8a52c6f4c79ae85be0e745e1486dccfa765018",
    ),
    (
        "the first byte of padding is 128",
        false,
        "598ba8725f11eaab7b07b98a02b5f3e944f585fc009a1bde",
    ),
    (
        "one block whose padding is 1",
        false,
        "8c1d055dbbe92bd094a6785a88963ed2",
    ),
    (
        "nine semiblocks whose padding is 1",
        false,
        "34b4a28368f388a8de4a488653d5605515b347d80f81123bbf08c6cd42ec43971de25ad8524f68fad56d91c1ca528ce5b49c0b55cd64d10296a3ae30fccfa4d20c3a5083234964a3",
    ),
    (
        "one block of length 0",
        false,
        "5c9cd21518350a43634f00464bb8b9c0",
    ),
    (
        "three semiblocks of length 0",
        false,
        "4563ce983ba2d62f5020ebbb6a7ccf34c7418d8edb75060e",
    ),
    (
        "one block of length 9",
        false,
        "d9c8fbf7d040099f14f6983307d89a6d",
    ),
    (
        "three semiblocks of length 17",
        false,
        "f9112e76ff16a00c197aded039d46958081de77d4205ae3f",
    ),
    (
        "the greatest length",
        false,
        "1d94dbfc9e89774ee3c5bfd43072ac6aa0db44fc2f443cd5",
    ),
    (
        "a length beyond 16 bits",
        false,
        "04363d8c8f0849ca8139f1a66b1d81997f0a993c454d08a8",
    ),
    (
        "eight bytes of padding",
        false,
        "03c99de67d0f88fbe65c96d178d99e7125e15ff3856a05f6",
    ),
    (
        "fifteen bytes of padding",
        false,
        "506eb6d05d8d1d3b8b4c4ef1c004986d3fb5595a9193a69d",
    ),
    (
        "half of the check value",
        false,
        "dff00a78e2ee896d04f359389a7f924643448cfae7dd06dd",
    ),
    (
        "the other half",
        false,
        "e7d56c4bd6e7b3446c873407ba1500355451dc7a482fc60c",
    ),
];

/// What W makes of other check values than that of KW, under the key of 32 bytes.
const OTHER_CHECK_VALUES: [(&str, &str); 4] = [
    (
        "a6a6a6a6a6a6a6a7",
        "e4ff19e8e70087d19a6ea2f3bb02e79554fa13c67a1b4e6d",
    ),
    (
        "26a6a6a6a6a6a6a6",
        "e024b43604de535eecbf0562ea95a25b2bfe87700dc39419",
    ),
    (
        "a6a6a6a600000000",
        "129d0aec204c658d1756b9dec54e76c0f6859981c4e9f6b7",
    ),
    (
        "a65959a600000010",
        "1119d91f36d0a54da55e920654c0916fa82f8cdcaa32a463",
    ),
];

/// A schedule of 16, 24 or 32 bytes of key.
fn schedule_of(length: usize) -> Schedule
    ensures { 0 < result.rounds }
{
    let mut key = [0u8; 32];
    for i in 0usize..32 {
        key[i] = 7 * i as u8 + 1;
    }
    let mut schedule = Schedule::empty();
    match length {
        16 => schedule.expand(&key[..16]),
        24 => schedule.expand(&key[..24]),
        _ => schedule.expand(&key),
    }
    schedule
}

/// Byte i of a plaintext.
fn text_byte(i: usize) -> u8
    requires { i < 64 }
{
    3 * i as u8 + 2
}

/// A plaintext, with other bytes after it.
fn text_of(length: usize) -> [u8; 80] {
    let mut buf = [0xeeu8; 80];
    for i in 0usize..length.min(64) {
        buf[i] = text_byte(i);
    }
    buf
}

/// The value of a hexadecimal digit.
fn digit(rt: &impl Abort, code: u8) -> u8
    ensures { result < 16 }
{
    match code {
        b'0'..=b'9' => code - b'0',
        b'a'..=b'f' => code - b'a' + 10,
        _ => {
            assert!(rt; false, "no digit");
            0
        }
    }
}

/// The bytes of a row, with the byte `after` after them.
fn bytes_of(rt: &impl Abort, row: &str, after: u8) -> [u8; 80] {
    let digits = row.as_bytes();
    assert!(rt; digits.len() <= 144);
    let mut buf = [after; 80];
    for i in 0usize..digits.len() / 2 {
        buf[i] = 16 * digit(rt, digits[2 * i]) + digit(rt, digits[2 * i + 1]);
    }
    buf
}

/// The buffer is this row, with zeros after it.
fn is_row(rt: &impl Abort, buf: &[u8; 80], row: &str) {
    let want = bytes_of(rt, row, 0);
    assert!(rt; *buf == want, "{buf:?} in place of {row}");
}

fn is_zero(rt: &impl Abort, buf: &[u8; 80]) {
    assert!(rt; *buf == [0; 80], "a byte is left");
}

/// The buffer is the plaintext of this length, with zeros after it.
fn is_text(rt: &impl Abort, buf: &[u8; 80], length: usize) {
    let mut want = text_of(length);
    for i in length.min(64)..80 {
        want[i] = 0;
    }
    assert!(rt;
        *buf == want,
        "{buf:?} in place of the plaintext of {length}"
    );
}

/// Unwraps by the call that the row names.
fn unwrapped(
    rt: &impl Abort,
    schedule: &Schedule,
    padded: bool,
    buf: &mut [u8; 80],
    length: usize,
) -> Option<usize>
    requires { 0 < schedule.now.rounds }
{
    assert!(rt; length <= 72 && length % 8 == 0);
    if padded {
        assert!(rt; 16 <= length);
        unwrap_pad(schedule, buf, length)
    } else {
        assert!(rt; 24 <= length);
        unwrap(schedule, buf, length)
    }
}

/// Unwraps a wrapping with one bit turned in each of its semiblocks, one after another.
fn refuses_turned(rt: &impl Abort, schedule: &Schedule, padded: bool, wrapping: &str)
    requires { 0 < schedule.now.rounds }
{
    let size = wrapping.len() / 2;
    assert!(rt; size <= 72);
    for i in 0usize..size / 8 {
        let mut buf = bytes_of(rt, wrapping, 0xee);
        buf[8 * i + i % 8] ^= 1 << (i % 8) as u32;
        let answer = unwrapped(rt, schedule, padded, &mut buf, size);
        assert_eq!(rt; answer, None, "semiblock {i} of {wrapping}");
        is_zero(rt, &buf);
    }
}

/// Wraps the row's plaintext by the call that the row names.
fn wrapped(
    rt: &impl Abort,
    schedule: &Schedule,
    padded: bool,
    buf: &mut [u8; 80],
    length: usize,
) -> usize
    requires { 0 < schedule.now.rounds }
{
    assert!(rt; length <= 64);
    if padded {
        assert!(rt; 1 <= length);
        wrap_pad(schedule, buf, length)
    } else {
        assert!(rt; 16 <= length && length % 8 == 0);
        wrap(schedule, buf, length)
    }
}

/// Wraps the row's plaintext, unwraps it, and turns bits.
fn try_row(rt: &impl Abort, padded: bool, key_length: usize, length: usize, wrapping: &str) {
    let schedule = schedule_of(key_length);
    let mut buf = text_of(length);
    let size = wrapped(rt, &schedule, padded, &mut buf, length);
    assert_eq!(rt; size, wrapping.len() / 2);
    is_row(rt, &buf, wrapping);
    let mut given = bytes_of(rt, wrapping, 0xee);
    let answer = unwrapped(rt, &schedule, padded, &mut given, size);
    assert_eq!(rt; answer, Some(length));
    is_text(rt, &given, length);
    refuses_turned(rt, &schedule, padded, wrapping);
}

#[test]
fn agrees_with_pythons_cryptography(rt: HostRuntime) {
    for (padded, key_length, length, wrapping) in ROWS {
        try_row(&rt, padded, key_length, length, wrapping);
    }
}

#[test]
fn padding_is_checked_whole(rt: HostRuntime) {
    let schedule = schedule_of(32);
    for (name, right, wrapping) in PADDED {
        let mut buf = bytes_of(&rt, wrapping, 0xee);
        let answer = unwrapped(&rt, &schedule, true, &mut buf, wrapping.len() / 2);
        assert_eq!(rt; answer.is_some(), right, "{name}");
        is_text(&rt, &buf, answer.unwrap_or(0));
        if !right {
            is_zero(&rt, &buf);
        }
    }
}

#[test]
fn other_check_values_are_refused(rt: HostRuntime) {
    let schedule = schedule_of(32);
    for (value, wrapping) in OTHER_CHECK_VALUES {
        let mut buf = bytes_of(&rt, wrapping, 0xee);
        let answer = unwrapped(&rt, &schedule, false, &mut buf, wrapping.len() / 2);
        assert_eq!(rt; answer, None, "{value}");
        is_zero(&rt, &buf);
    }
}

#[test]
fn published_kw(rt: HostRuntime) {
    let mut schedule = Schedule::empty();
    schedule.expand(&[0, 1, 2, 3, 4, 5, 6, 7, 8, 9, 10, 11, 12, 13, 14, 15]);
    let plain = "00112233445566778899aabbccddeeff";
    let want = "1fa68b0a8112b447aef34bd8fb5a7b829d3e862371d2cfe5";
    let mut buf = bytes_of(&rt, plain, 0xee);
    assert_eq!(rt; wrap(&schedule, &mut buf, 16), 24);
    is_row(&rt, &buf, want);
    assert_eq!(rt; unwrap(&schedule, &mut buf, 24), Some(16));
    is_row(&rt, &buf, plain);
    let mut other = bytes_of(
        &rt,
        "1fa68b0a8112b447aef34bd8fb5a7b829d3e862371d2cfe4",
        0xee,
    );
    assert_eq!(rt; unwrap(&schedule, &mut other, 24), None);
    is_zero(&rt, &other);
}

#[test]
fn published_kwp(rt: HostRuntime) {
    let mut schedule = Schedule::empty();
    schedule.expand(&[
        0x58, 0x40, 0xdf, 0x6e, 0x29, 0xb0, 0x2a, 0xf1, 0xab, 0x49, 0x3b, 0x70, 0x5b, 0xf1, 0x6e,
        0xa1, 0xae, 0x83, 0x38, 0xf4, 0xdc, 0xc1, 0x76, 0xa8,
    ]);
    let mut buf = bytes_of(&rt, "466f7250617369", 0xee);
    assert_eq!(rt; wrap_pad(&schedule, &mut buf, 7), 16);
    is_row(&rt, &buf, "afbeb0f07dfbf5419200f2ccb50bb24f");
    assert_eq!(rt; unwrap_pad(&schedule, &mut buf, 16), Some(7));
    is_row(&rt, &buf, "466f7250617369");
}
