// Words and files: what each of them is refused for, in which order, and the line of a digest.
use crate::run;
use engine_core::Shipped;
use outside::{MemFiles, MemSink, MemSource, Sample};
use program_words::digest_of;
use std::alloc::Global;
use std::test::Fail;

/// The words that serve the files of `files_of`.
pub const SERVE: [&str; 4] = ["serve", "image", "digest", "noise"];

const OPERATE: [&str; 4] = ["operate", "image", "digest", "noise"];

const SESSION: [&str; 6] = ["session", "7", "0", "image", "digest", "noise"];

// The largest numbers that a session's words may spell, and no digest file.
const LARGEST: [&str; 6] = [
    "session",
    "18446744073709551615",
    "100000",
    "image",
    "none",
    "noise",
];

// HMAC-SHA-256 of the bytes 616263 under the key of the bytes 00 to 1f, by Python's hmac.
const SPELLED: [u8; 32] = [
    0xf0, 0x13, 0x37, 0x29, 0xc4, 0x16, 0x3d, 0xed, 0xe8, 0x1e, 0x21, 0xcd, 0x47, 0x83, 0x92, 0x56,
    0xda, 0x58, 0x17, 0x12, 0x38, 0xc8, 0xa0, 0xd8, 0x74, 0x39, 0x7c, 0x73, 0xb1, 0x4e, 0x1e, 0x47,
];

/// Its digits.
pub const DIGEST: &[u8] = b"f0133729c4163dede81e21cd47839256da58171238c8a0d874397c73b14e1e47";

const LINE: &[u8] = b"f0133729c4163dede81e21cd47839256da58171238c8a0d874397c73b14e1e47\n";

const UPPER: &[u8] = b"F0133729C4163DEDE81E21CD47839256DA58171238C8A0D874397C73B14E1E47\n";

/// Words on the heap.
pub fn words_of(alloc: Global, words: &[&str]) -> Result<Vec<String>, Fail> {
    let mut all = Vec::new(alloc);
    for word in words {
        all.push(String::from_str(alloc, word)?)?;
    }
    Ok(all)
}

/// An image, the file of its digest and noise of no event, under the names of `SERVE`. These calls on them fail.
pub fn files_of(
    alloc: Global,
    image: Vec<u8>,
    digest: &[u8],
    fail: &[u64],
) -> Result<MemFiles, Fail> {
    let mut files = Vec::new(alloc);
    files.push((String::from_str(alloc, "image")?, image))?;
    files.push((String::from_str(alloc, "digest")?, digest.to_vec(alloc)?))?;
    let mut noises: Vec<(String, Vec<Sample>)> = Vec::new(alloc);
    noises.push((String::from_str(alloc, "noise")?, Vec::new(alloc)))?;
    Ok(MemFiles::new(files, noises, fail.to_vec(alloc)?))
}

// Runs the words over these files, with an input of one bad frame and a sink that takes seven bytes at a time.
fn with_files(
    alloc: Global,
    words: &[&str],
    mut files: MemFiles,
    writes: &[u64],
) -> Result<(u8, MemSink), Fail> {
    let words = words_of(alloc, words)?;
    let mut commands = MemSource::new(b"\xc4".to_vec(alloc)?, 8, Vec::new(alloc));
    let mut replies = MemSink::new(alloc, 65, 7, writes.to_vec(alloc)?)?;
    let status = run(
        alloc,
        &words,
        &mut files,
        &mut commands,
        &mut replies,
        Shipped::new(),
    );
    Ok((status, replies))
}

// The status over the image 616263 and a digest file, where these calls on files fail.
fn status(alloc: Global, words: &[&str], digest: &[u8], fail: &[u64]) -> Result<u8, Fail> {
    let files = files_of(alloc, b"abc".to_vec(alloc)?, digest, fail)?;
    let (status, replies) = with_files(alloc, words, files, &[])?;
    if replies.bytes().is_empty() {
        Ok(status)
    } else {
        Err("something was written")?
    }
}

#[test]
fn knows_no_other_words(rt: HostRuntime) -> Result<(), Fail> {
    let rows: [&[&str]; 27] = [
        &[],
        &["serve"],
        &["serve", "image"],
        &["serve", "image", "digest"],
        &["serve", "image", "digest", "noise", "noise"],
        &["Serve", "image", "digest", "noise"],
        &["digest"],
        &["digest", "image", "digest"],
        &["digest", "image", "digest", "noise"],
        &["Digest", "image"],
        &["operate"],
        &["operate", "image", "digest"],
        &["vectors", "image"],
        &["Vectors"],
        &["check", "image"],
        &["Check"],
        &["session", "7", "0"],
        &["session", "7", "0", "image", "digest"],
        &["session", "7", "0", "image", "digest", "noise", "noise"],
        &["session", "07", "0", "image", "digest", "noise"],
        &["session", "-1", "0", "image", "digest", "noise"],
        &["session", "7", "+1", "image", "digest", "noise"],
        &["session", "7", "100001", "image", "digest", "noise"],
        &[
            "session",
            "18446744073709551616",
            "0",
            "image",
            "digest",
            "noise",
        ],
        &["session", "7", "", "image", "digest", "noise"],
        &["sessions", "7", "0", "image", "digest", "noise"],
        &["--help"],
    ];
    for words in rows {
        assert_eq!(rt; status(rt.alloc(), words, DIGEST, &[1])?, 2);
    }
    Ok(())
}

#[test]
fn looks_at_each_file_in_turn(rt: HostRuntime) -> Result<(), Fail> {
    let rows: [(&[&str], &[u8], &[u64], u8); 15] = [
        (&SERVE, DIGEST, &[], 3),
        (&OPERATE, DIGEST, &[1], 8),
        (&OPERATE, b"", &[3], 11),
        (&SESSION, DIGEST, &[2], 8),
        (&SESSION, b"", &[3], 11),
        (&LARGEST, DIGEST, &[], 8),
        (&SERVE, DIGEST, &[4], 3),
        (&SERVE, DIGEST, &[1], 8),
        (&SERVE, DIGEST, &[2], 8),
        (&SERVE, DIGEST, &[3], 8),
        // The digest file is looked at before the noise.
        (&SERVE, b"", &[3], 11),
        (&["serve", "none", "digest", "noise"], b"", &[], 8),
        (&["serve", "image", "none", "noise"], DIGEST, &[], 8),
        (&["serve", "image", "digest", "none"], DIGEST, &[], 8),
        (&["digest", "none"], DIGEST, &[], 8),
    ];
    for (words, digest, fail, want) in rows {
        assert_eq!(rt; status(rt.alloc(), words, digest, fail)?, want);
    }
    Ok(())
}

#[test]
fn refuses_an_image_past_its_limit(rt: HostRuntime) -> Result<(), Fail> {
    let image = vec![in rt.alloc(); 0; 16_777_217]?;
    // The image is looked at before the digest file.
    let files = files_of(rt.alloc(), image, b"", &[])?;
    let (status, replies) = with_files(rt.alloc(), &SERVE, files, &[])?;
    assert_eq!(rt; status, 9);
    assert_eq!(rt; replies.bytes(), [].as_slice());
    Ok(())
}

#[test]
fn reads_a_digest_file(rt: HostRuntime) -> Result<(), Fail> {
    assert_eq!(rt; digest_of(DIGEST), Some(SPELLED));
    assert_eq!(rt; digest_of(LINE), Some(SPELLED));
    assert_eq!(rt; digest_of(UPPER), Some(SPELLED));
    assert_eq!(rt; digest_of(&UPPER[..64]), Some(SPELLED));
    let wrong: [&[u8]; 9] = [
        b"",
        b"\n",
        &DIGEST[..63],
        b"f0133729c4163dede81e21cd47839256da58171238c8a0d874397c73b14e1e4\n",
        b"f0133729c4163dede81e21cd47839256da58171238c8a0d874397c73b14e1e470",
        b"f0133729c4163dede81e21cd47839256da58171238c8a0d874397c73b14e1e47\n\n",
        b"f0133729c4163dede81e21cd47839256da58171238c8a0d874397c73b14e1e47\r\n",
        b"f0133729c4163dede81e21cd47839256da58171238c8a0d874397c73b14e1e4g",
        b" 0133729c4163dede81e21cd47839256da58171238c8a0d874397c73b14e1e47\n",
    ];
    for text in wrong {
        assert!(rt; digest_of(text).is_none());
        assert_eq!(rt; status(rt.alloc(), &SERVE, text, &[])?, 11);
    }
    Ok(())
}

#[test]
fn writes_the_line_of_a_digest(rt: HostRuntime) -> Result<(), Fail> {
    // The number of a write that fails, the status, and how many bytes are written.
    for (failing, want, written) in [(11, 0, 65), (1, 6, 0), (2, 6, 7), (10, 6, 63)] {
        let files = files_of(rt.alloc(), b"abc".to_vec(rt.alloc())?, b"", &[2])?;
        let (status, replies) = with_files(rt.alloc(), &["digest", "image"], files, &[failing])?;
        assert_eq!(rt; status, want);
        assert_eq!(rt; replies.bytes().len(), written);
        assert!(rt; LINE.starts_with(replies.bytes()));
    }
    Ok(())
}
