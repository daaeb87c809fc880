// Files, words and streams in whole runs: an image that is tested, and what a run is refused or ends for.
use crate::runs::{
    APPROVED, DIGEST, Dialogue, IMAGE, NO_BLOCK, ONE_PASS, POWER_ON, REQUEST_TESTS, RESET, SERVE,
    SHOW_STATUS, Shown, TEST_STEP, TWO_STEPS, counting, files_of, run_over, served,
};
use outside::{MemSink, MemSource};
use std::alloc::Global;
use std::test::Fail;

const POWERED: [(&[u8], u8, u8); 1] = [(POWER_ON, 0, 1)];

// The digits of the HMAC-SHA-256 of no bytes and of 16,777,216 bytes 00 under the key of the bytes 00 to 1f, by Python's hmac.
const EMPTY_DIGEST: &[u8] = b"d38b42096d80f45f826b44a9d5607de72496a415d3f4a1a8c88e3bb9da8dc1cb";

const ZEROS_DIGEST: &[u8] = b"e7e5b3b173eaad5deb4c69c43c9501be552e11f55b87229d4d4e3d343877ed85";

// From Off to Approved over an image and its digest.
fn is_approved(alloc: Global, image: Vec<u8>, digest: &[u8]) -> Result<bool, Fail> {
    let mut dialogue = Dialogue::new(alloc);
    dialogue.add(&POWERED)?;
    dialogue.add(&TWO_STEPS)?;
    dialogue.add(&APPROVED)?;
    let files = files_of(alloc, image, digest, counting(alloc, ONE_PASS)?)?;
    let (status, replies) = served(alloc, files, &dialogue.stream, 9)?;
    Ok(status == 0 && replies.bytes() == dialogue.want.as_slice())
}

#[test]
fn takes_an_image_that_has_its_digest(rt: HostRuntime) -> Result<(), Fail> {
    assert!(rt; is_approved(rt.alloc(), IMAGE.to_vec(rt.alloc())?, DIGEST)?);
    assert!(rt; is_approved(rt.alloc(), Vec::new(rt.alloc()), EMPTY_DIGEST)?);
    Ok(())
}

// Without optimisation, as `rt try` builds it, this takes most of its 60 seconds.
#[test]
fn takes_the_longest_image(rt: HostRuntime) -> Result<(), Fail> {
    let zeros = vec![in rt.alloc(); 0; 16_777_216]?;
    assert!(rt; is_approved(rt.alloc(), zeros, ZEROS_DIGEST)?);
    Ok(())
}

// The second step, and then the public state, where the image hasn't its digest. The test 4 passed before it.
const REFUSED: [Shown; 4] = [
    (TEST_STEP, 4, 7, NO_BLOCK),
    (TEST_STEP, 2, 7, NO_BLOCK),
    (REQUEST_TESTS, 2, 7, NO_BLOCK),
    (SHOW_STATUS, 0, 7, [0, 0, 0, 0x10, 0, 0, 0, 0, 0, 0, 0, 0]),
];

const FIRST_STEP: [(&[u8], u8, u8); 2] = [(REQUEST_TESTS, 0, 2), (TEST_STEP, 0, 2)];

const WAS_RESET: [(&[u8], u8, u8); 1] = [(RESET, 0, 1)];

// Images of which a byte is another, missing or too much. It is tested again after a Reset, and takes no noise.
#[test]
fn refuses_an_image_with_another_digest(rt: HostRuntime) -> Result<(), Fail> {
    let mut dialogue = Dialogue::new(rt.alloc());
    dialogue.add(&POWERED)?;
    dialogue.add(&FIRST_STEP)?;
    dialogue.show(&REFUSED, (2, 0))?;
    dialogue.add(&WAS_RESET)?;
    dialogue.add(&FIRST_STEP)?;
    dialogue.show(&REFUSED, (2, 0))?;
    let images: [&[u8]; 7] = [b"abb", b"bbc", b"abd", b"ab", b"abc\0", b"\0abc", b""];
    for image in images {
        let files = files_of(
            rt.alloc(),
            image.to_vec(rt.alloc())?,
            DIGEST,
            Vec::new(rt.alloc()),
        )?;
        let (status, replies) = served(rt.alloc(), files, &dialogue.stream, 9)?;
        assert_eq!(rt; status, 0);
        assert_eq!(rt; replies.bytes(), dialogue.want.as_slice());
    }
    Ok(())
}

// Runs these words over an image, a digest file and ShowStatus, where these reads and writes fail.
fn ended(
    alloc: Global,
    words: &[&str],
    image: Vec<u8>,
    digest: &[u8],
    reads: &[u64],
    writes: &[u64],
) -> Result<(u8, MemSink), Fail> {
    let files = files_of(alloc, image, digest, Vec::new(alloc))?;
    let mut stream = SHOW_STATUS.to_vec(alloc)?;
    stream.extend_from_slice(SHOW_STATUS)?;
    let commands = MemSource::new(stream, 8, reads.to_vec(alloc)?);
    let replies = MemSink::new(alloc, 100, 24, writes.to_vec(alloc)?)?;
    run_over(alloc, words, files, commands, replies)
}

#[test]
fn ends_before_it_serves(rt: HostRuntime) -> Result<(), Fail> {
    let rows: [(&[&str], &[u8], u8); 6] = [
        (&["serve", "image", "digest"], DIGEST, 2),
        (&["serve"], DIGEST, 2),
        (&["serve", "none", "digest", "noise"], DIGEST, 8),
        (&["serve", "image", "digest", "none"], DIGEST, 8),
        (&["digest", "none"], DIGEST, 8),
        (&SERVE, &DIGEST[1..], 11),
    ];
    for (words, digest, want) in rows {
        let image = IMAGE.to_vec(rt.alloc())?;
        let (status, replies) = ended(rt.alloc(), words, image, digest, &[], &[])?;
        assert_eq!(rt; status, want);
        assert!(rt; replies.bytes().is_empty());
    }
    let long = vec![in rt.alloc(); 0; 16_777_217]?;
    let (status, replies) = ended(rt.alloc(), &SERVE, long, DIGEST, &[], &[])?;
    assert_eq!(rt; status, 9);
    assert!(rt; replies.bytes().is_empty());
    Ok(())
}

// ShowStatus of a module that isn't powered.
const OFF: &[u8] = b"\x5c\x01\x04\0\0\0\0\0\0\0\0\0\0\0\0\0\0\0\0\0\0\0\0\0";

#[test]
fn ends_at_a_stream_that_fails(rt: HostRuntime) -> Result<(), Fail> {
    let rows: [(&[u64], &[u64], u8, &[u8]); 4] = [
        (&[1], &[], 5, b""),
        (&[2], &[], 5, OFF),
        (&[], &[1], 6, b""),
        (&[], &[2], 6, OFF),
    ];
    for (reads, writes, want, written) in rows {
        let image = IMAGE.to_vec(rt.alloc())?;
        let (status, replies) = ended(rt.alloc(), &SERVE, image, DIGEST, reads, writes)?;
        assert_eq!(rt; status, want);
        assert_eq!(rt; replies.bytes(), written);
    }
    Ok(())
}
