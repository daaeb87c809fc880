// Noise in whole runs: how many samples a pass takes, and what becomes of noise that ends, fails or doesn't pass its tests.
use crate::noise_rows::{EVENTS, SECOND, SIGNALS, SOUND};
use crate::runs::{
    APPROVED, Dialogue, NO_BLOCK, OFFICER, ONE_PASS, POWER_ON, Part, REQUEST_TESTS, RESET,
    SHOW_STATUS, Shown, TEST_STEP, TWO_STEPS, add_parts, counting, outcome,
};
use outside::Sample;
use std::alloc::Global;
use std::test::Fail;

// PowerOn with period 0, the tests, and ShowStatus, with their replies. The tests 4 and 14 passed.
const WORKED: [(&[u8], &[u8]); 6] = [
    (
        b"\xc5\x01\x01\0\0\0\0\x04\0\0\0\0",
        b"\x5c\x01\x01\0\x01\0\0\0\0\0\0\0\0\0\0\0\0\0\0\0\0\0\0\0",
    ),
    (
        b"\xc5\x01\x03\0\0\0\0\0",
        b"\x5c\x01\x03\0\x02\0\0\0\0\0\0\0\0\0\0\0\0\0\0\0\0\0\0\0",
    ),
    (
        b"\xc5\x01\x02\0\0\0\0\0",
        b"\x5c\x01\x02\0\x02\0\0\0\0\0\0\0\0\0\0\0\0\0\0\0\0\0\0\0",
    ),
    (
        b"\xc5\x01\x02\0\0\0\0\0",
        b"\x5c\x01\x02\0\x02\0\0\0\0\0\0\0\0\0\0\0\0\0\0\0\0\0\0\0",
    ),
    (
        b"\xc5\x01\x02\0\0\0\0\0",
        b"\x5c\x01\x02\0\x03\0\0\0\0\0\0\0\0\0\0\0\0\0\0\0\0\0\0\0",
    ),
    (
        b"\xc5\x01\x04\0\0\0\0\0",
        b"\x5c\x01\x04\0\x03\0\0\0\0\0\x40\x10\0\0\0\0\0\0\0\0\0\0\0\0",
    ),
];

#[test]
fn comes_to_approved(rt: HostRuntime) -> Result<(), Fail> {
    let mut stream = Vec::new(rt.alloc());
    let mut want = Vec::new(rt.alloc());
    for (command, reply) in WORKED {
        stream.extend_from_slice(command)?;
        want.extend_from_slice(reply)?;
    }
    for step in [1, 65_536] {
        let noise = counting(rt.alloc(), ONE_PASS)?;
        let (status, replies) = outcome(rt.alloc(), noise, &stream, step)?;
        assert_eq!(rt; status, 0);
        assert_eq!(rt; replies.bytes(), want.as_slice());
    }
    Ok(())
}

// The last step, and then the public state, where the noise was at fault. The tests 4 and 14 passed before it.
const REFUSED: [Shown; 5] = [
    (TEST_STEP, 5, 7, NO_BLOCK),
    (OFFICER, 2, 7, NO_BLOCK),
    (TEST_STEP, 2, 7, NO_BLOCK),
    (REQUEST_TESTS, 2, 7, NO_BLOCK),
    (
        SHOW_STATUS,
        0,
        7,
        [0, 0, 0x40, 0x10, 0, 0, 0, 0, 0, 0, 0, 0],
    ),
];

const POWERED: [(&[u8], u8, u8); 1] = [(POWER_ON, 0, 1)];

const WAS_RESET: [(&[u8], u8, u8); 1] = [(RESET, 0, 1)];

// Runs a dialogue over this noise, and tells whether its replies are those that it should get.
fn is_answered(alloc: Global, dialogue: &Dialogue, noise: Vec<Sample>) -> Result<bool, Fail> {
    let (status, replies) = outcome(alloc, noise, &dialogue.stream, 9)?;
    Ok(status == 0 && replies.bytes() == dialogue.want.as_slice())
}

// A pass that is refused with this code, a Reset, and a pass that comes to Approved.
fn once_refused(alloc: Global, code: u8) -> Result<Dialogue, Fail> {
    let mut dialogue = Dialogue::new(alloc);
    dialogue.add(&POWERED)?;
    dialogue.add(&TWO_STEPS)?;
    dialogue.show(&REFUSED, (code, 0))?;
    dialogue.add(&WAS_RESET)?;
    dialogue.add(&TWO_STEPS)?;
    dialogue.add(&APPROVED)?;
    Ok(dialogue)
}

// The same, where the second pass finds no noise to its end.
fn twice_refused(alloc: Global, code: u8) -> Result<Dialogue, Fail> {
    let mut dialogue = Dialogue::new(alloc);
    dialogue.add(&POWERED)?;
    dialogue.add(&TWO_STEPS)?;
    dialogue.show(&REFUSED, (code, 0))?;
    dialogue.add(&WAS_RESET)?;
    dialogue.add(&TWO_STEPS)?;
    dialogue.show(&REFUSED, (3, 0))?;
    Ok(dialogue)
}

// The noise of these parts and events, and so many counting samples behind them.
fn noise_of(
    alloc: Global,
    parts: &[Part],
    events: &[Sample],
    behind: usize,
) -> Result<Vec<Sample>, Fail> {
    let mut noise = Vec::new(alloc);
    add_parts(&mut noise, parts)?;
    noise.extend_from_slice(events)?;
    add_parts(&mut noise, &[(0, 1, behind)])?;
    Ok(noise)
}

// Whether a first pass is refused with this code at the last event of the noise and at none before it. Behind a Reset another pass takes
// all samples that stand behind it.
fn is_refused_there(
    alloc: Global,
    parts: &[Part],
    events: &[Sample],
    code: u8,
) -> Result<bool, Fail> {
    let enough = noise_of(alloc, parts, events, ONE_PASS)?;
    let one_less = noise_of(alloc, parts, events, ONE_PASS - 1)?;
    let mut before = noise_of(alloc, parts, events, 0)?;
    let _ = before.pop();
    Ok(
        is_answered(alloc, &once_refused(alloc, code)?, enough)?
            && is_answered(alloc, &twice_refused(alloc, code)?, one_less)?
            && is_answered(alloc, &twice_refused(alloc, 3)?, before)?,
    )
}

#[test]
fn refuses_noise_that_ends_or_fails(rt: HostRuntime) -> Result<(), Fail> {
    for (parts, event, code) in EVENTS {
        assert!(rt; is_refused_there(rt.alloc(), parts, &[event], code)?);
    }
    Ok(())
}

#[test]
fn refuses_noise_that_fails_its_tests(rt: HostRuntime) -> Result<(), Fail> {
    for (parts, code) in SIGNALS {
        assert!(rt; is_refused_there(rt.alloc(), parts, &[], code)?);
    }
    Ok(())
}

#[test]
fn takes_noise_that_passes_its_tests(rt: HostRuntime) -> Result<(), Fail> {
    let mut dialogue = Dialogue::new(rt.alloc());
    dialogue.add(&POWERED)?;
    dialogue.add(&TWO_STEPS)?;
    dialogue.add(&APPROVED)?;
    for parts in SOUND {
        let noise = noise_of(rt.alloc(), parts, &[], 0)?;
        assert!(rt; is_answered(rt.alloc(), &dialogue, noise)?);
    }
    Ok(())
}

// The samples of all passes are tested together, up to a Reset.
#[test]
fn tests_the_samples_of_two_passes_together(rt: HostRuntime) -> Result<(), Fail> {
    for (first, second, code) in SECOND {
        let mut together = Dialogue::new(rt.alloc());
        together.add(&POWERED)?;
        together.add(&TWO_STEPS)?;
        together.add(&APPROVED)?;
        let mut apart = Dialogue::new(rt.alloc());
        apart.stream.extend_from_slice(&together.stream)?;
        apart.want.extend_from_slice(&together.want)?;
        together.add(&TWO_STEPS)?;
        together.show(&REFUSED, (code, 0))?;
        together.add(&WAS_RESET)?;
        apart.add(&WAS_RESET)?;
        together.add(&TWO_STEPS)?;
        apart.add(&TWO_STEPS)?;
        together.add(&APPROVED)?;
        apart.add(&APPROVED)?;
        for dialogue in [&together, &apart] {
            let mut noise = noise_of(rt.alloc(), first, &[], 0)?;
            add_parts(&mut noise, second)?;
            add_parts(&mut noise, &[(0, 1, ONE_PASS)])?;
            assert!(rt; is_answered(rt.alloc(), dialogue, noise)?);
        }
    }
    Ok(())
}
