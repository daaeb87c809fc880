// Whole runs of the program: states, roles, entries and bodies.
use crate::runs::{
    Dialogue, OFFICER, ONE_PASS, POWER_ON, REQUEST_TESTS, RESET, SHOW_STATUS, Shown, TEST_STEP,
    TWO_PASSES, counting, outcome,
};
use std::test::Fail;

const SHOW_VERSION: &[u8] = &[0xc5, 0x01, 0x05, 0, 0, 0, 0, 0];

const NO_ROLE: &[u8] = &[0xc5, 0x01, 0x06, 0, 0, 0, 0, 1, 0];

const USER: &[u8] = &[0xc5, 0x01, 0x06, 0, 0, 0, 0, 1, 2];

const FOURTH_ROLE: &[u8] = &[0xc5, 0x01, 0x06, 0, 0, 0, 0, 1, 3];

// Each command, and of its reply the status, the state and the status block.
const DIALOGUE: [Shown; 21] = [
    (POWER_ON, 0, 1, [0; 12]),
    (TEST_STEP, 2, 1, [0; 12]),
    (OFFICER, 2, 1, [0; 12]),
    (REQUEST_TESTS, 0, 2, [0; 12]),
    (SHOW_STATUS, 0, 2, [3, 0, 0, 0, 0, 0, 0, 0, 0, 0, 0, 0]),
    (USER, 2, 2, [0; 12]),
    (TEST_STEP, 0, 2, [0; 12]),
    (TEST_STEP, 0, 2, [0; 12]),
    // The known answer of HMAC-SHA-256, number 4, was right.
    (SHOW_STATUS, 0, 2, [3, 2, 0, 0x10, 0, 0, 0, 0, 0, 0, 0, 0]),
    (TEST_STEP, 0, 3, [0; 12]),
    (OFFICER, 0, 4, [0; 12]),
    (FOURTH_ROLE, 3, 4, [0; 12]),
    (REQUEST_TESTS, 0, 2, [0; 12]),
    (TEST_STEP, 0, 2, [0; 12]),
    (TEST_STEP, 0, 2, [0; 12]),
    (TEST_STEP, 0, 4, [0; 12]),
    (USER, 0, 5, [0; 12]),
    (NO_ROLE, 0, 3, [0; 12]),
    (SHOW_VERSION, 0, 3, *b"SYMMOD 01.00"),
    (RESET, 0, 1, [0; 12]),
    (TEST_STEP, 2, 1, [0; 12]),
];

#[test]
fn goes_through_tests_and_roles(rt: HostRuntime) -> Result<(), Fail> {
    let mut dialogue = Dialogue::new(rt.alloc());
    dialogue.show(&DIALOGUE, (0, 0))?;
    let noise = counting(rt.alloc(), TWO_PASSES)?;
    let (status, replies) = outcome(rt.alloc(), noise, &dialogue.stream, 11)?;
    assert_eq!(rt; status, 0);
    assert_eq!(rt; replies.bytes(), dialogue.want.as_slice());
    Ok(())
}

// PowerOn, tests, and the officer's role; here and below each command, and of its reply the status and the state.
const TO_OFFICER: [(&[u8], u8, u8); 6] = [
    (POWER_ON, 0, 1),
    (REQUEST_TESTS, 0, 2),
    (TEST_STEP, 0, 2),
    (TEST_STEP, 0, 2),
    (TEST_STEP, 0, 3),
    (OFFICER, 0, 4),
];

// Entry of a MAC key of 5 bytes, and what may come while it is entered.
const BEGIN: &[u8] = &[
    0xc5, 0x01, 0x08, 0, 0, 0, 0, 9, 3, 3, 0, 0, 0, 0, 0, 0x64, 5,
];

const FOUR_BYTES: &[u8] = &[0xc5, 0x01, 0x09, 0, 0, 0, 0, 4, 0x4a, 0x65, 0x66, 0x65];

const FIVE_BYTES: &[u8] = &[
    0xc5, 0x01, 0x09, 0, 0, 0, 0, 5, 0x4a, 0x65, 0x66, 0x65, 0x65,
];

const LAST_BYTE: &[u8] = &[0xc5, 0x01, 0x09, 0, 0, 0, 0, 1, 0x65];

const NO_BYTES: &[u8] = &[0xc5, 0x01, 0x09, 0, 0, 0, 0, 0];

const ABORT: &[u8] = &[0xc5, 0x01, 0x0b, 0, 0, 0, 0, 0];

const ZEROISE_3: &[u8] = &[0xc5, 0x01, 0x0c, 0, 0, 0, 0, 1, 3];

const ZEROISE_16: &[u8] = &[0xc5, 0x01, 0x0c, 0, 0, 0, 0, 1, 16];

const ZEROISE_ALL: &[u8] = &[0xc5, 0x01, 0x0d, 0, 0, 0, 0, 0];

const SHOW_3: &[u8] = &[0xc5, 0x01, 0x0e, 0, 0, 0, 0, 1, 3];

const SHOW_16: &[u8] = &[0xc5, 0x01, 0x0e, 0, 0, 0, 0, 1, 16];

// After the officer's role. No block tells anything.
const ENTERING: [(&[u8], u8, u8); 30] = [
    (SHOW_3, 0, 4),
    (SHOW_16, 3, 4),
    (ABORT, 2, 4),
    (FOUR_BYTES, 2, 4),
    (BEGIN, 0, 6),
    (FIVE_BYTES, 0, 6),
    (LAST_BYTE, 12, 6),
    (ABORT, 0, 4),
    (BEGIN, 0, 6),
    (BEGIN, 2, 6),
    (NO_BYTES, 3, 6),
    (FOUR_BYTES, 0, 6),
    (FIVE_BYTES, 12, 6),
    (LAST_BYTE, 0, 6),
    (SHOW_3, 2, 6),
    (ZEROISE_3, 2, 6),
    (REQUEST_TESTS, 2, 6),
    (OFFICER, 2, 6),
    (ABORT, 0, 4),
    (SHOW_3, 0, 4),
    (ZEROISE_3, 0, 4),
    (ZEROISE_16, 3, 4),
    (ZEROISE_ALL, 0, 4),
    (USER, 0, 5),
    (SHOW_3, 0, 5),
    (ZEROISE_ALL, 2, 5),
    (BEGIN, 2, 5),
    (OFFICER, 0, 4),
    (BEGIN, 0, 6),
    (RESET, 0, 1),
];

#[test]
fn enters_a_parameter_and_gives_it_up(rt: HostRuntime) -> Result<(), Fail> {
    let mut dialogue = Dialogue::new(rt.alloc());
    dialogue.add(&TO_OFFICER)?;
    dialogue.add(&ENTERING)?;
    let noise = counting(rt.alloc(), ONE_PASS)?;
    let (status, replies) = outcome(rt.alloc(), noise, &dialogue.stream, 5)?;
    assert_eq!(rt; status, 0);
    assert_eq!(rt; replies.bytes(), dialogue.want.as_slice());
    Ok(())
}

// Bodies of EntryBegin, and whether they have its form.
const BEGINNINGS: [([u8; 9], bool); 22] = [
    ([0, 1, 0, 0, 0, 0, 0, 1, 16], true),
    ([15, 1, 1, 1, 0xff, 0xff, 0xff, 0xff, 32], true),
    ([16, 1, 0, 0, 0, 0, 0, 1, 16], false),
    ([0, 0, 0, 0, 0, 0, 0, 1, 16], false),
    ([0, 5, 0, 0, 0, 0, 0, 1, 16], false),
    ([0, 1, 2, 0, 0, 0, 0, 1, 16], false),
    ([0, 1, 0, 2, 0, 0, 0, 1, 16], false),
    ([0, 1, 0, 0, 0, 0, 0, 0, 16], false),
    ([0, 1, 0, 0, 0, 0, 0, 1, 15], false),
    ([0, 1, 0, 0, 0, 0, 0, 1, 17], false),
    ([0, 1, 0, 0, 0, 0, 0, 1, 24], true),
    ([0, 2, 1, 0, 0, 0, 1, 0, 24], true),
    ([0, 2, 0, 0, 0, 0, 0, 1, 33], false),
    ([0, 3, 0, 0, 0, 0, 0, 1, 0], false),
    ([0, 3, 0, 0, 0, 0, 0, 1, 1], true),
    ([0, 3, 1, 0, 0, 0, 0, 1, 13], false),
    ([0, 3, 1, 0, 0, 0, 0, 1, 14], true),
    ([0, 3, 1, 0, 0, 0, 0, 1, 64], true),
    ([0, 3, 1, 0, 0, 0, 0, 1, 65], false),
    ([0, 4, 1, 0, 0, 0, 0, 1, 13], false),
    ([0, 4, 1, 0, 0, 0, 0, 1, 64], true),
    ([0, 4, 0, 0, 0, 0, 0, 1, 65], false),
];

#[test]
fn begins_an_entry_that_has_the_form(rt: HostRuntime) -> Result<(), Fail> {
    for (body, good) in BEGINNINGS {
        let mut command = BEGIN[..8].to_vec(rt.alloc())?;
        command.extend_from_slice(&body)?;
        let (status, state) = if good { (0, 6) } else { (3, 4) };
        let mut dialogue = Dialogue::new(rt.alloc());
        dialogue.add(&TO_OFFICER)?;
        dialogue.add(&[(&command, status, state)])?;
        let noise = counting(rt.alloc(), ONE_PASS)?;
        let (status, replies) = outcome(rt.alloc(), noise, &dialogue.stream, 100)?;
        assert_eq!(rt; status, 0);
        assert_eq!(rt; replies.bytes(), dialogue.want.as_slice());
    }
    Ok(())
}

// From Off to Entry: a service, a body, and of the reply the status and the state. Each body that breaks a rule of its service is
// refused, and what comes after it finds the module as it was.
const BROKEN: [(u8, &[u8], u8, u8); 41] = [
    (0x01, &[], 3, 0),
    (0x01, &[0, 0, 3], 3, 0),
    (0x01, &[0, 0, 0, 0, 3], 3, 0),
    (0x01, &[0x00, 0x0f, 0x42, 0x41], 3, 0),
    (0x04, &[0], 3, 0),
    (0x05, &[0], 3, 0),
    (0x01, &[0, 0, 0, 0], 0, 1),
    (0x03, &[0], 3, 1),
    (0x07, &[0], 3, 1),
    (0x03, &[], 0, 2),
    (0x02, &[0], 3, 2),
    (0x02, &[], 0, 2),
    (0x02, &[], 0, 2),
    (0x02, &[], 0, 3),
    (0x06, &[], 3, 3),
    (0x06, &[1, 1], 3, 3),
    (0x06, &[3], 3, 3),
    (0x06, &[255], 3, 3),
    (0x06, &[1], 0, 4),
    (0x08, &[], 3, 4),
    (0x08, &[3, 3, 0, 0, 0, 0, 0, 100], 3, 4),
    (0x08, &[3, 3, 0, 0, 0, 0, 0, 100, 5, 0], 3, 4),
    (0x0c, &[], 3, 4),
    (0x0c, &[3, 3], 3, 4),
    (0x0c, &[16], 3, 4),
    (0x0c, &[255], 3, 4),
    (0x0d, &[0], 3, 4),
    (0x0e, &[], 3, 4),
    (0x0e, &[3, 3], 3, 4),
    (0x0e, &[16], 3, 4),
    (0x0e, &[3], 0, 4),
    (0x08, &[3, 3, 0, 0, 0, 0, 0, 100, 5], 0, 6),
    (0x09, &[], 3, 6),
    (0x09, &[7; 65], 3, 6),
    (0x09, &[7; 64], 12, 6),
    (0x0b, &[0], 3, 6),
    (0x09, &[7; 5], 0, 6),
    (0x09, &[7], 12, 6),
    (0x0b, &[], 0, 4),
    (0x0d, &[], 0, 4),
    (0x06, &[0], 0, 3),
];

#[test]
fn refuses_each_broken_body(rt: HostRuntime) -> Result<(), Fail> {
    let mut dialogue = Dialogue::new(rt.alloc());
    for (service, body, status, state) in BROKEN {
        dialogue.ask(service, body, status, state)?;
    }
    let noise = counting(rt.alloc(), ONE_PASS)?;
    let (status, replies) = outcome(rt.alloc(), noise, &dialogue.stream, 7)?;
    assert_eq!(rt; status, 0);
    assert_eq!(rt; replies.bytes(), dialogue.want.as_slice());
    Ok(())
}
