// Streams of samples with the place and the kind of their first fault, worked out by hand.

use crate::{Health, HealthFault};
use std::test::Fail;

// Thirty zeros and a one, over and over.
fn blocks(at: usize) -> u8 {
    u8::from(at % 31 == 30)
}

fn sample(stream: u8, at: usize) -> u8 {
    match stream {
        0 => 0,
        1 => blocks(at),
        // Its first window has its first sample 324 times.
        2 if at < 334 || at >= 512 => blocks(at % 512),
        2 => u8::from(at % 2 == 0) + 2,
        // A run goes over the edge of a window.
        3 if at < 502 => u8::from(at % 2 == 0) + 1,
        3 => 7,
        // The 325th zero is the 31st in a row.
        4 if at < 303 => blocks(at),
        4 => u8::from(at == 303),
        _ => at.to_le_bytes()[0],
    }
}

// How many samples were fed when the first fault showed, of a thousand.
fn first_fault(stream: u8) -> Option<(usize, HealthFault)> {
    let mut health = Health::new();
    for at in 0..1000 {
        match health.feed(sample(stream, at)) {
            Some(fault) => return Some((at + 1, fault)),
            None => {}
        }
    }
    None
}

#[test]
fn faults_show_at_their_sample(rt: HostRuntime) -> Result<(), Fail> {
    let rows = [
        (0, Some((31, HealthFault::Repetition))),
        (1, Some((335, HealthFault::Proportion))),
        (2, Some((847, HealthFault::Proportion))),
        (3, Some((533, HealthFault::Repetition))),
        (4, Some((335, HealthFault::Repetition))),
        (5, None),
    ];
    for (stream, want) in rows {
        assert_eq!(rt; first_fault(stream), want, "stream {stream}");
    }
    Ok(())
}
