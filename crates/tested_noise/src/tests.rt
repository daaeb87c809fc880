//! Lists of events with the failure that they bring, worked out by hand from the cutoffs 31 and 325.

ghost use Rattle.std.specs.Prelude.{◌≡◌, []};
ghost use Rattle.noise_health.specs.Counts.{Counts};

use crate::{take_sample, take_samples};
use noise_health::Health;
use outside::{MemNoise, Noise, Sample};
use service_table::Failure;
use std::alloc::{AllocError, Global};
use std::test::Fail;

// So many events: bytes that count up, then those of the stream, and one last event.
fn events(alloc: Global, stream: u8, count: usize, last: Sample) -> Result<MemNoise, AllocError> {
    let mut events = Vec::new(alloc);
    for at in 0..count {
        events.push(Sample::Byte(match stream {
            // Thirty zeros and a one, over and over.
            0 => u8::from(at % 31 == 30),
            1 => 7,
            _ => at.to_le_bytes()[0],
        }))?;
    }
    events.push(last)?;
    Ok(MemNoise::new(events))
}

// How many events are left, and no more than these are looked for.
fn events_left(noise: &mut MemNoise, most: usize) -> usize {
    for at in 0..most {
        if noise.next() == Sample::Ended {
            return at;
        }
    }
    most
}

// A stream, how many of its samples there are before an event, that event, how many samples are asked for, what fails, and how many
// events are left then.
const ROWS: [(u8, usize, Sample, usize, Result<(), Failure>, usize); 8] = [
    (2, 600, Sample::Ended, 600, Ok(()), 0),
    (2, 600, Sample::Ended, 601, Err(Failure::NoiseEnded), 0),
    (2, 599, Sample::Failed, 600, Err(Failure::NoiseFailed), 0),
    (2, 0, Sample::Failed, 0, Ok(()), 1),
    (1, 40, Sample::Ended, 30, Ok(()), 10),
    (1, 40, Sample::Ended, 31, Err(Failure::Repetition), 9),
    (0, 400, Sample::Failed, 334, Ok(()), 67),
    (0, 400, Sample::Failed, 400, Err(Failure::Proportion), 66),
];

#[test]
fn samples_are_taken_up_to_a_failure(rt: HostRuntime) -> Result<(), Fail> {
    for (stream, count, last, asked, want, left) in ROWS {
        let mut noise = events(rt.alloc(), stream, count, last)?;
        let mut health = Health::new();
        let mut out = vec![in rt.alloc(); 0; asked]?;
        let answer = take_samples(&mut health, &mut noise, &mut out);
        assert_eq!(rt; answer, want);
        assert_eq!(rt; events_left(&mut noise, 602), left);
    }
    Ok(())
}

#[test]
fn bytes_are_handed_out_in_their_order(rt: HostRuntime) -> Result<(), Fail> {
    let mut noise = events(rt.alloc(), 2, 300, Sample::Ended)?;
    let mut health = Health::new();
    let mut out = [0; 299];
    assert_eq!(rt; take_samples(&mut health, &mut noise, &mut out), Ok(()));
    assert_eq!(rt;
        (out[0], out[1], out[255], out[256], out[298]),
        (0, 1, 255, 0, 42)
    );
    assert_eq!(rt; noise.next(), Sample::Byte(43));
    Ok(())
}

#[test]
fn one_sample_and_the_end(rt: HostRuntime) -> Result<(), Fail> {
    let mut noise = events(rt.alloc(), 1, 1, Sample::Failed)?;
    let mut health = Health::new();
    assert_eq!(rt; take_sample(&mut health, &mut noise), Ok(7));
    assert_eq!(rt; noise.next(), Sample::Failed);
    let mut health = Health::new();
    assert_eq!(rt;
        take_sample(&mut health, &mut noise),
        Err(Failure::NoiseEnded)
    );
    Ok(())
}
