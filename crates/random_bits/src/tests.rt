//! A generator over noise that counts up, with values of the standard's steps over Python's hmac.
mod rows;

ghost use Rattle.std.specs.Prelude.{◌≤◌, ℕ, List};
ghost use Rattle.noise_health.specs.Counts.{Counts};

use crate::{RESEED_SAMPLES, SEED_SAMPLES, draw, instantiate, reseed};
use drbg_core::Drbg;
use engine_core::Shipped;
use noise_health::Health;
use outside::{MemNoise, Noise, Sample};
use service_table::Failure;
use std::alloc::{AllocError, Global};
use std::process::Abort;
use std::test::Fail;

// Noise of so many bytes 00, 01, .. ff, and so on from 00.
fn counting(alloc: Global, count: usize) -> Result<MemNoise, AllocError> {
    let mut events = Vec::new(alloc);
    for at in 0..count {
        events.push(Sample::Byte(at.to_le_bytes()[0]))?;
    }
    Ok(MemNoise::new(events))
}

// A generator that was seeded.
fn seeded(rt: &impl Abort, health: &mut Health, noise: &mut MemNoise) -> Drbg
    requires counts { (samples : List ℕ) × Counts health.old samples }
    ensures counts { (samples : List ℕ) × Counts health.new samples }
{
    let mut drbg = Drbg::empty();
    let mut room = [0; SEED_SAMPLES];
    match instantiate(&mut Shipped::new(), &mut drbg, health, noise, &mut room) {
        Ok(_) => {
            assert_eq!(rt; room, [0; SEED_SAMPLES]);
            drbg
        }
        Err(_) => panic!(rt; "the noise failed"),
    }
}

// A draw that is answered.
fn drawn<const N: usize>(
    rt: &impl Abort,
    drbg: &mut Drbg,
    health: &mut Health,
    noise: &mut MemNoise,
    additional: &[u8],
) -> [u8; N]
    requires most { N ≤ 65536 }
    requires counts { (samples : List ℕ) × Counts health.old samples }
    ensures counts { (samples : List ℕ) × Counts health.new samples }
{
    let mut out = [0; N];
    let mut room = [0; RESEED_SAMPLES];
    assert!(rt; drbg.counter >= 1);
    match draw(
        &mut Shipped::new(),
        drbg,
        health,
        noise,
        additional,
        &mut room,
        &mut out,
    ) {
        Ok(_) => out,
        Err(_) => panic!(rt; "the noise failed"),
    }
}

#[test]
fn seeds_draws_and_reseeds(rt: HostRuntime) -> Result<(), Fail> {
    let mut noise = counting(rt.alloc(), 1_920)?;
    let mut health = Health::new();
    let mut drbg = seeded(&rt, &mut health, &mut noise);
    assert_eq!(rt; (drbg.k, drbg.v), (rows::SEEDED_K, rows::SEEDED_V));
    let first = drawn::<12>(&rt, &mut drbg, &mut health, &mut noise, &[]);
    assert_eq!(rt; first, rows::FIRST_DRAW);
    let second = drawn::<40>(&rt, &mut drbg, &mut health, &mut noise, b"more");
    assert_eq!(rt; second, rows::SECOND_DRAW);
    // As after 1,024 requests.
    drbg.counter = 1_025;
    let next = drawn::<12>(&rt, &mut drbg, &mut health, &mut noise, b"more");
    assert_eq!(rt; next, rows::RESEEDED_DRAW);
    let mut room = [0; RESEED_SAMPLES];
    let answer = reseed(
        &mut Shipped::new(),
        &mut drbg,
        &mut health,
        &mut noise,
        b"input",
        &mut room,
    );
    assert_eq!(rt; answer, Ok(()));
    assert_eq!(rt; (drbg.k, drbg.v), (rows::RESEEDED_K, rows::RESEEDED_V));
    assert_eq!(rt; noise.next(), Sample::Ended);
    Ok(())
}

// How many samples there are, of the 1,408 that a seed takes.
const SHORT: [usize; 4] = [0, 1_023, 1_280, 1_407];

#[test]
fn a_seed_needs_all_its_samples(rt: HostRuntime) -> Result<(), Fail> {
    for count in SHORT {
        let mut noise = counting(rt.alloc(), count)?;
        let mut health = Health::new();
        let mut drbg = Drbg::empty();
        let mut room = [0; SEED_SAMPLES];
        let answer = instantiate(
            &mut Shipped::new(),
            &mut drbg,
            &mut health,
            &mut noise,
            &mut room,
        );
        assert_eq!(rt; answer, Err(Failure::NoiseEnded));
        assert_eq!(rt; (drbg.k, drbg.v, drbg.counter), ([0; 32], [0; 32], 0));
        assert_eq!(rt; room, [0; SEED_SAMPLES]);
    }
    Ok(())
}
