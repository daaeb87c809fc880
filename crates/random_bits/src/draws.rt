// The generator's seeds and requests, with the noise that they take.
ghost use Rattle.std.specs.Prelude.{◌≡◌, ◌≤◌, ◌≢◌, ℕ, List, [], length, OnOk, OnErr, MatchResult};
ghost use Rattle.bits_core.specs.ByteList.{zeros};
ghost use Rattle.noise_health.specs.Counts.{Counts};
ghost use Rattle.outside.specs.Explained.{Explained};
ghost use Rattle.outside.specs.Faults.{FaultCounted};
ghost use Rattle.random_bits.specs.Draws.{IsDrawn, entropy, nonce, instantiated, reseeded, refreshed, drawn};

use bits_core::wipe;
use drbg_core::Drbg;
use engine_core::Engine;
use noise_health::Health;
use outside::Noise;
use service_table::Failure;
use tested_noise::take_samples;

/// How many samples are taken at the start and dropped.
const STARTUP_SAMPLES: usize = 1_024;

/// How many samples are entropy, one bit of it each.
pub const RESEED_SAMPLES: usize = 256;

/// How many samples are the nonce.
const NONCE_SAMPLES: usize = 128;

/// How many samples a new seed takes.
pub const SEED_SAMPLES: usize = STARTUP_SAMPLES + RESEED_SAMPLES + NONCE_SAMPLES;

/// The most requests that one seed answers.
const RESEED_INTERVAL: u32 = 1_024;

// Seeds the generator anew from the samples of a seed.
fn seed_from<E: Engine>(engine: &mut E, drbg: &mut Drbg, samples: &[u8])
    requires { length samples.now ≡ 1408 }
    ensures engine { engine.new ≡ E.calls.instantiate_after engine.old (entropy samples.now) (nonce samples.now) [] }
    ensures generator { drbg.new ≡ E.calls.instantiate engine.old (entropy samples.now) (nonce samples.now) [] }
{
    let end = STARTUP_SAMPLES + RESEED_SAMPLES;
    drbg.wipe();
    engine.drbg_instantiate(&samples[STARTUP_SAMPLES..end], &samples[end..], &[], drbg);
}

/// Seeds the generator anew (SP 800-90A Rev. 1, 9.1) from 1,408 samples of noise: 1,024 are tested and dropped, 256 are entropy and 128
/// the nonce. Where the noise fails, engine and generator are as they were, and only a new `Health` may be used. `room` is for the
/// samples: it has 1,408 bytes, and is zero before and after.
pub fn instantiate<E: Engine, N: Noise>(
    engine: &mut E,
    drbg: &mut Drbg,
    health: &mut Health,
    noise: &mut N,
    room: &mut [u8],
) -> Result<(), Failure>
    requires counts { (samples : List ℕ) × Counts health.old samples }
    requires room { length room.old ≡ 1408 }
    ensures instantiated { Explained (N.left noise.old) (N.left noise.new) (λ events left. (samples : List ℕ) → Counts health.old samples →
        IsDrawn (instantiated E.calls engine.old drbg.old samples events) engine.new drbg.new health.new result left) }
    ensures counter { OnOk result (drbg.new.counter ≡ 1) }
    ensures counted { OnOk result ((samples : List ℕ) × Counts health.new samples) }
    ensures wiped { room.new ≡ zeros 1408 }
    ensures fault_counted { MatchResult result (λ _. N.faults noise.new ≡ N.faults noise.old)
        (λ why. why ≡ Failure.NoiseFailed → FaultCounted (N.faults noise.old) (N.faults noise.new)) }
{
    match take_samples(health, noise, room) {
        Ok(_) => {
            seed_from(engine, drbg, room);
            wipe(room);
            Ok(())
        }
        Err(failure) => {
            wipe(room);
            Err(failure)
        }
    }
}

/// Reseeds the generator (SP 800-90A Rev. 1, 9.2) with 256 samples of noise and additional input. Where the noise fails, engine and
/// generator are as they were, and only a new `Health` may be used. `room` is for the samples: it has 256 bytes, and is zero after.
pub fn reseed<E: Engine, N: Noise>(
    engine: &mut E,
    drbg: &mut Drbg,
    health: &mut Health,
    noise: &mut N,
    additional: &[u8],
    room: &mut [u8],
) -> Result<(), Failure>
    requires counts { (samples : List ℕ) × Counts health.old samples }
    requires room { length room.old ≡ 256 }
    ensures reseeded { Explained (N.left noise.old) (N.left noise.new) (λ events left. (samples : List ℕ) → Counts health.old samples →
        IsDrawn (reseeded E.calls engine.old drbg.old additional.now samples events) engine.new drbg.new health.new result left) }
    ensures counter { OnOk result (drbg.new.counter ≡ 1) }
    ensures counted { OnOk result ((samples : List ℕ) × Counts health.new samples) }
    ensures wiped { room.new ≡ zeros 256 }
    ensures fault_counted { MatchResult result (λ _. N.faults noise.new ≡ N.faults noise.old)
        (λ why. why ≡ Failure.NoiseFailed → FaultCounted (N.faults noise.old) (N.faults noise.new)) }
{
    match take_samples(health, noise, room) {
        Ok(_) => {
            engine.drbg_reseed(room, additional, drbg);
            wipe(room);
            Ok(())
        }
        Err(failure) => {
            wipe(room);
            Err(failure)
        }
    }
}

// Reseeds a generator that has answered as many requests as one seed allows.
fn refresh<E: Engine, N: Noise>(
    engine: &mut E,
    drbg: &mut Drbg,
    health: &mut Health,
    noise: &mut N,
    room: &mut [u8],
) -> Result<(), Failure>
    requires counts { (samples : List ℕ) × Counts health.old samples }
    requires room { length room.old ≡ 256 }
    requires zero { room.old ≡ zeros 256 }
    requires seeded { 1 ≤ drbg.old.counter }
    ensures refreshed { Explained (N.left noise.old) (N.left noise.new) (λ events left. (samples : List ℕ) → Counts health.old samples →
        IsDrawn (refreshed E.calls engine.old drbg.old samples events) engine.new drbg.new health.new result left) }
    ensures counter { OnOk result ((1 ≤ drbg.new.counter) × (drbg.new.counter ≤ 1024)) }
    ensures counted { OnOk result ((samples : List ℕ) × Counts health.new samples) }
    ensures wiped { room.new ≡ zeros 256 }
    ensures fault_counted { MatchResult result (λ _. N.faults noise.new ≡ N.faults noise.old)
        (λ why. why ≡ Failure.NoiseFailed → FaultCounted (N.faults noise.old) (N.faults noise.new)) }
{
    if drbg.counter > RESEED_INTERVAL {
        return reseed(engine, drbg, health, noise, &[], room);
    }
    Ok(())
}

/// Fills `out`, of at most 65,536 zero bytes, with random bits (SP 800-90A Rev. 1, 9.3). A generator that has answered 1,024 requests
/// is reseeded first, with 256 samples of noise. The generator was seeded. Where the noise fails, `out` is as it was, engine and
/// generator too, and only a new `Health` may be used. `room` is for the samples: it has 256 bytes, and is zero before and after.
pub fn draw<E: Engine, N: Noise>(
    engine: &mut E,
    drbg: &mut Drbg,
    health: &mut Health,
    noise: &mut N,
    additional: &[u8],
    room: &mut [u8],
    out: &mut [u8],
) -> Result<(), Failure>
    requires counts { (samples : List ℕ) × Counts health.old samples }
    requires room { room.old ≡ zeros 256 }
    requires seeded { 1 ≤ drbg.old.counter }
    requires most { length out.old ≤ 65536 }
    requires zero { out.old ≡ zeros (length out.old) }
    ensures drawn { Explained (N.left noise.old) (N.left noise.new) (λ events left. (samples : List ℕ) → Counts health.old samples →
        IsDrawn (drawn E.calls engine.old drbg.old additional.now (length out.old) samples events) engine.new drbg.new health.new result left
        × OnOk result (out.new ≡ (drawn E.calls engine.old drbg.old additional.now (length out.old) samples events).bytes)) }
    ensures refused { OnErr result (out.new ≡ out.old) }
    ensures counted { OnOk result ((samples : List ℕ) × Counts health.new samples) }
    ensures wiped { room.new ≡ zeros 256 }
    ensures fault_counted { MatchResult result (λ _. N.faults noise.new ≡ N.faults noise.old)
        (λ why. why ≡ Failure.NoiseFailed → FaultCounted (N.faults noise.old) (N.faults noise.new)) }
{
    match refresh(engine, drbg, health, noise, room) {
        Ok(_) => {
            engine.drbg_generate(additional, drbg, out);
            Ok(())
        }
        Err(failure) => Err(failure),
    }
}
