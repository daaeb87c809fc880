// Noise for the services: one tested sample, and a seed.
ghost use Rattle.std.specs.Prelude.{◌≡◌, ◌++◌, ◌∷◌, [], ℕ, List, IfOk, OnOk, MatchResult};
ghost use Rattle.noise_health.specs.Counts.{Counts};
ghost use Rattle.outside.specs.Explained.{Explained};
ghost use Rattle.outside.specs.Faults.{FaultCounted};
ghost use Rattle.service_table.specs.Failures.{failure_code};
ghost use Rattle.random_bits.specs.Draws.{IsDrawn, instantiated};
ghost use Rattle.crypto_services.specs.Noise.{IsSampleOrCode};

use crate::Parts;
use engine_core::Engine;
use outside::Noise;
use service_table::Failure;
use tested_noise::take_sample;

/// One sample of noise, tested with all samples before it (SP 800-90B, section 4.4), or the error code of what failed.
pub fn sample<E: Engine, N: Noise>(parts: &mut Parts<E>, noise: &mut N) -> Result<u8, u16>
    requires counts { (samples : List ℕ) × Counts parts.old.health samples }
    ensures sampled { Explained (N.left noise.old) (N.left noise.new)
        (λ events left. (samples : List ℕ) → Counts parts.old.health samples → IsSampleOrCode samples result events left) }
    ensures counts { IfOk result (λ byte. (samples : List ℕ) → Counts parts.old.health samples → Counts parts.new.health (samples ++ byte ∷ [])) }
    ensures others_stay { parts.new ≡ record parts.old { health = parts.new.health } }
    ensures fault_counted { MatchResult result (λ _. N.faults noise.new ≡ N.faults noise.old)
        (λ code. code ≡ failure_code Failure.NoiseFailed → FaultCounted (N.faults noise.old) (N.faults noise.new)) }
{
    match take_sample(&mut parts.health, noise) {
        Ok(byte) => Ok(byte),
        Err(failure) => Err(failure.code()),
    }
}

/// Seeds the generator anew (SP 800-90A Rev. 1, 9.1) with 1,408 samples of noise. Where the noise fails, engine and generator are as
/// they were.
pub fn seed<E: Engine, N: Noise>(parts: &mut Parts<E>, noise: &mut N) -> Result<(), Failure>
    requires counts { (samples : List ℕ) × Counts parts.old.health samples }
    ensures seeded { Explained (N.left noise.old) (N.left noise.new) (λ events left. (samples : List ℕ) → Counts parts.old.health samples →
        IsDrawn (instantiated E.calls parts.old.engine parts.old.drbg samples events) parts.new.engine parts.new.drbg parts.new.health result left) }
    ensures counter { OnOk result (parts.new.drbg.counter ≡ 1) }
    ensures counted { OnOk result ((samples : List ℕ) × Counts parts.new.health samples) }
    ensures vault { parts.new.vault ≡ parts.old.vault }
    ensures fault_counted { MatchResult result (λ _. N.faults noise.new ≡ N.faults noise.old)
        (λ why. why ≡ Failure.NoiseFailed → FaultCounted (N.faults noise.old) (N.faults noise.new)) }
{
    parts.work.seed(&mut parts.engine, &mut parts.drbg, &mut parts.health, noise)
}
