// Samples of noise, and what fails where one is taken.
ghost use Rattle.std.specs.Prelude.{◌≡◌, ◌++◌, ◌∷◌, [], ℕ, List, IfOk, OnOk, MatchResult};
ghost use Rattle.outside.specs.Explained.{Explained};
ghost use Rattle.outside.specs.Faults.{FaultCounted};
ghost use Rattle.noise_health.specs.Counts.{Counts};
ghost use Rattle.tested_noise.specs.Taken.{health_failure, IsSample, AreSamples};

use noise_health::{Health, HealthFault};
use outside::{Noise, Sample};
use service_table::Failure;

// What a fault of the health tests is among the failures of the module.
fn failure_of(fault: HealthFault) -> Failure
    ensures { result ≡ health_failure fault }
{
    match fault {
        HealthFault::Repetition => Failure::Repetition,
        HealthFault::Proportion => Failure::Proportion,
    }
}

/// Takes one sample, and tests it with all samples before it (SP 800-90B, section 4.4). The answer is the sample, or what
/// failed: the noise ended or failed, or the sample shows a fault. After a failure only a new `Health` may be used.
pub fn take_sample<N: Noise>(health: &mut Health, noise: &mut N) -> Result<u8, Failure>
    requires counts { (samples : List ℕ) × Counts health.old samples }
    ensures taken { Explained (N.left noise.old) (N.left noise.new)
        (λ events left. (samples : List ℕ) → Counts health.old samples → IsSample samples result events left) }
    ensures counts { IfOk result (λ byte. (samples : List ℕ) → Counts health.old samples → Counts health.new (samples ++ byte ∷ [])) }
    ensures fault_counted { MatchResult result (λ _. N.faults noise.new ≡ N.faults noise.old)
        (λ why. why ≡ Failure.NoiseFailed → FaultCounted (N.faults noise.old) (N.faults noise.new)) }
{
    match noise.next() {
        Sample::Ended => Err(Failure::NoiseEnded),
        Sample::Failed => Err(Failure::NoiseFailed),
        Sample::Byte(byte) => match health.feed(byte) {
            None => Ok(byte),
            Some(fault) => Err(failure_of(fault)),
        },
    }
}

/// Fills `out` with samples, each tested with all samples before it. The answer tells the first failure; what `out` holds then
/// isn't said.
pub fn take_samples<N: Noise>(
    health: &mut Health,
    noise: &mut N,
    out: &mut [u8],
) -> Result<(), Failure>
    requires counts { (samples : List ℕ) × Counts health.old samples }
    ensures taken { Explained (N.left noise.old) (N.left noise.new)
        (λ events left. (samples : List ℕ) → Counts health.old samples → AreSamples samples out.new result events left) }
    ensures counts { OnOk result ((samples : List ℕ) → Counts health.old samples → Counts health.new (samples ++ out.new)) }
    ensures fault_counted { MatchResult result (λ _. N.faults noise.new ≡ N.faults noise.old)
        (λ why. why ≡ Failure.NoiseFailed → FaultCounted (N.faults noise.old) (N.faults noise.new)) }
{
    for place in 0..out.len() {
        match take_sample(health, noise) {
            Ok(byte) => out[place] = byte,
            Err(failure) => return Err(failure),
        }
    }
    Ok(())
}
