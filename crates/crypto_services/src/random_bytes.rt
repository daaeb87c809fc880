// Random bits as payload, and new seeds.
ghost use Rattle.std.specs.Prelude.{◌≡◌, ◌≤◌, ℕ, List, [], MatchOption};
ghost use Rattle.bits_core.specs.declared.limits.TheConstants.{LARGEST_PAYLOAD};
ghost use Rattle.noise_health.specs.Counts.{Counts};
ghost use Rattle.outside.specs.Explained.{Explained};
ghost use Rattle.outside.specs.Faults.{FaultCounted};
ghost use Rattle.random_bits.specs.Draws.{drawn, reseeded};
ghost use Rattle.service_table.specs.declared.service.Service.TheVariants as service;
ghost use Rattle.ssp_slots.specs.Slots.{AreWellFormed};
ghost use Rattle.crypto_services.specs.Drawing.{after_draw, random_result, reseed_result, ServesDrawn};

use crate::outcome::{noise_failed, with_indicator};
use crate::{Outcome, Parts};
use bits_core::{Enabled, Inhibited, Port};
use engine_core::Engine;
use outside::Noise;
use random_bits::RESEED_SAMPLES;
use service_table::{Failure, Service, Status};

/// Random bits (SP 800-90A Rev. 1, 9.3), 1 to 65,536 bytes of them, as payload, with additional input. Always an approved use. A
/// generator that has answered 1,024 requests is reseeded first, from 256 samples of noise and without the additional input. Refused
/// where the noise fails (NoiseFault): nothing is put then, and the generator is as it was.
pub fn random<E: Engine, N: Noise>(
    parts: &mut Parts<E>,
    noise: &mut N,
    length: usize,
    additional: &[u8],
    port: &mut Port<'_, Enabled>,
) -> Outcome
    requires least { 1 ≤ length }
    requires most { length ≤ 65536 }
    requires counts { (samples : List ℕ) × Counts parts.old.health samples }
    requires seeded { 1 ≤ parts.old.drbg.counter }
    requires empty { port.old.outbox.now.bytes ≡ [] }
    requires room { LARGEST_PAYLOAD ≤ port.old.outbox.now.room }
    ensures serves { Explained (N.left noise.old) (N.left noise.new) (λ events left. (samples : List ℕ) → Counts parts.old.health samples →
        (let drawn = drawn E.calls parts.old.engine parts.old.drbg additional.now length samples events in
        ServesDrawn (record { service = service.Random; mac_length = 0; named = [] }) drawn (after_draw drawn parts.old.vault.slots random_result)
        parts.old parts.new result port.new.outbox.now.bytes left)) }
    ensures same { port.new.outbox.ghost_name ≡ port.old.outbox.ghost_name }
    ensures room { port.new.outbox.now.room ≡ port.old.outbox.now.room }
    ensures well_formed { AreWellFormed parts.old.vault → AreWellFormed parts.new.vault }
    ensures fault_counted { MatchOption result.failure (N.faults noise.new ≡ N.faults noise.old)
        (λ failure. failure ≡ Failure.NoiseFailed → FaultCounted (N.faults noise.old) (N.faults noise.new)) }
{
    match parts.work.put_draw(
        &mut parts.engine,
        &mut parts.drbg,
        &mut parts.health,
        noise,
        length,
        additional,
        port,
    ) {
        Ok(_) => with_indicator(Service::Random, 0, &[], Status::Ok, &parts.vault),
        Err(failure) => noise_failed(failure),
    }
}

/// A new seed for the generator (SP 800-90A Rev. 1, 9.2), from 256 samples of noise and additional input. Always an approved use, with
/// no payload. Refused where the noise fails (NoiseFault): the generator is as it was then.
pub fn reseed<E: Engine, N: Noise>(
    parts: &mut Parts<E>,
    noise: &mut N,
    additional: &[u8],
    port: &mut Port<'_, Inhibited>,
) -> Outcome
    requires counts { (samples : List ℕ) × Counts parts.old.health samples }
    requires seeded { 1 ≤ parts.old.drbg.counter }
    requires empty { port.old.outbox.now.bytes ≡ [] }
    ensures serves { Explained (N.left noise.old) (N.left noise.new) (λ events left. (samples : List ℕ) → Counts parts.old.health samples →
        (let drawn = reseeded E.calls parts.old.engine parts.old.drbg additional.now samples events in
        ServesDrawn (record { service = service.Reseed; mac_length = 0; named = [] }) drawn (after_draw drawn parts.old.vault.slots reseed_result)
        parts.old parts.new result port.new.outbox.now.bytes left)) }
    ensures same { port.new.outbox.ghost_name ≡ port.old.outbox.ghost_name }
    ensures room { port.new.outbox.now.room ≡ port.old.outbox.now.room }
    ensures well_formed { AreWellFormed parts.old.vault → AreWellFormed parts.new.vault }
    ensures fault_counted { MatchOption result.failure (N.faults noise.new ≡ N.faults noise.old)
        (λ failure. failure ≡ Failure.NoiseFailed → FaultCounted (N.faults noise.old) (N.faults noise.new)) }
{
    let mut room = [0; RESEED_SAMPLES];
    match random_bits::reseed(
        &mut parts.engine,
        &mut parts.drbg,
        &mut parts.health,
        noise,
        additional,
        &mut room,
    ) {
        Ok(_) => with_indicator(Service::Reseed, 0, &[], Status::Ok, &parts.vault),
        Err(failure) => noise_failed(failure),
    }
}
