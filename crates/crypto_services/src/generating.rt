// Parameters that are drawn.
ghost use Rattle.std.specs.Prelude.{◌≡◌, ◌≤◌, ◌∷◌, ℕ, List, [], length, IsTrue, MatchOption};
ghost use Rattle.bits_core.specs.ByteList.{zeros};
ghost use Rattle.bits_core.specs.Parameters.{length_fits};
ghost use Rattle.noise_health.specs.Counts.{Counts};
ghost use Rattle.outside.specs.Explained.{Explained};
ghost use Rattle.outside.specs.Faults.{FaultCounted};
ghost use Rattle.random_bits.specs.Draws.{drawn};
ghost use Rattle.service_table.specs.declared.service.Service.TheVariants as service;
ghost use Rattle.ssp_slots.specs.Slots.{AreWellFormed};
ghost use Rattle.crypto_services.specs.Drawing.{after_draw, generate_result, ServesDrawn};

use crate::draws::draw_into;
use crate::outcome::{noise_failed, status_of, with_indicator};
use crate::{Outcome, Parts};
use bits_core::{Header, Inhibited, Port, SlotId, wipe};
use engine_core::Engine;
use outside::Noise;
use service_table::{Failure, Service, Status};

/// The most bytes of a parameter.
const LONGEST: usize = 64;

/// Fills an empty slot with `length` bytes of random bits (SP 800-133, 6.1; SP 800-90A Rev. 1, 9.3), with no additional
/// input and no payload. The length fits the header, which has at least one use. Approved where the header's domain is. Refused, in
/// this order: the noise fails (NoiseFault), and the generator is as it was; the slot is full (OccupiedSlot), and the draw was made.
pub fn generate<E: Engine, N: Noise>(
    parts: &mut Parts<E>,
    noise: &mut N,
    target: SlotId,
    header: &Header,
    length: usize,
    port: &mut Port<'_, Inhibited>,
) -> Outcome
    requires fits { IsTrue (length_fits header.now.kind header.now.domain length) }
    requires uses { 1 ≤ header.now.uses }
    requires counts { (samples : List ℕ) × Counts parts.old.health samples }
    requires seeded { 1 ≤ parts.old.drbg.counter }
    requires empty { port.old.outbox.now.bytes ≡ [] }
    ensures serves { Explained (N.left noise.old) (N.left noise.new) (λ events left. (samples : List ℕ) → Counts parts.old.health samples →
        (let drawn = drawn E.calls parts.old.engine parts.old.drbg [] length samples events in
        ServesDrawn (record { service = service.Generate; mac_length = 0; named = target ∷ [] }) drawn
        (after_draw drawn parts.old.vault.slots (generate_result target header.now)) parts.old parts.new result port.new.outbox.now.bytes left)) }
    ensures same { port.new.outbox.ghost_name ≡ port.old.outbox.ghost_name }
    ensures room { port.new.outbox.now.room ≡ port.old.outbox.now.room }
    ensures well_formed { AreWellFormed parts.old.vault → AreWellFormed parts.new.vault }
    ensures fault_counted { MatchOption result.failure (N.faults noise.new ≡ N.faults noise.old)
        (λ failure. failure ≡ Failure.NoiseFailed → FaultCounted (N.faults noise.old) (N.faults noise.new)) }
{
    let mut bytes = [0; LONGEST];
    generate_in(parts, noise, target, header, &mut bytes[..length])
}

// Fills an empty slot with as many random bytes as `bytes` has, which are in it meanwhile.
fn generate_in<E: Engine, N: Noise>(
    parts: &mut Parts<E>,
    noise: &mut N,
    target: SlotId,
    header: &Header,
    bytes: &mut [u8],
) -> Outcome
    requires fits { IsTrue (length_fits header.now.kind header.now.domain (length bytes.old)) }
    requires uses { 1 ≤ header.now.uses }
    requires counts { (samples : List ℕ) × Counts parts.old.health samples }
    requires seeded { 1 ≤ parts.old.drbg.counter }
    requires most { length bytes.old ≤ 64 }
    requires zero { bytes.old ≡ zeros (length bytes.old) }
    ensures serves { Explained (N.left noise.old) (N.left noise.new) (λ events left. (samples : List ℕ) → Counts parts.old.health samples →
        (let drawn = drawn E.calls parts.old.engine parts.old.drbg [] (length bytes.old) samples events in
        ServesDrawn (record { service = service.Generate; mac_length = 0; named = target ∷ [] }) drawn
        (after_draw drawn parts.old.vault.slots (generate_result target header.now)) parts.old parts.new result [] left)) }
    ensures wiped { bytes.new ≡ zeros (length bytes.old) }
    ensures well_formed { AreWellFormed parts.old.vault → AreWellFormed parts.new.vault }
    ensures fault_counted { MatchOption result.failure (N.faults noise.new ≡ N.faults noise.old)
        (λ failure. failure ≡ Failure.NoiseFailed → FaultCounted (N.faults noise.old) (N.faults noise.new)) }
{
    let drawn = draw_into(
        &mut parts.engine,
        &mut parts.drbg,
        &mut parts.health,
        noise,
        &[],
        bytes,
    );
    if let Err(failure) = drawn {
        return noise_failed(failure);
    }
    let answer = parts.vault.put(target, header, bytes);
    wipe(bytes);
    match answer {
        Ok(_) => with_indicator(Service::Generate, 0, &[target], Status::Ok, &parts.vault),
        Err(fault) => with_indicator(
            Service::Generate,
            0,
            &[target],
            status_of(fault),
            &parts.vault,
        ),
    }
}
