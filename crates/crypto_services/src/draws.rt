// Draws from the generator.
ghost use Rattle.std.specs.Prelude.{◌≡◌, ◌≤◌, ℕ, List, [], length, OnOk, OnErr, MatchResult};
ghost use Rattle.bits_core.specs.ByteList.{zeros};
ghost use Rattle.noise_health.specs.Counts.{Counts};
ghost use Rattle.outside.specs.Explained.{Explained};
ghost use Rattle.outside.specs.Faults.{FaultCounted};
ghost use Rattle.random_bits.specs.Draws.{IsDrawn, drawn};

use bits_core::{Enabled, Port, wipe};
use drbg_core::Drbg;
use engine_core::Engine;
use noise_health::Health;
use outside::Noise;
use random_bits::{RESEED_SAMPLES, draw};
use service_table::Failure;

/// Fills `out` with random bits as `random_bits::draw` does, with room of its own for the samples. Where the noise fails, `out` is as
/// it was, engine and generator too.
pub(crate) fn draw_into<E: Engine, N: Noise>(
    engine: &mut E,
    drbg: &mut Drbg,
    health: &mut Health,
    noise: &mut N,
    additional: &[u8],
    out: &mut [u8],
) -> Result<(), Failure>
    requires counts { (samples : List ℕ) × Counts health.old samples }
    requires seeded { 1 ≤ drbg.old.counter }
    requires most { length out.old ≤ 65536 }
    requires zero { out.old ≡ zeros (length out.old) }
    ensures drawn { Explained (N.left noise.old) (N.left noise.new) (λ events left. (samples : List ℕ) → Counts health.old samples →
        IsDrawn (drawn E.calls engine.old drbg.old additional.now (length out.old) samples events) engine.new drbg.new health.new result left
        × OnOk result (out.new ≡ (drawn E.calls engine.old drbg.old additional.now (length out.old) samples events).bytes)) }
    ensures refused { OnErr result (out.new ≡ out.old) }
    ensures fault_counted { MatchResult result (λ _. N.faults noise.new ≡ N.faults noise.old)
        (λ failure. failure ≡ Failure.NoiseFailed → FaultCounted (N.faults noise.old) (N.faults noise.new)) }
{
    let mut room = [0; RESEED_SAMPLES];
    draw(engine, drbg, health, noise, additional, &mut room, out)
}

/// Puts as many random bits as `out` has, which are in it meanwhile. Where the noise fails, none is put.
pub(crate) fn put_draw<E: Engine, N: Noise>(
    engine: &mut E,
    drbg: &mut Drbg,
    health: &mut Health,
    noise: &mut N,
    additional: &[u8],
    out: &mut [u8],
    port: &mut Port<'_, Enabled>,
) -> Result<(), Failure>
    requires counts { (samples : List ℕ) × Counts health.old samples }
    requires seeded { 1 ≤ drbg.old.counter }
    requires most { length out.old ≤ 65536 }
    requires zero { out.old ≡ zeros (length out.old) }
    requires empty { port.old.outbox.now.bytes ≡ [] }
    requires room { length out.old ≤ port.old.outbox.now.room }
    ensures drawn { Explained (N.left noise.old) (N.left noise.new) (λ events left. (samples : List ℕ) → Counts health.old samples →
        IsDrawn (drawn E.calls engine.old drbg.old additional.now (length out.old) samples events) engine.new drbg.new health.new result left
        × OnOk result (port.new.outbox.now.bytes ≡ (drawn E.calls engine.old drbg.old additional.now (length out.old) samples events).bytes)) }
    ensures refused { OnErr result (port.new.outbox.now.bytes ≡ []) }
    ensures wiped { out.new ≡ zeros (length out.old) }
    ensures same { port.new.outbox.ghost_name ≡ port.old.outbox.ghost_name }
    ensures room { port.new.outbox.now.room ≡ port.old.outbox.now.room }
    ensures fault_counted { MatchResult result (λ _. N.faults noise.new ≡ N.faults noise.old)
        (λ failure. failure ≡ Failure.NoiseFailed → FaultCounted (N.faults noise.old) (N.faults noise.new)) }
{
    match draw_into(engine, drbg, health, noise, additional, out) {
        Ok(_) => {
            port.put(out);
            wipe(out);
            Ok(())
        }
        Err(failure) => Err(failure),
    }
}
