// Bytes to work in beside the slots.
ghost use Rattle.std.specs.Prelude.{◌≡◌, ◌≤◌, ◌+◌, ◌++◌, ℕ, List, [], length, IfOk, OnOk, OnErr, MatchResult};
ghost use Rattle.bits_core.specs.declared.limits.TheConstants.{LARGEST_PAYLOAD};
ghost use Rattle.bits_core.specs.ByteList.{zeros};
ghost use Rattle.bits_core.specs.OutboxContents.{holding};
ghost use Rattle.gcm_mode.specs.Filled.{IsFilled};
ghost use Rattle.gcm_mode.specs.Gcm.{IsIv, IsSealable, IsTagLength};
ghost use Rattle.noise_health.specs.Counts.{Counts};
ghost use Rattle.outside.specs.Explained.{Explained};
ghost use Rattle.outside.specs.Faults.{FaultCounted};
ghost use Rattle.random_bits.specs.Draws.{IsDrawn, instantiated, drawn};
ghost use Rattle.crypto_services.specs.Sealing.{with_tag, opened};

use crate::draws::put_draw;
use crate::in_place::{open_in, seal_in};
use bits_core::{Enabled, LARGEST_PAYLOAD, Port};
use drbg_core::Drbg;
use engine_core::Engine;
use gcm_mode::Prepared;
use noise_health::Health;
use outside::Noise;
use random_bits::{SEED_SAMPLES, instantiate};
use service_table::{Failure, Status};
use std::alloc::{AllocError, Global};
use std::marker::Model;

/// Bytes to work in, as many as a reply's payload has at most. By a rule of the type all 65,664 are zero before and after each call: no service leaves one.
#[derive(Drop)]
pub struct Work {
    bytes: Vec<u8>,
}

impl Model for Work {
    ghost use Rattle.std.specs.Prelude.{◌≡◌, ℕ, List};
    ghost use Rattle.bits_core.specs.declared.limits.TheConstants.{LARGEST_PAYLOAD};
    ghost use Rattle.bits_core.specs.ByteList.{zeros};

    ghost Value = { List ℕ };

    ghost view = { λ a. a.bytes.items };

    ghost invariant = { λ a. a.bytes.items ≡ zeros LARGEST_PAYLOAD };
}

impl Work {
    /// All zero.
    pub fn new(alloc: Global) -> Result<Work, AllocError>
        ensures { IfOk result (λ work. work ≡ zeros LARGEST_PAYLOAD) }
    {
        let bytes = vec![in alloc; 0; LARGEST_PAYLOAD]?;
        Ok(Work { bytes })
    }

    /// How many there are.
    pub fn room(&self) -> usize
        ensures room { result ≡ LARGEST_PAYLOAD }
        ensures zero { self.now ≡ zeros LARGEST_PAYLOAD }
    {
        self.bytes.len()
    }

    // Seeds a generator anew, with the samples of its seed in these bytes.
    pub(crate) fn seed<E: Engine, N: Noise>(
        &mut self,
        engine: &mut E,
        drbg: &mut Drbg,
        health: &mut Health,
        noise: &mut N,
    ) -> Result<(), Failure>
        requires counts { (samples : List ℕ) × Counts health.old samples }
        ensures seeded { Explained (N.left noise.old) (N.left noise.new) (λ events left. (samples : List ℕ) → Counts health.old samples →
            IsDrawn (instantiated E.calls engine.old drbg.old samples events) engine.new drbg.new health.new result left) }
        ensures counter { OnOk result (drbg.new.counter ≡ 1) }
        ensures counted { OnOk result ((samples : List ℕ) × Counts health.new samples) }
        ensures fault_counted { MatchResult result (λ _. N.faults noise.new ≡ N.faults noise.old)
            (λ why. why ≡ Failure.NoiseFailed → FaultCounted (N.faults noise.old) (N.faults noise.new)) }
    {
        seed_in(&mut self.bytes, engine, drbg, health, noise)
    }

    // Encrypts a text in these bytes, and puts the ciphertext and the leftmost bytes of its tag.
    pub(crate) fn seal<E: Engine>(
        &mut self,
        engine: &mut E,
        prepared: &Prepared,
        tag_length: usize,
        iv: &[u8],
        aad: &[u8],
        text: &[u8],
        port: &mut Port<'_, Enabled>,
    )
        requires filled { (key : List ℕ) × IsFilled prepared.now key }
        requires tag { IsTagLength tag_length }
        requires iv { IsIv iv.now }
        requires aad { IsSealable aad.now }
        requires text { IsSealable text.now }
        requires room { length port.old.outbox.now.bytes + (length text.now + tag_length) ≤ port.old.outbox.now.room }
        ensures engine { (key : List ℕ) → IsFilled prepared.now key → engine.new ≡ E.calls.seal_after engine.old key iv.now aad.now text.now }
        ensures put { (key : List ℕ) → IsFilled prepared.now key → port.new.outbox.now ≡
            holding (port.old.outbox.now.bytes ++ with_tag tag_length (E.calls.seal engine.old key iv.now aad.now text.now)) port.old.outbox.now.room }
        ensures same { port.new.outbox.ghost_name ≡ port.old.outbox.ghost_name }
    {
        seal_in(
            &mut self.bytes,
            engine,
            prepared,
            tag_length,
            iv,
            aad,
            text,
            port,
        )
    }

    // Decrypts a text in these bytes, and puts it where its tag is right.
    pub(crate) fn open<E: Engine>(
        &mut self,
        engine: &mut E,
        prepared: &Prepared,
        iv: &[u8],
        aad: &[u8],
        text: &[u8],
        tag: &[u8],
        port: &mut Port<'_, Enabled>,
    ) -> Status
        requires filled { (key : List ℕ) × IsFilled prepared.now key }
        requires iv { IsIv iv.now }
        requires aad { IsSealable aad.now }
        requires text { IsSealable text.now }
        requires tag { IsTagLength (length tag.now) }
        requires empty { port.old.outbox.now.bytes ≡ [] }
        requires room { LARGEST_PAYLOAD ≤ port.old.outbox.now.room }
        ensures engine { (key : List ℕ) → IsFilled prepared.now key → engine.new ≡ E.calls.open_after engine.old key iv.now aad.now text.now tag.now }
        ensures status { (key : List ℕ) → IsFilled prepared.now key →
            result ≡ (opened (E.calls.open engine.old key iv.now aad.now text.now tag.now)).status }
        ensures put { (key : List ℕ) → IsFilled prepared.now key →
            port.new.outbox.now.bytes ≡ (opened (E.calls.open engine.old key iv.now aad.now text.now tag.now)).payload }
        ensures same { port.new.outbox.ghost_name ≡ port.old.outbox.ghost_name }
        ensures room { port.new.outbox.now.room ≡ port.old.outbox.now.room }
    {
        open_in(&mut self.bytes, engine, prepared, iv, aad, text, tag, port)
    }

    // Puts a draw of so many random bits, which stand in these bytes meanwhile. Where the noise fails, none is put.
    pub(crate) fn put_draw<E: Engine, N: Noise>(
        &mut self,
        engine: &mut E,
        drbg: &mut Drbg,
        health: &mut Health,
        noise: &mut N,
        count: usize,
        additional: &[u8],
        port: &mut Port<'_, Enabled>,
    ) -> Result<(), Failure>
        requires counts { (samples : List ℕ) × Counts health.old samples }
        requires seeded { 1 ≤ drbg.old.counter }
        requires most { count ≤ 65536 }
        requires empty { port.old.outbox.now.bytes ≡ [] }
        requires room { LARGEST_PAYLOAD ≤ port.old.outbox.now.room }
        ensures drawn { Explained (N.left noise.old) (N.left noise.new) (λ events left. (samples : List ℕ) → Counts health.old samples →
            IsDrawn (drawn E.calls engine.old drbg.old additional.now count samples events) engine.new drbg.new health.new result left
            × OnOk result (port.new.outbox.now.bytes ≡ (drawn E.calls engine.old drbg.old additional.now count samples events).bytes)) }
        ensures refused { OnErr result (port.new.outbox.now.bytes ≡ []) }
        ensures same { port.new.outbox.ghost_name ≡ port.old.outbox.ghost_name }
        ensures room { port.new.outbox.now.room ≡ port.old.outbox.now.room }
        ensures fault_counted { MatchResult result (λ _. N.faults noise.new ≡ N.faults noise.old)
            (λ failure. failure ≡ Failure.NoiseFailed → FaultCounted (N.faults noise.old) (N.faults noise.new)) }
    {
        put_draw_in(
            &mut self.bytes,
            engine,
            drbg,
            health,
            noise,
            count,
            additional,
            port,
        )
    }
}

// Seeds a generator anew, with the samples of its seed in the front of these bytes.
fn seed_in<E: Engine, N: Noise>(
    work: &mut [u8],
    engine: &mut E,
    drbg: &mut Drbg,
    health: &mut Health,
    noise: &mut N,
) -> Result<(), Failure>
    requires zero { work.old ≡ zeros LARGEST_PAYLOAD }
    requires counts { (samples : List ℕ) × Counts health.old samples }
    ensures zero { work.new ≡ zeros LARGEST_PAYLOAD }
    ensures seeded { Explained (N.left noise.old) (N.left noise.new) (λ events left. (samples : List ℕ) → Counts health.old samples →
        IsDrawn (instantiated E.calls engine.old drbg.old samples events) engine.new drbg.new health.new result left) }
    ensures counter { OnOk result (drbg.new.counter ≡ 1) }
    ensures counted { OnOk result ((samples : List ℕ) × Counts health.new samples) }
    ensures fault_counted { MatchResult result (λ _. N.faults noise.new ≡ N.faults noise.old)
        (λ why. why ≡ Failure.NoiseFailed → FaultCounted (N.faults noise.old) (N.faults noise.new)) }
{
    instantiate(engine, drbg, health, noise, &mut work[..SEED_SAMPLES])
}

// Puts a draw of so many random bits, which stand in the front of these bytes meanwhile.
fn put_draw_in<E: Engine, N: Noise>(
    work: &mut [u8],
    engine: &mut E,
    drbg: &mut Drbg,
    health: &mut Health,
    noise: &mut N,
    count: usize,
    additional: &[u8],
    port: &mut Port<'_, Enabled>,
) -> Result<(), Failure>
    requires zero { work.old ≡ zeros LARGEST_PAYLOAD }
    requires counts { (samples : List ℕ) × Counts health.old samples }
    requires seeded { 1 ≤ drbg.old.counter }
    requires most { count ≤ 65536 }
    requires empty { port.old.outbox.now.bytes ≡ [] }
    requires room { LARGEST_PAYLOAD ≤ port.old.outbox.now.room }
    ensures zero { work.new ≡ zeros LARGEST_PAYLOAD }
    ensures drawn { Explained (N.left noise.old) (N.left noise.new) (λ events left. (samples : List ℕ) → Counts health.old samples →
        IsDrawn (drawn E.calls engine.old drbg.old additional.now count samples events) engine.new drbg.new health.new result left
        × OnOk result (port.new.outbox.now.bytes ≡ (drawn E.calls engine.old drbg.old additional.now count samples events).bytes)) }
    ensures refused { OnErr result (port.new.outbox.now.bytes ≡ []) }
    ensures same { port.new.outbox.ghost_name ≡ port.old.outbox.ghost_name }
    ensures room { port.new.outbox.now.room ≡ port.old.outbox.now.room }
    ensures fault_counted { MatchResult result (λ _. N.faults noise.new ≡ N.faults noise.old)
        (λ failure. failure ≡ Failure.NoiseFailed → FaultCounted (N.faults noise.old) (N.faults noise.new)) }
{
    put_draw(
        engine,
        drbg,
        health,
        noise,
        additional,
        &mut work[..count],
        port,
    )
}
