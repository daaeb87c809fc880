// The cryptographic services, each with a port over the payload that adds bytes only where the service gives data.
ghost use Rattle.std.specs.Prelude.{◌≡◌, ◌≤◌, [], ℕ, List, MatchOption};
ghost use Rattle.bits_core.specs.declared.limits.TheConstants.{LARGEST_PAYLOAD};
ghost use Rattle.bits_core.specs.OutboxContents.{holding};
ghost use Rattle.noise_health.specs.Counts.{Counts};
ghost use Rattle.outside.specs.Explained.{Explained};
ghost use Rattle.outside.specs.Faults.{FaultCounted};
ghost use Rattle.service_table.specs.declared.class.Class.TheVariants as classes;
ghost use Rattle.service_table.specs.Services.{class_of};
ghost use Rattle.ssp_slots.specs.Slots.{AreWellFormed};
ghost use Rattle.module_frames.specs.Requests.{CryptographicRequest, Cryptographic, request_value, cryptographic_service_for, IsCryptographicInRange};
ghost use Rattle.state_model.specs.Cryptographic.{link_of, with_link};
ghost use Rattle.state_model.specs.Performs.{Performs};

use bits_core::{Enabled, Inhibited, Outbox, Port};
use crypto_services::{
    Outcome, Parts, derive, generate, hash, mac, mac_verify, open, random, reseed, seal, seal_iv,
    unwrap, wrap,
};
use engine_core::Engine;
use module_frames::Request;
use outside::Noise;
use service_table::{Class, Failure, Service, class_of};
use ssp_slots::Vault;

/// Notes from which slot's key a parameter is made, where the request makes one from a key.
pub fn note_link(vault: &mut Vault, request: &Request<'_>)
    requires cryptographic { (what : CryptographicRequest) × (request_value request.now ≡ Cryptographic what) × IsCryptographicInRange what }
    ensures linked { (what : CryptographicRequest) → request_value request.now ≡ Cryptographic what →
        vault.new ≡ record vault.old { rows = with_link vault.old.rows (link_of what) } }
    ensures well_formed { AreWellFormed vault.old → AreWellFormed vault.new }
{
    match *request {
        Request::Unwrap { kek, target, .. } | Request::UnwrapPad { kek, target, .. } => {
            vault.link(kek, target)
        }
        Request::Derive { source, target, .. } => vault.link(source, target),
        Request::Hash { .. }
        | Request::Mac { .. }
        | Request::MacVerify { .. }
        | Request::Seal { .. }
        | Request::SealIv { .. }
        | Request::Open { .. }
        | Request::Wrap { .. }
        | Request::WrapPad { .. }
        | Request::Random { .. }
        | Request::Generate { .. }
        | Request::Reseed { .. } => {}
        Request::PowerOn { .. }
        | Request::TestStep
        | Request::RequestTests
        | Request::ShowStatus
        | Request::ShowVersion
        | Request::SelectRole { .. }
        | Request::Reset
        | Request::EntryBegin { .. }
        | Request::EntryBytes { .. }
        | Request::EntryCommit { .. }
        | Request::EntryAbort
        | Request::Zeroise { .. }
        | Request::ZeroiseTree { .. }
        | Request::ZeroiseAll
        | Request::ShowSlot { .. } => unreachable!(),
    }
}

/// Does a cryptographic service: its draw, where it has one, and what it does at the slots.
pub fn perform<E: Engine, N: Noise>(
    parts: &mut Parts<E>,
    noise: &mut N,
    service: Service,
    request: &Request<'_>,
    payload: &mut Outbox,
) -> Outcome
    requires payload { payload.old ≡ holding [] LARGEST_PAYLOAD }
    requires cryptographic { (what : CryptographicRequest) × (request_value request.now ≡ Cryptographic what) × IsCryptographicInRange what × (cryptographic_service_for what ≡ service) }
    requires counts { (samples : List ℕ) × Counts parts.old.health samples }
    requires seeded { 1 ≤ parts.old.drbg.counter }
    requires well_formed { AreWellFormed parts.old.vault }
    ensures performs { Explained (N.left noise.old) (N.left noise.new) (λ events left. (samples : List ℕ) (what : CryptographicRequest) → Counts parts.old.health samples →
        request_value request.now ≡ Cryptographic what → Performs E.calls what parts.old parts.new result payload.new.bytes samples events left) }
    ensures fault_counted { MatchOption result.failure (N.faults noise.new ≡ N.faults noise.old)
        (λ failure. failure ≡ Failure.NoiseFailed → FaultCounted (N.faults noise.old) (N.faults noise.new)) }
    ensures room { payload.new.room ≡ LARGEST_PAYLOAD }
    ensures well_formed { AreWellFormed parts.new.vault }
{
    match class_of(service) {
        Class::Payload => {
            let mut port = Port::<Enabled>::over(payload);
            perform_with_data(parts, noise, request, &mut port)
        }
        Class::Nothing => {
            let mut port = Port::<Inhibited>::over(payload);
            perform_without_data(parts, noise, request, &mut port)
        }
    }
}

// The services that give data where they are done.
fn perform_with_data<E: Engine, N: Noise>(
    parts: &mut Parts<E>,
    noise: &mut N,
    request: &Request<'_>,
    port: &mut Port<'_, Enabled>,
) -> Outcome
    requires empty { port.old.outbox.now.bytes ≡ [] }
    requires room { port.old.outbox.now.room ≡ LARGEST_PAYLOAD }
    requires cryptographic { (what : CryptographicRequest) × (request_value request.now ≡ Cryptographic what) × IsCryptographicInRange what
        × (class_of (cryptographic_service_for what) ≡ classes.Payload) }
    requires counts { (samples : List ℕ) × Counts parts.old.health samples }
    requires seeded { 1 ≤ parts.old.drbg.counter }
    requires well_formed { AreWellFormed parts.old.vault }
    ensures performs { Explained (N.left noise.old) (N.left noise.new) (λ events left. (samples : List ℕ) (what : CryptographicRequest) → Counts parts.old.health samples →
        request_value request.now ≡ Cryptographic what → Performs E.calls what parts.old parts.new result port.new.outbox.now.bytes samples events left) }
    ensures fault_counted { MatchOption result.failure (N.faults noise.new ≡ N.faults noise.old)
        (λ failure. failure ≡ Failure.NoiseFailed → FaultCounted (N.faults noise.old) (N.faults noise.new)) }
    ensures same { port.new.outbox.ghost_name ≡ port.old.outbox.ghost_name }
    ensures room { port.new.outbox.now.room ≡ LARGEST_PAYLOAD }
    ensures well_formed { AreWellFormed parts.new.vault }
{
    match *request {
        Request::Hash { alg, text } => hash(parts, alg, text, port),
        Request::Mac {
            slot,
            alg,
            length,
            text,
        } => mac(parts, slot, alg, length, text, port),
        Request::Seal {
            slot,
            length,
            aad,
            text,
        } => seal(parts, noise, slot, length, aad, text, port),
        Request::SealIv {
            slot,
            length,
            iv,
            aad,
            text,
        } => seal_iv(parts, slot, length, iv, aad, text, port),
        Request::Open {
            slot,
            iv,
            aad,
            text,
            tag,
        } => open(parts, slot, iv, aad, text, tag, port),
        Request::Wrap { kek, second } => wrap(parts, false, kek, second, port),
        Request::WrapPad { kek, second } => wrap(parts, true, kek, second, port),
        Request::Random { length, additional } => random(parts, noise, length, additional, port),
        Request::PowerOn { .. }
        | Request::TestStep
        | Request::RequestTests
        | Request::ShowStatus
        | Request::ShowVersion
        | Request::SelectRole { .. }
        | Request::Reset
        | Request::EntryBegin { .. }
        | Request::EntryBytes { .. }
        | Request::EntryCommit { .. }
        | Request::EntryAbort
        | Request::Zeroise { .. }
        | Request::ZeroiseTree { .. }
        | Request::ZeroiseAll
        | Request::ShowSlot { .. }
        | Request::MacVerify { .. }
        | Request::Unwrap { .. }
        | Request::UnwrapPad { .. }
        | Request::Derive { .. }
        | Request::Generate { .. }
        | Request::Reseed { .. } => unreachable!(),
    }
}

// The services that never give data.
fn perform_without_data<E: Engine, N: Noise>(
    parts: &mut Parts<E>,
    noise: &mut N,
    request: &Request<'_>,
    port: &mut Port<'_, Inhibited>,
) -> Outcome
    requires empty { port.old.outbox.now.bytes ≡ [] }
    requires room { port.old.outbox.now.room ≡ LARGEST_PAYLOAD }
    requires cryptographic { (what : CryptographicRequest) × (request_value request.now ≡ Cryptographic what) × IsCryptographicInRange what
        × (class_of (cryptographic_service_for what) ≡ classes.Nothing) }
    requires counts { (samples : List ℕ) × Counts parts.old.health samples }
    requires seeded { 1 ≤ parts.old.drbg.counter }
    requires well_formed { AreWellFormed parts.old.vault }
    ensures performs { Explained (N.left noise.old) (N.left noise.new) (λ events left. (samples : List ℕ) (what : CryptographicRequest) → Counts parts.old.health samples →
        request_value request.now ≡ Cryptographic what → Performs E.calls what parts.old parts.new result port.new.outbox.now.bytes samples events left) }
    ensures fault_counted { MatchOption result.failure (N.faults noise.new ≡ N.faults noise.old)
        (λ failure. failure ≡ Failure.NoiseFailed → FaultCounted (N.faults noise.old) (N.faults noise.new)) }
    ensures same { port.new.outbox.ghost_name ≡ port.old.outbox.ghost_name }
    ensures room { port.new.outbox.now.room ≡ LARGEST_PAYLOAD }
    ensures well_formed { AreWellFormed parts.new.vault }
{
    match *request {
        Request::MacVerify {
            slot,
            alg,
            tag,
            text,
        } => mac_verify(parts, slot, alg, tag, text, port),
        Request::Unwrap {
            kek,
            target,
            kind,
            export,
            uses,
            wrapped,
        } => unwrap(parts, false, kek, target, kind, export, uses, wrapped, port),
        Request::UnwrapPad {
            kek,
            target,
            kind,
            export,
            uses,
            wrapped,
        } => unwrap(parts, true, kek, target, kind, export, uses, wrapped, port),
        Request::Derive {
            source,
            target,
            kind,
            export,
            uses,
            length,
            label,
            context,
        } => derive(
            parts, source, target, kind, export, uses, length, label, context, port,
        ),
        Request::Generate {
            target,
            header,
            length,
        } => generate(parts, noise, target, &header, length, port),
        Request::Reseed { additional } => reseed(parts, noise, additional, port),
        Request::PowerOn { .. }
        | Request::TestStep
        | Request::RequestTests
        | Request::ShowStatus
        | Request::ShowVersion
        | Request::SelectRole { .. }
        | Request::Reset
        | Request::EntryBegin { .. }
        | Request::EntryBytes { .. }
        | Request::EntryCommit { .. }
        | Request::EntryAbort
        | Request::Zeroise { .. }
        | Request::ZeroiseTree { .. }
        | Request::ZeroiseAll
        | Request::ShowSlot { .. }
        | Request::Hash { .. }
        | Request::Mac { .. }
        | Request::Seal { .. }
        | Request::SealIv { .. }
        | Request::Open { .. }
        | Request::Wrap { .. }
        | Request::WrapPad { .. }
        | Request::Random { .. } => unreachable!(),
    }
}
