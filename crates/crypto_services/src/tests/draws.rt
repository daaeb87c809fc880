//! The services that draw, over noise that counts up, with values of the standard's steps over Python's hmac.
ghost use Rattle.std.specs.Prelude.{◌≡◌, ◌≤◌, ℕ, List, IsTrue, MatchOption};
ghost use Rattle.std.specs.Bool.{⊤};
ghost use Rattle.bits_core.specs.declared.limits.TheConstants.{LARGEST_PAYLOAD};
ghost use Rattle.bits_core.specs.Parameters.{length_fits};
ghost use Rattle.noise_health.specs.Counts.{Counts};

use super::{draw_rows as rows, outcome, slot_at};
use crate::{Outcome, Parts, generate, random, reseed, seed};
use bits_core::{
    Alg, Domain, Enabled, Header, Inhibited, Kind, LARGEST_PAYLOAD, Outbox, Port, SlotId,
};
use engine_core::{Engine, Shipped};
use noise_health::Health;
use outside::{MemNoise, Noise, Sample};
use service_table::{Failure, Status};
use std::alloc::{AllocError, Global};
use std::process::Abort;
use std::test::Fail;

// Noise of so many bytes 00, 01, .. ff, and so on from 00, and then a failed read.
pub(super) fn counting(alloc: Global, count: usize) -> Result<MemNoise, AllocError> {
    let mut events = Vec::new(alloc);
    for at in 0..count {
        events.push(Sample::Byte(at.to_le_bytes()[0]))?;
    }
    events.push(Sample::Failed)?;
    Ok(MemNoise::new(events))
}

// Parts whose generator was seeded.
pub(super) fn seeded(
    rt: &impl Abort,
    alloc: Global,
    noise: &mut MemNoise,
) -> Result<Parts<Shipped>, AllocError> {
    let mut parts = Parts::new(alloc, Shipped::new())?;
    match seed(&mut parts, noise) {
        Ok(_) => Ok(parts),
        Err(_) => panic!(rt; "the noise failed"),
    }
}

// The counters count anew, and the generator was seeded.
pub(super) fn expect_ready(rt: &impl Abort, parts: &mut Parts<Shipped>)
    ensures counts { (samples : List ℕ) × Counts parts.new.health samples }
    ensures seeded { 1 ≤ parts.new.drbg.counter }
{
    parts.health = Health::new();
    assert!(rt; parts.drbg.counter >= 1);
}

// Random bits in `outbox`.
fn random_in(
    rt: &impl Abort,
    parts: &mut Parts<Shipped>,
    noise: &mut MemNoise,
    count: usize,
    additional: &[u8],
    outbox: &mut Outbox,
) -> Outcome
    requires least { 1 ≤ count }
    requires most { count ≤ 65536 }
    requires room { LARGEST_PAYLOAD ≤ outbox.old.room }
    ensures { outbox.new.room ≡ outbox.old.room }
{
    expect_ready(rt, parts);
    let mut port = Port::<Enabled>::over(outbox);
    random(parts, noise, count, additional, &mut port)
}

// A drawn parameter for slot 2.
fn generate_in(
    rt: &impl Abort,
    parts: &mut Parts<Shipped>,
    noise: &mut MemNoise,
    header: &Header,
    count: usize,
    outbox: &mut Outbox,
) -> Outcome
    requires fits { IsTrue (length_fits header.now.kind header.now.domain count) }
    requires uses { 1 ≤ header.now.uses }
    ensures { outbox.new.room ≡ outbox.old.room }
{
    expect_ready(rt, parts);
    let mut port = Port::<Inhibited>::over(outbox);
    generate(parts, noise, slot_at(2), header, count, &mut port)
}

// A new seed.
fn reseed_in(
    rt: &impl Abort,
    parts: &mut Parts<Shipped>,
    noise: &mut MemNoise,
    additional: &[u8],
    outbox: &mut Outbox,
) -> Outcome
    ensures { outbox.new.room ≡ outbox.old.room }
{
    expect_ready(rt, parts);
    let mut port = Port::<Inhibited>::over(outbox);
    reseed(parts, noise, additional, &mut port)
}

const AES: Header = Header {
    kind: Kind::Aes,
    domain: Domain::Approved,
    export: true,
    uses: 5,
};

const MAC: Header = Header {
    kind: Kind::Mac,
    domain: Domain::Approved,
    export: false,
    uses: 1,
};

const KDF: Header = Header {
    kind: Kind::Kdf,
    domain: Domain::Other,
    export: false,
    uses: 4_294_967_295,
};

pub(super) fn failed(failure: Failure) -> Outcome {
    Outcome {
        status: Status::NoiseFault,
        failure: Some(failure),
        approved: false,
    }
}

// A SHA-256 digest, among the bytes that an engine gives it in.
fn first_half(out: &[u8; 64]) -> &[u8] {
    &out[..32]
}

#[test]
fn random_bits_come_out(rt: HostRuntime) -> Result<(), Fail> {
    let mut noise = counting(rt.alloc(), 1_408)?;
    let mut parts = seeded(&rt, rt.alloc(), &mut noise)?;
    let mut outbox = Outbox::new(rt.alloc(), LARGEST_PAYLOAD)?;
    let answer = random_in(&rt, &mut parts, &mut noise, 1, &[], &mut outbox);
    assert_eq!(rt; answer, outcome(Status::Ok, true));
    assert_eq!(rt; outbox.bytes(), rows::ONE_BYTE.as_slice());
    let answer = random_in(&rt, &mut parts, &mut noise, 40, b"more", &mut outbox);
    assert_eq!(rt; answer, outcome(Status::Ok, true));
    assert_eq!(rt; outbox.bytes(), rows::FORTY_BYTES.as_slice());
    let answer = random_in(&rt, &mut parts, &mut noise, 65_536, b"more", &mut outbox);
    assert_eq!(rt; answer, outcome(Status::Ok, true));
    assert_eq!(rt; outbox.bytes().len(), 65_536);
    let mut digest = [0; 64];
    Shipped::new().hash(Alg::Sha256, outbox.bytes(), &mut digest);
    assert_eq!(rt; first_half(&digest), rows::LARGEST_DIGEST.as_slice());
    Ok(())
}

#[test]
fn drawn_keys_fill_slots(rt: HostRuntime) -> Result<(), Fail> {
    let mut noise = counting(rt.alloc(), 1_408)?;
    let mut parts = seeded(&rt, rt.alloc(), &mut noise)?;
    let mut outbox = Outbox::new(rt.alloc(), 4)?;
    let slot = slot_at(2);
    let answer = generate_in(&rt, &mut parts, &mut noise, &AES, 32, &mut outbox);
    assert_eq!(rt; answer, outcome(Status::Ok, true));
    assert_eq!(rt; parts.vault.show(slot).header, Some(AES));
    assert_eq!(rt; parts.vault.bytes(slot), rows::APPROVED_KEY.as_slice());
    let answer = generate_in(&rt, &mut parts, &mut noise, &MAC, 14, &mut outbox);
    assert_eq!(rt; answer, outcome(Status::OccupiedSlot, false));
    assert_eq!(rt; parts.vault.show(slot).header, Some(AES));
    assert_eq!(rt; parts.vault.bytes(slot), rows::APPROVED_KEY.as_slice());
    parts.vault.zeroise(slot);
    let answer = generate_in(&rt, &mut parts, &mut noise, &KDF, 3, &mut outbox);
    assert_eq!(rt; answer, outcome(Status::Ok, false));
    assert_eq!(rt; parts.vault.show(slot).header, Some(KDF));
    assert_eq!(rt; parts.vault.bytes(slot), rows::OTHER_KEY.as_slice());
    assert_eq!(rt; parts.drbg.counter, 4);
    assert_eq!(rt; outbox.bytes().len(), 0);
    Ok(())
}

#[test]
fn draws_and_commands_reseed(rt: HostRuntime) -> Result<(), Fail> {
    let mut noise = counting(rt.alloc(), 1_920)?;
    let mut parts = seeded(&rt, rt.alloc(), &mut noise)?;
    let mut outbox = Outbox::new(rt.alloc(), LARGEST_PAYLOAD)?;
    // As after 1,024 requests.
    parts.drbg.counter = 1_025;
    let answer = random_in(&rt, &mut parts, &mut noise, 12, b"more", &mut outbox);
    assert_eq!(rt; answer, outcome(Status::Ok, true));
    assert_eq!(rt; outbox.bytes(), rows::RESEEDED_BYTES.as_slice());
    let answer = reseed_in(&rt, &mut parts, &mut noise, b"input", &mut outbox);
    assert_eq!(rt; answer, outcome(Status::Ok, true));
    assert_eq!(rt; outbox.bytes().len(), 0);
    let drbg = &parts.drbg;
    assert_eq!(rt;
        (drbg.k, drbg.v, drbg.counter),
        (rows::RESEEDED_K, rows::RESEEDED_V, 1)
    );
    assert_eq!(rt; noise.next(), Sample::Failed);
    Ok(())
}

#[test]
fn failed_noise_comes_first(rt: HostRuntime) -> Result<(), Fail> {
    let mut noise = counting(rt.alloc(), 1_663)?;
    let mut parts = seeded(&rt, rt.alloc(), &mut noise)?;
    let mut outbox = Outbox::new(rt.alloc(), LARGEST_PAYLOAD)?;
    let slot = slot_at(2);
    assert_eq!(rt; parts.vault.put(slot, &MAC, b"fourteen bytes"), Ok(()));
    parts.drbg.counter = 1_025;
    let (k, v) = (parts.drbg.k, parts.drbg.v);
    // One sample is missing, and the slot is full too.
    let answer = generate_in(&rt, &mut parts, &mut noise, &AES, 16, &mut outbox);
    assert_eq!(rt; answer, failed(Failure::NoiseFailed));
    let answer = random_in(&rt, &mut parts, &mut noise, 16, &[], &mut outbox);
    assert_eq!(rt; answer, failed(Failure::NoiseEnded));
    let answer = reseed_in(&rt, &mut parts, &mut noise, &[], &mut outbox);
    assert_eq!(rt; answer, failed(Failure::NoiseEnded));
    assert_eq!(rt; outbox.bytes().len(), 0);
    let drbg = &parts.drbg;
    assert_eq!(rt; (drbg.k, drbg.v, drbg.counter), (k, v, 1_025));
    assert_eq!(rt; parts.vault.show(slot).header, Some(MAC));
    assert_eq!(rt; parts.vault.bytes(slot), b"fourteen bytes".as_slice());
    Ok(())
}
