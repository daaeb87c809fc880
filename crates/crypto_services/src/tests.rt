//! Values of FIPS 180-4, RFC 4231 and Python's hmac.
mod draw_rows;
mod draws;
mod seal_rows;
mod sealing;

ghost use Rattle.std.specs.Prelude.{◌≡◌, ◌<◌, ◌≤◌, length};
ghost use Rattle.bits_core.specs.declared.limits.TheConstants.{LARGEST_PAYLOAD};

use crate::{Outcome, Parts, hash, mac, mac_verify};
use bits_core::{
    Alg, Domain, Enabled, Header, Inhibited, Kind, LARGEST_PAYLOAD, Outbox, Port, SlotId,
};
use engine_core::{Engine, Faulty, Shipped};
use service_table::Status;
use std::process::Abort;
use std::test::Fail;

mod derivations;

// The digest of `abc` under SHA-256.
const ABC: [u8; 32] = [
    0xba, 0x78, 0x16, 0xbf, 0x8f, 0x01, 0xcf, 0xea, 0x41, 0x41, 0x40, 0xde, 0x5d, 0xae, 0x22, 0x23,
    0xb0, 0x03, 0x61, 0xa3, 0x96, 0x17, 0x7a, 0x9c, 0xb4, 0x10, 0xff, 0x61, 0xf2, 0x00, 0x15, 0xad,
];

// The second case of RFC 4231, under SHA-256.
const JEFE: [u8; 32] = [
    0x5b, 0xdc, 0xc1, 0x46, 0xbf, 0x60, 0x75, 0x4e, 0x6a, 0x04, 0x24, 0x26, 0x08, 0x95, 0x75, 0xc7,
    0x5a, 0x00, 0x3f, 0x08, 0x9d, 0x27, 0x39, 0x83, 0x9d, 0xec, 0x58, 0xb9, 0x64, 0xec, 0x38, 0x43,
];

// The same text under the key `fourteen bytes`.
const FOURTEEN: [u8; 32] = [
    0x47, 0x0e, 0xc8, 0xe2, 0xc2, 0xdb, 0x4f, 0x4c, 0x6c, 0x74, 0x52, 0x00, 0xe9, 0x8b, 0x74, 0x48,
    0xf2, 0x88, 0xf7, 0x69, 0x43, 0xa8, 0x30, 0x3d, 0xe5, 0x84, 0x7d, 0x99, 0x3d, 0xae, 0xde, 0xd6,
];

pub(crate) fn slot_at(number: u8) -> SlotId
    requires { number < 16 }
    ensures { result ≡ number }
{
    SlotId::new(number).unwrap()
}

fn mac_header(domain: Domain, uses: u32) -> Header
    ensures kind { result.kind ≡ Kind.Mac }
    ensures domain { result.domain ≡ domain }
    ensures uses { result.uses ≡ uses }
{
    Header {
        kind: Kind::Mac,
        domain,
        export: false,
        uses,
    }
}

pub(crate) fn outcome(status: Status, approved: bool) -> Outcome {
    Outcome {
        status,
        failure: None,
        approved,
    }
}

// The digest of `abc` under SHA-256, in `outbox`.
fn hash_in<E: Engine>(parts: &mut Parts<E>, outbox: &mut Outbox) -> Outcome
    requires { LARGEST_PAYLOAD ≤ outbox.old.room }
    ensures { outbox.new.room ≡ outbox.old.room }
{
    let mut port = Port::<Enabled>::over(outbox);
    hash(parts, Alg::Sha256, b"abc", &mut port)
}

// A MAC under SHA-256, in `outbox`.
fn mac_in<E: Engine>(
    parts: &mut Parts<E>,
    slot: SlotId,
    mac_length: usize,
    outbox: &mut Outbox,
) -> Outcome
    requires least { 1 ≤ mac_length }
    requires most { mac_length ≤ 32 }
    requires room { LARGEST_PAYLOAD ≤ outbox.old.room }
    ensures { outbox.new.room ≡ outbox.old.room }
{
    let mut port = Port::<Enabled>::over(outbox);
    mac(
        parts,
        slot,
        Alg::Sha256,
        mac_length,
        b"what do ya want for nothing?",
        &mut port,
    )
}

// A check of a tag under SHA-256.
fn verify<E: Engine>(parts: &mut Parts<E>, slot: SlotId, tag: &[u8], outbox: &mut Outbox) -> Outcome
    requires least { 1 ≤ length tag.now }
    requires most { length tag.now ≤ 32 }
    ensures { outbox.new.room ≡ outbox.old.room }
{
    let mut port = Port::<Inhibited>::over(outbox);
    mac_verify(
        parts,
        slot,
        Alg::Sha256,
        tag,
        b"what do ya want for nothing?",
        &mut port,
    )
}

// A tag with bits of one byte turned.
fn turned(right: &[u8; 32], place: usize, mask: u8) -> [u8; 32]
    requires { place < 32 }
{
    let mut tag = *right;
    tag[place] ^= mask;
    tag
}

// A check of the MAC of RFC 4231, cut behind a place where these bits are turned.
fn verify_cut<E: Engine>(
    parts: &mut Parts<E>,
    slot: SlotId,
    place: usize,
    mask: u8,
    outbox: &mut Outbox,
) -> Outcome
    requires { place < 32 }
    ensures { outbox.new.room ≡ outbox.old.room }
{
    let tag = turned(&JEFE, place, mask);
    verify(parts, slot, &tag[..place + 1], outbox)
}

pub(crate) fn expect_uses<E: Engine>(rt: &impl Abort, parts: &Parts<E>, slot: SlotId, want: u32) {
    assert_eq!(rt;
        parts.vault.show(slot).header.map(|header| header.uses),
        Some(want)
    );
}

#[test]
fn published_values_come_out(rt: HostRuntime) -> Result<(), Fail> {
    let mut parts = Parts::new(rt.alloc(), Shipped::new())?;
    let mut outbox = Outbox::new(rt.alloc(), LARGEST_PAYLOAD)?;
    let slot = slot_at(3);
    let answer = hash_in(&mut parts, &mut outbox);
    assert_eq!(rt; answer, outcome(Status::Ok, true));
    assert_eq!(rt; outbox.bytes(), ABC.as_slice());
    let header = mac_header(Domain::Other, 1);
    assert_eq!(rt; parts.vault.put(slot, &header, b"Jefe"), Ok(()));
    let answer = mac_in(&mut parts, slot, 32, &mut outbox);
    assert_eq!(rt; answer, outcome(Status::Ok, false));
    assert_eq!(rt; outbox.bytes(), JEFE.as_slice());
    Ok(())
}

#[test]
fn refusals_come_in_their_order(rt: HostRuntime) -> Result<(), Fail> {
    let mut parts = Parts::new(rt.alloc(), Shipped::new())?;
    let mut outbox = Outbox::new(rt.alloc(), LARGEST_PAYLOAD)?;
    let aes = slot_at(1);
    let slot = slot_at(2);
    let header = Header {
        kind: Kind::Aes,
        domain: Domain::Approved,
        export: false,
        uses: 1,
    };
    assert_eq!(rt; parts.vault.put(aes, &header, &[7; 16]), Ok(()));
    let answer = mac_in(&mut parts, slot, 3, &mut outbox);
    assert_eq!(rt; answer, outcome(Status::EmptySlot, false));
    let answer = mac_in(&mut parts, aes, 3, &mut outbox);
    assert_eq!(rt; answer, outcome(Status::WrongKind, false));
    let header = mac_header(Domain::Approved, 1);
    assert_eq!(rt; parts.vault.put(slot, &header, b"fourteen bytes"), Ok(()));
    let answer = mac_in(&mut parts, slot, 3, &mut outbox);
    assert_eq!(rt; answer, outcome(Status::WrongDomain, false));
    assert_eq!(rt; outbox.bytes().len(), 0);
    let answer = mac_in(&mut parts, slot, 4, &mut outbox);
    assert_eq!(rt; answer, outcome(Status::Ok, true));
    assert_eq!(rt; outbox.bytes(), &FOURTEEN[..4]);
    let answer = mac_in(&mut parts, slot, 3, &mut outbox);
    assert_eq!(rt; answer, outcome(Status::WrongDomain, false));
    let answer = mac_in(&mut parts, slot, 4, &mut outbox);
    assert_eq!(rt; answer, outcome(Status::Spent, false));
    assert_eq!(rt; outbox.bytes().len(), 0);
    let answer = verify(&mut parts, slot, &FOURTEEN, &mut outbox);
    assert_eq!(rt; answer, outcome(Status::Spent, false));
    expect_uses(&rt, &parts, slot, 0);
    Ok(())
}

#[test]
fn tags_are_checked(rt: HostRuntime) -> Result<(), Fail> {
    let mut parts = Parts::new(rt.alloc(), Shipped::new())?;
    let mut outbox = Outbox::new(rt.alloc(), 4)?;
    let other = slot_at(0);
    let slot = slot_at(15);
    let header = mac_header(Domain::Other, 64);
    assert_eq!(rt; parts.vault.put(other, &header, b"Jefe"), Ok(()));
    for place in 0usize..32 {
        let answer = verify_cut(&mut parts, other, place, 0, &mut outbox);
        assert_eq!(rt; answer, outcome(Status::Ok, false));
        let answer = verify_cut(&mut parts, other, place, 0x80, &mut outbox);
        assert_eq!(rt; answer, outcome(Status::AuthFailed, false));
    }
    expect_uses(&rt, &parts, other, 0);
    let header = mac_header(Domain::Approved, 2);
    assert_eq!(rt; parts.vault.put(slot, &header, b"fourteen bytes"), Ok(()));
    let answer = verify(&mut parts, slot, &FOURTEEN[..3], &mut outbox);
    assert_eq!(rt; answer, outcome(Status::WrongDomain, false));
    let answer = verify(&mut parts, slot, &JEFE[..4], &mut outbox);
    assert_eq!(rt; answer, outcome(Status::AuthFailed, false));
    expect_uses(&rt, &parts, slot, 1);
    let answer = verify(&mut parts, slot, &FOURTEEN[..4], &mut outbox);
    assert_eq!(rt; answer, outcome(Status::Ok, true));
    expect_uses(&rt, &parts, slot, 0);
    assert_eq!(rt; outbox.bytes().len(), 0);
    Ok(())
}

#[test]
fn a_fault_of_the_engine_shows(rt: HostRuntime) -> Result<(), Fail> {
    let mut parts = Parts::new(rt.alloc(), Faulty::new(1, 0, 0))?;
    let mut outbox = Outbox::new(rt.alloc(), LARGEST_PAYLOAD)?;
    let slot = slot_at(3);
    let header = mac_header(Domain::Other, 2);
    assert_eq!(rt; parts.vault.put(slot, &header, b"Jefe"), Ok(()));
    let mut want = JEFE;
    want[0] ^= 1;
    let answer = mac_in(&mut parts, slot, 32, &mut outbox);
    assert_eq!(rt; answer, outcome(Status::Ok, false));
    assert_eq!(rt; outbox.bytes(), want.as_slice());
    let answer = verify(&mut parts, slot, &JEFE, &mut outbox);
    assert_eq!(rt; answer, outcome(Status::AuthFailed, false));
    Ok(())
}
