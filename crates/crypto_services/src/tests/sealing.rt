//! The services that seal and open, with values of Python's cryptography.
ghost use Rattle.std.specs.Prelude.{◌≡◌, ◌≤◌, ◌+◌, length};
ghost use Rattle.bits_core.specs.declared.limits.TheConstants.{LARGEST_PAYLOAD};
ghost use Rattle.gcm_mode.specs.Gcm.{IsIv, IsTagLength};

use super::draws::{counting, expect_ready, failed, seeded};
use super::{expect_uses, outcome, seal_rows as rows, slot_at};
use crate::{Outcome, Parts, open, seal, seal_iv};
use bits_core::{Domain, Enabled, Header, Kind, LARGEST_PAYLOAD, Outbox, Port, SlotId};
use engine_core::Shipped;
use outside::MemNoise;
use service_table::{Failure, Status};
use std::process::Abort;
use std::test::Fail;

const TEXT: &[u8] = b"what do ya want for nothing?";

const OTHER: Header = Header {
    kind: Kind::Aes,
    domain: Domain::Other,
    export: false,
    uses: 2,
};

const APPROVED: Header = Header {
    kind: Kind::Aes,
    domain: Domain::Approved,
    export: false,
    uses: 3,
};

const KEK: Header = Header {
    kind: Kind::Kek,
    domain: Domain::Approved,
    export: false,
    uses: 1,
};

// A text sealed with an IV of the caller's, in `outbox`.
fn seal_iv_in(
    parts: &mut Parts<Shipped>,
    slot: SlotId,
    tag_length: usize,
    iv: &[u8],
    aad: &[u8],
    outbox: &mut Outbox,
) -> Outcome
    requires tag { IsTagLength tag_length }
    requires iv { IsIv iv.now }
    requires aad { length aad.now ≤ 64 }
    requires room { LARGEST_PAYLOAD ≤ outbox.old.room }
    ensures { outbox.new.room ≡ outbox.old.room }
{
    let mut port = Port::<Enabled>::over(outbox);
    seal_iv(parts, slot, tag_length, iv, aad, TEXT, &mut port)
}

// A text opened under the IV of twelve bytes, in `outbox`.
fn open_in(
    parts: &mut Parts<Shipped>,
    slot: SlotId,
    text: &[u8],
    tag: &[u8],
    outbox: &mut Outbox,
) -> Outcome
    requires text { length text.now ≤ 64 }
    requires tag { IsTagLength (length tag.now) }
    requires room { LARGEST_PAYLOAD ≤ outbox.old.room }
    ensures { outbox.new.room ≡ outbox.old.room }
{
    let mut port = Port::<Enabled>::over(outbox);
    open(parts, slot, &rows::IV, b"header", text, tag, &mut port)
}

// A text sealed with an IV that is drawn, in `outbox`.
fn seal_in(
    rt: &impl Abort,
    parts: &mut Parts<Shipped>,
    noise: &mut MemNoise,
    slot: SlotId,
    tag_length: usize,
    outbox: &mut Outbox,
) -> Outcome
    requires tag { IsTagLength tag_length }
    requires room { LARGEST_PAYLOAD ≤ outbox.old.room }
    ensures { outbox.new.room ≡ outbox.old.room }
{
    expect_ready(rt, parts);
    let mut port = Port::<Enabled>::over(outbox);
    seal(parts, noise, slot, tag_length, b"header", TEXT, &mut port)
}

#[test]
fn texts_are_sealed_with_the_callers_iv(rt: HostRuntime) -> Result<(), Fail> {
    let mut parts = Parts::new(rt.alloc(), Shipped::new())?;
    let mut outbox = Outbox::new(rt.alloc(), LARGEST_PAYLOAD)?;
    let slot = slot_at(3);
    assert_eq!(rt; parts.vault.put(slot, &OTHER, &rows::KEY), Ok(()));
    let answer = seal_iv_in(&mut parts, slot, 16, &rows::IV, b"header", &mut outbox);
    assert_eq!(rt; answer, outcome(Status::Ok, false));
    assert_eq!(rt; outbox.bytes(), rows::SEALED.as_slice());
    let answer = seal_iv_in(&mut parts, slot, 12, &rows::LONG_IV, b"", &mut outbox);
    assert_eq!(rt; answer, outcome(Status::Ok, false));
    assert_eq!(rt; outbox.bytes(), &rows::SEALED_BY_LONG_IV[..40]);
    let answer = seal_iv_in(&mut parts, slot, 16, &rows::IV, b"header", &mut outbox);
    assert_eq!(rt; answer, outcome(Status::Spent, false));
    assert_eq!(rt; outbox.bytes().len(), 0);
    Ok(())
}

#[test]
fn texts_are_opened_where_the_tag_is_right(rt: HostRuntime) -> Result<(), Fail> {
    let mut parts = Parts::new(rt.alloc(), Shipped::new())?;
    let mut outbox = Outbox::new(rt.alloc(), LARGEST_PAYLOAD)?;
    let slot = slot_at(15);
    assert_eq!(rt; parts.vault.put(slot, &APPROVED, &rows::KEY), Ok(()));
    let (text, tag) = rows::SEALED.split_at(28);
    let answer = open_in(&mut parts, slot, text, &tag[..12], &mut outbox);
    assert_eq!(rt; answer, outcome(Status::Ok, true));
    assert_eq!(rt; outbox.bytes(), TEXT);
    let mut wrong = rows::TAG_ALONE;
    wrong[15] ^= 1;
    let answer = open_in(&mut parts, slot, text, &wrong, &mut outbox);
    assert_eq!(rt; answer, outcome(Status::AuthFailed, false));
    assert_eq!(rt; outbox.bytes().len(), 0);
    let answer = open_in(&mut parts, slot, b"", &rows::TAG_ALONE, &mut outbox);
    assert_eq!(rt; answer, outcome(Status::Ok, true));
    assert_eq!(rt; outbox.bytes().len(), 0);
    expect_uses(&rt, &parts, slot, 0);
    let answer = open_in(&mut parts, slot, text, tag, &mut outbox);
    assert_eq!(rt; answer, outcome(Status::Spent, false));
    Ok(())
}

#[test]
fn refusals_of_sealing_come_in_their_order(rt: HostRuntime) -> Result<(), Fail> {
    let mut parts = Parts::new(rt.alloc(), Shipped::new())?;
    let mut outbox = Outbox::new(rt.alloc(), LARGEST_PAYLOAD)?;
    let kek = slot_at(1);
    let slot = slot_at(2);
    let spent = Header {
        uses: 1,
        ..APPROVED
    };
    assert_eq!(rt; parts.vault.put(kek, &KEK, &rows::KEY), Ok(()));
    let answer = seal_iv_in(&mut parts, slot, 16, &rows::IV, b"", &mut outbox);
    assert_eq!(rt; answer, outcome(Status::EmptySlot, false));
    let answer = seal_iv_in(&mut parts, kek, 16, &rows::IV, b"", &mut outbox);
    assert_eq!(rt; answer, outcome(Status::WrongKind, false));
    let answer = open_in(&mut parts, slot, b"", &rows::TAG_ALONE, &mut outbox);
    assert_eq!(rt; answer, outcome(Status::EmptySlot, false));
    let answer = open_in(&mut parts, kek, b"", &rows::TAG_ALONE, &mut outbox);
    assert_eq!(rt; answer, outcome(Status::WrongKind, false));
    expect_uses(&rt, &parts, kek, 1);
    assert_eq!(rt; parts.vault.put(slot, &spent, &rows::KEY), Ok(()));
    let answer = seal_iv_in(&mut parts, slot, 16, &rows::IV, b"", &mut outbox);
    assert_eq!(rt; answer, outcome(Status::WrongDomain, false));
    expect_uses(&rt, &parts, slot, 1);
    let answer = open_in(&mut parts, slot, b"", &rows::TAG_ALONE, &mut outbox);
    assert_eq!(rt; answer, outcome(Status::Ok, true));
    // Of another domain and spent: the domain is told first.
    let answer = seal_iv_in(&mut parts, slot, 16, &rows::IV, b"", &mut outbox);
    assert_eq!(rt; answer, outcome(Status::WrongDomain, false));
    assert_eq!(rt; outbox.bytes().len(), 0);
    Ok(())
}

#[test]
fn texts_are_sealed_with_a_drawn_iv(rt: HostRuntime) -> Result<(), Fail> {
    let mut noise = counting(rt.alloc(), 1_408)?;
    let mut parts = seeded(&rt, rt.alloc(), &mut noise)?;
    let mut outbox = Outbox::new(rt.alloc(), LARGEST_PAYLOAD)?;
    let kek = slot_at(1);
    let slot = slot_at(2);
    assert_eq!(rt; parts.vault.put(kek, &KEK, &rows::KEY), Ok(()));
    assert_eq!(rt; parts.vault.put(slot, &APPROVED, &rows::KEY), Ok(()));
    let answer = seal_in(&rt, &mut parts, &mut noise, slot, 16, &mut outbox);
    assert_eq!(rt; answer, outcome(Status::Ok, true));
    assert_eq!(rt; outbox.bytes(), rows::DRAWN.as_slice());
    let answer = seal_in(&rt, &mut parts, &mut noise, slot_at(3), 16, &mut outbox);
    assert_eq!(rt; answer, outcome(Status::EmptySlot, false));
    let answer = seal_in(&rt, &mut parts, &mut noise, kek, 16, &mut outbox);
    assert_eq!(rt; answer, outcome(Status::WrongKind, false));
    assert_eq!(rt; outbox.bytes().len(), 0);
    let answer = seal_in(&rt, &mut parts, &mut noise, slot, 12, &mut outbox);
    assert_eq!(rt; answer, outcome(Status::Ok, true));
    assert_eq!(rt; outbox.bytes(), rows::DRAWN_LATER.as_slice());
    expect_uses(&rt, &parts, kek, 1);
    expect_uses(&rt, &parts, slot, 1);
    Ok(())
}

#[test]
fn a_noise_that_fails_refuses_a_seal_first(rt: HostRuntime) -> Result<(), Fail> {
    let mut noise = counting(rt.alloc(), 1_408)?;
    let mut parts = seeded(&rt, rt.alloc(), &mut noise)?;
    let mut outbox = Outbox::new(rt.alloc(), LARGEST_PAYLOAD)?;
    let slot = slot_at(2);
    assert_eq!(rt; parts.vault.put(slot, &APPROVED, &rows::KEY), Ok(()));
    // As after 1,024 requests. The slot is empty too.
    parts.drbg.counter = 1_025;
    let answer = seal_in(&rt, &mut parts, &mut noise, slot_at(3), 16, &mut outbox);
    assert_eq!(rt; answer, failed(Failure::NoiseFailed));
    let answer = seal_in(&rt, &mut parts, &mut noise, slot, 16, &mut outbox);
    assert_eq!(rt; answer, failed(Failure::NoiseEnded));
    assert_eq!(rt; outbox.bytes().len(), 0);
    expect_uses(&rt, &parts, slot, 3);
    Ok(())
}
