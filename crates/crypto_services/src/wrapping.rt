// Parameters that leave and enter the module wrapped under the keys of the vault.
ghost use Rattle.std.specs.Prelude.{◌≡◌, ◌≢◌, ◌≤◌, ◌+◌, ◌-◌, ◌∷◌, ◌++◌, true, None, [], IfSome, length, take, drop};
ghost use Rattle.bits_core.specs.declared.limits.TheConstants.{LARGEST_PAYLOAD};
ghost use Rattle.bits_core.specs.ByteList.{zeros};
ghost use Rattle.bits_core.specs.OutboxContents.{holding};
ghost use Rattle.engine_core.specs.Inputs.{IsWrappable, IsUnwrappable};
ghost use Rattle.gcm_mode.specs.Filled.{IsFilled};
ghost use Rattle.ssp_slots.specs.PreparedKeys.{has_prepared_key};
ghost use Rattle.ssp_slots.specs.Refusals.{vacancy_fault};
ghost use Rattle.ssp_slots.specs.Slots.{AreWellFormed, parameter};
ghost use Rattle.service_table.specs.Services.{wrapping_service, unwrapping_service};
ghost use Rattle.crypto_services.specs.AtSlots.{slot_at, on_no_slot, on_slot, success, domain_at};
ghost use Rattle.crypto_services.specs.Serves.{Serves, ServesInPart};
ghost use Rattle.crypto_services.specs.Wrapping.{is_wrappable, wrapping_in, wrap_at, wrap_result, filled_by_unwrapping, unwrap_at, unwrap_result};

use crate::outcome::{status_of, with_indicator};
use crate::{Outcome, Parts};
use bits_core::{Domain, Enabled, Header, Inhibited, Kind, Port, SlotId, fits, wipe};
use engine_core::Engine;
use gcm_mode::Prepared;
use service_table::{Service, Status, approved};
use ssp_slots::Vault;

/// How many bytes a semiblock has: half a block of AES (SP 800-38F, 4.1).
const SEMIBLOCK: usize = 8;

/// How many bytes are wrapped at least where they aren't padded: two semiblocks (SP 800-38F, 5.3.1).
const LEAST_UNPADDED: usize = 2 * SEMIBLOCK;

/// The parameter of the slot `second`, wrapped under the key of the slot `kek` (SP 800-38F, 6.2, and with padding 6.3), as payload:
/// 8 bytes more than the parameter has, with padding after it was filled up to a multiple of 8.
/// Refused, in this order, with nothing spent: `kek` is empty (EmptySlot); it holds no key-encryption key (WrongKind); its key has no
/// use left (Spent). Refused then, in this order, with one use of the key spent: `second` is empty (EmptySlot); its parameter may not
/// leave (NotExportable); it is of another domain than the key (WrongDomain); without padding, its length isn't a multiple of 8 from
/// 16 on (BadLength). One use of the key is spent where it is wrapped too; `second` stays as it is.
pub fn wrap<E: Engine>(
    parts: &mut Parts<E>,
    pad: bool,
    kek: SlotId,
    second: SlotId,
    port: &mut Port<'_, Enabled>,
) -> Outcome
    requires differ { kek ≢ second }
    requires empty { port.old.outbox.now.bytes ≡ [] }
    requires room { LARGEST_PAYLOAD ≤ port.old.outbox.now.room }
    ensures serves { Serves (record { service = wrapping_service pad; mac_length = 0; named = kek ∷ second ∷ [] })
        (wrap_result E.calls parts.old.engine pad kek second parts.old.vault.slots) parts.old parts.new result port.new.outbox.now.bytes }
    ensures same { port.new.outbox.ghost_name ≡ port.old.outbox.ghost_name }
    ensures room { port.new.outbox.now.room ≡ port.old.outbox.now.room }
    ensures well_formed { AreWellFormed parts.new.vault }
{
    let service = Service::wrapping(pad);
    if let Err(fault) = parts.vault.source(kek, Kind::Kek, approved(service, 0)) {
        let status = status_of(fault);
        return with_indicator(service, 0, &[kek, second], status, &parts.vault);
    }
    let status = wrap_second(parts, pad, kek, second, port);
    with_indicator(service, 0, &[kek, second], status, &parts.vault)
}

// Wraps the parameter of the second slot under a key of which a use was spent.
fn wrap_second<E: Engine>(
    parts: &mut Parts<E>,
    pad: bool,
    kek: SlotId,
    second: SlotId,
    port: &mut Port<'_, Enabled>,
) -> Status
    requires prepared { has_prepared_key (slot_at parts.old.vault.slots kek) ≡ true }
    requires empty { port.old.outbox.now.bytes ≡ [] }
    requires room { LARGEST_PAYLOAD ≤ port.old.outbox.now.room }
    ensures serves { let slot = slot_at parts.old.vault.slots kek in ServesInPart
        (on_slot parts.old.vault.slots second (wrap_at E.calls parts.old.engine pad (parameter slot) (domain_at slot.header))) parts.old parts.new result port.new.outbox.now.bytes }
    ensures same { port.new.outbox.ghost_name ≡ port.old.outbox.ghost_name }
    ensures room { port.new.outbox.now.room ≡ port.old.outbox.now.room }
    ensures well_formed { AreWellFormed parts.new.vault }
{
    let domain = domain_of(&parts.vault, kek);
    if let Err(fault) = parts.vault.export(second, domain) {
        return status_of(fault);
    }
    if !is_wrappable(pad, parts.vault.show(second).length) {
        return Status::BadLength;
    }
    put_wrapping(parts, pad, kek, second, port);
    Status::Ok
}

// Wraps the parameter of a slot under the key of another, and puts the wrapping.
fn put_wrapping<E: Engine>(
    parts: &mut Parts<E>,
    pad: bool,
    kek: SlotId,
    second: SlotId,
    port: &mut Port<'_, Enabled>,
)
    requires prepared { has_prepared_key (slot_at parts.old.vault.slots kek) ≡ true }
    requires wrappable { IsWrappable pad (slot_at parts.old.vault.slots second).length }
    requires empty { port.old.outbox.now.bytes ≡ [] }
    requires room { LARGEST_PAYLOAD ≤ port.old.outbox.now.room }
    ensures serves { let key = parameter (slot_at parts.old.vault.slots kek) in let text = parameter (slot_at parts.old.vault.slots second) in ServesInPart
        (on_no_slot (E.calls.wrap_after parts.old.engine pad key text) parts.old.vault.slots (success (wrapping_in (E.calls.wrap parts.old.engine pad key text))))
        parts.old parts.new Status.Ok port.new.outbox.now.bytes }
    ensures same { port.new.outbox.ghost_name ≡ port.old.outbox.ghost_name }
    ensures room { port.new.outbox.now.room ≡ port.old.outbox.now.room }
    ensures well_formed { AreWellFormed parts.new.vault }
{
    let mut buf = [0; 80];
    let text = parts.vault.bytes(second);
    lay(&mut buf, text);
    let prepared = prepared_key(&parts.vault, kek);
    let size = parts.engine.wrap(pad, prepared, &mut buf, text.len());
    put_front(port, &buf, size);
    wipe(&mut buf);
}

/// Fills the empty slot `target` with what the wrapped bytes hold under the key of the slot `kek` (SP 800-38F, 6.2, and with padding
/// 6.3): a parameter of this kind, in the domain of the key. The bytes are a multiple of 8 up to 72, from 24 on, with padding from 16.
/// Refused, in this order, with nothing spent: `kek` is empty (EmptySlot); it holds no key-encryption key (WrongKind); its key has no
/// use left (Spent). Refused then, in this order, with one use of the key spent: `target` is full (OccupiedSlot); the bytes are no
/// wrapping under the key (UnwrapFailed); the length of what they hold doesn't fit the kind and domain (BadLength). One use of the
/// key is spent where the target is filled too.
pub fn unwrap<E: Engine>(
    parts: &mut Parts<E>,
    pad: bool,
    kek: SlotId,
    target: SlotId,
    kind: Kind,
    export: bool,
    uses: u32,
    wrapped: &[u8],
    port: &mut Port<'_, Inhibited>,
) -> Outcome
    requires differ { kek ≢ target }
    requires length { IsUnwrappable pad (length wrapped.now) }
    requires uses { 1 ≤ uses }
    requires empty { port.old.outbox.now.bytes ≡ [] }
    ensures serves { Serves (record { service = unwrapping_service pad; mac_length = 0; named = kek ∷ target ∷ [] })
        (unwrap_result E.calls parts.old.engine pad kek target kind export uses wrapped.now parts.old.vault.slots) parts.old parts.new result port.new.outbox.now.bytes }
    ensures same { port.new.outbox.ghost_name ≡ port.old.outbox.ghost_name }
    ensures room { port.new.outbox.now.room ≡ port.old.outbox.now.room }
    ensures well_formed { AreWellFormed parts.new.vault }
{
    let service = Service::unwrapping(pad);
    if let Err(fault) = parts.vault.source(kek, Kind::Kek, approved(service, 0)) {
        let status = status_of(fault);
        return with_indicator(service, 0, &[kek, target], status, &parts.vault);
    }
    let status = unwrap_into(parts, pad, kek, target, kind, export, uses, wrapped);
    with_indicator(service, 0, &[kek, target], status, &parts.vault)
}

// Fills the target with what the wrapped bytes hold under a key of which a use was spent.
fn unwrap_into<E: Engine>(
    parts: &mut Parts<E>,
    pad: bool,
    kek: SlotId,
    target: SlotId,
    kind: Kind,
    export: bool,
    uses: u32,
    wrapped: &[u8],
) -> Status
    requires prepared { has_prepared_key (slot_at parts.old.vault.slots kek) ≡ true }
    requires length { IsUnwrappable pad (length wrapped.now) }
    requires uses { 1 ≤ uses }
    ensures serves { let slot = slot_at parts.old.vault.slots kek in ServesInPart
        (on_slot parts.old.vault.slots target (unwrap_at E.calls parts.old.engine pad kind export uses wrapped.now (parameter slot) (domain_at slot.header)))
        parts.old parts.new result [] }
    ensures well_formed { AreWellFormed parts.new.vault }
{
    if let Err(fault) = parts.vault.vacant(target) {
        return status_of(fault);
    }
    let domain = domain_of(&parts.vault, kek);
    let header = Header {
        kind,
        domain,
        export,
        uses,
    };
    fill_unwrapped(parts, pad, kek, target, &header, wrapped)
}

// Fills an empty slot with what the wrapped bytes hold under the key of another.
fn fill_unwrapped<E: Engine>(
    parts: &mut Parts<E>,
    pad: bool,
    kek: SlotId,
    target: SlotId,
    header: &Header,
    wrapped: &[u8],
) -> Status
    requires prepared { has_prepared_key (slot_at parts.old.vault.slots kek) ≡ true }
    requires vacant { vacancy_fault (slot_at parts.old.vault.slots target).header ≡ None }
    requires length { IsUnwrappable pad (length wrapped.now) }
    requires uses { 1 ≤ header.now.uses }
    ensures serves { let key = parameter (slot_at parts.old.vault.slots kek) in let unwrapped = E.calls.unwrap parts.old.engine pad key wrapped.now in ServesInPart
        (on_slot parts.old.vault.slots target (λ slot. filled_by_unwrapping (E.calls.unwrap_after parts.old.engine pad key wrapped.now) slot header.now unwrapped.buf unwrapped.size))
        parts.old parts.new result [] }
    ensures well_formed { AreWellFormed parts.new.vault }
{
    let mut buf = [0; 80];
    lay(&mut buf, wrapped);
    let prepared = prepared_key(&parts.vault, kek);
    let size = parts.engine.unwrap(pad, prepared, &mut buf, wrapped.len());
    let status = fill_front(parts, target, header, &buf, size);
    wipe(&mut buf);
    status
}

// Fills an empty slot with the first bytes of a buffer, where there are any and their length fits.
fn fill_front<E: Engine>(
    parts: &mut Parts<E>,
    target: SlotId,
    header: &Header,
    buf: &[u8; 80],
    size: Option<usize>,
) -> Status
    requires vacant { vacancy_fault (slot_at parts.old.vault.slots target).header ≡ None }
    requires most { IfSome size (λ n. n ≤ 80) }
    requires uses { 1 ≤ header.now.uses }
    ensures serves { ServesInPart
        (on_slot parts.old.vault.slots target (λ slot. filled_by_unwrapping parts.old.engine slot header.now buf.now size)) parts.old parts.new result [] }
    ensures well_formed { AreWellFormed parts.old.vault → AreWellFormed parts.new.vault }
{
    let Some(size) = size else {
        return Status::UnwrapFailed;
    };
    if !fits(header.kind, header.domain, size) {
        return Status::BadLength;
    }
    match parts.vault.put(target, header, &buf[..size]) {
        Ok(()) => Status::Ok,
        Err(fault) => status_of(fault),
    }
}

// The domain of a slot's parameter, and Other where the slot is empty.
fn domain_of(vault: &Vault, slot: SlotId) -> Domain
    ensures { result ≡ domain_at (slot_at vault.now.slots slot).header }
{
    match vault.show(slot).header {
        Some(header) => header.domain,
        None => Domain::Other,
    }
}

// Whether so many bytes can be wrapped: with padding any number, and else whole semiblocks, two of them at least.
fn is_wrappable(pad: bool, length: usize) -> bool
    ensures { result ≡ is_wrappable pad length }
{
    pad || (LEAST_UNPADDED <= length && length % SEMIBLOCK == 0)
}

// What is prepared of the key of a slot that has one.
fn prepared_key(vault: &Vault, slot: SlotId) -> &Prepared
    requires { has_prepared_key (slot_at vault.now.slots slot) ≡ true }
    ensures filled { IsFilled result.now (parameter (slot_at vault.now.slots slot)) }
    ensures well_formed { AreWellFormed vault.now }
{
    vault.prepared(slot)
}

// Lays bytes into the front of a buffer of zeros.
fn lay(buf: &mut [u8; 80], bytes: &[u8])
    requires zero { buf.old ≡ zeros 80 }
    requires within { length bytes.now ≤ 80 }
    ensures front { take (length bytes.now) buf.new ≡ bytes.now }
    ensures rest { drop (length bytes.now) buf.new ≡ zeros (80 - length bytes.now) }
{
    buf[..bytes.len()].copy_from_slice(bytes);
}

// Puts the first `size` bytes of a buffer.
fn put_front(port: &mut Port<'_, Enabled>, buf: &[u8; 80], size: usize)
    requires within { size ≤ 80 }
    requires room { length port.old.outbox.now.bytes + size ≤ port.old.outbox.now.room }
    ensures same { port.new.outbox.ghost_name ≡ port.old.outbox.ghost_name }
    ensures put { port.new.outbox.now ≡ holding (port.old.outbox.now.bytes ++ take size buf.now) port.old.outbox.now.room }
{
    port.put(&buf[..size]);
}
