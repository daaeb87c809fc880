//! The prepared keys beside the slots.
ghost use Rattle.std.specs.Prelude.{◌≡◌, ℕ, ◌<◌, IfOk, IsTrue, length, slice_index_or, EachIndex};
ghost use Rattle.std.specs.Vec.{vec_capacity};
ghost use Rattle.gcm_mode.specs.Filled.{IsWiped};
ghost use Rattle.bits_core.specs.Parameters.{length_fits};
ghost use Rattle.ssp_slots.specs.Slots.{filled_slot};
ghost use Rattle.ssp_slots.specs.PreparedKeys.{is_prepared_kind, IsPreparedFor, blank_key};

use crate::vault::SLOTS;
use bits_core::{Header, Kind};
use gcm_mode::Prepared;
use std::alloc::{AllocError, Global};

/// Sixteen prepared keys of zeros.
pub(crate) fn blank_keys(alloc: Global) -> Result<Vec<Prepared>, AllocError>
    ensures sixteen { IfOk result (λ keys. length keys.items ≡ 16) }
    ensures wiped { IfOk result (λ keys. (id : ℕ) → id < 16 → IsWiped (slice_index_or keys.items id blank_key)) }
    ensures room { IfOk result (λ keys. vec_capacity keys ≡ 16) }
{
    let mut keys = Vec::with_capacity(alloc, SLOTS)?;
    for _ in 0..SLOTS {
        keys.push_reserved(Prepared::empty());
    }
    Ok(keys)
}

// Whether a key of this kind is prepared.
fn is_prepared_kind(kind: Kind) -> bool
    ensures { result ≡ is_prepared_kind kind }
{
    match kind {
        Kind::Aes | Kind::Kek => true,
        Kind::Mac | Kind::Kdf => false,
    }
}

/// Prepares the key of a slot that is filled, where it is of a kind that is prepared.
pub(crate) fn prepare(key: &mut Prepared, header: &Header, bytes: &[u8])
    requires fits { IsTrue (length_fits header.now.kind header.now.domain (length bytes.now)) }
    ensures { IsWiped key.old → IsPreparedFor (filled_slot header.now bytes.now) key.new }
{
    if is_prepared_kind(header.kind) {
        key.fill(bytes);
    }
}

/// Makes all of them zero.
pub(crate) fn wipe_all(keys: &mut [Prepared])
    ensures { EachIndex keys.new (λ id. IsWiped (slice_index_or keys.new id blank_key)) }
{
    for key in keys.iter_mut() {
        key.wipe();
    }
}
