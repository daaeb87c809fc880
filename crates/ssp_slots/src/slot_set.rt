//! Sets of slots, each a number: slot i is the bit of value 2^i.
ghost use Rattle.std.specs.Prelude.{◌≡◌, ◌^◌, ◌<◌};
ghost use Rattle.ssp_slots.specs.Ancestry.{holds, set_with};

use bits_core::SlotId;

/// Whether a set holds a slot.
pub(crate) fn holds(set: u16, id: SlotId) -> bool
    ensures { result ≡ holds set id }
{
    (set >> id.get()) & 1 == 1
}

/// The set with a slot and the members of another set.
pub(crate) fn set_with(set: u16, id: SlotId, others: u16) -> u16
    ensures whole { result ≡ set_with set id others }
    ensures below { result < 2 ^ 16 }
{
    set | (1 << id.get()) | others
}
