// Why a backup isn't restored.
use bits_core::SlotId;

/// Why a backup isn't restored: the first of these that holds.
#[derive(Clone, Copy, Debug, PartialEq, Eq)]
pub enum RestoreFault {
    /// The bytes aren't of a backup's form.
    Form,
    /// The tag isn't that of the bytes before it under the MAC key.
    Tag,
    /// The record of this slot, the first such, has a wrapped part that is the wrapping of no parameter of its length under the
    /// key-encryption key.
    Wrapped(SlotId),
    /// This slot is full, the first such of those that have a record.
    Occupied(SlotId),
}
