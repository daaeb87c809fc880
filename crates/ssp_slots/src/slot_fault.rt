//! Why a call on a slot is refused.
use thiserror::Error;

/// Why a call on a slot is refused.
#[derive(Clone, Copy, Debug, PartialEq, Eq, Error)]
pub enum SlotFault {
    #[error("EmptySlot")]
    EmptySlot,
    #[error("WrongKind")]
    WrongKind,
    #[error("WrongDomain")]
    WrongDomain,
    #[error("Spent")]
    Spent,
    #[error("OccupiedSlot")]
    OccupiedSlot,
    #[error("NotExportable")]
    NotExportable,
}
