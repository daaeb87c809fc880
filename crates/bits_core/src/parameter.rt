//! What a slot's security parameter is for: its kind, its domain and its header.
ghost use Rattle.std.specs.Prelude.{◌≡◌, ◌<◌, ◌≤◌, IfSome, OnSome, IfNone};
ghost use Rattle.bits_core.specs.Parameters.{kind_number, kind_of, IsNoKind, domain_number, domain_of, IsNoDomain, length_fits};

use std::marker::Model;

/// What a parameter may be used for.
#[derive(Clone, Copy, Debug, PartialEq, Eq)]
pub enum Kind {
    Aes,
    Kek,
    Mac,
    Kdf,
}

impl Kind {
    /// The number by which commands name it, 1 to 4.
    pub fn number(self) -> u8
        ensures { result ≡ kind_number self }
    {
        match self {
            Kind::Aes => 1,
            Kind::Kek => 2,
            Kind::Mac => 3,
            Kind::Kdf => 4,
        }
    }

    /// The kind with this number; None where no kind has it.
    pub fn from_number(number: u8) -> Option<Kind>
        ensures value { result ≡ kind_of number }
        ensures numbered { IfSome result (λ kind. kind_number kind ≡ number) }
        ensures none { IfNone result (IsNoKind number) }
    {
        match number {
            1 => Some(Kind::Aes),
            2 => Some(Kind::Kek),
            3 => Some(Kind::Mac),
            4 => Some(Kind::Kdf),
            _ => None,
        }
    }
}

/// Whether a parameter belongs to the approved services.
#[derive(Clone, Copy, Debug, PartialEq, Eq)]
pub enum Domain {
    Other,
    Approved,
}

impl Domain {
    /// The number by which commands name it: 0 or 1.
    pub fn number(self) -> u8
        ensures { result ≡ domain_number self }
    {
        match self {
            Domain::Other => 0,
            Domain::Approved => 1,
        }
    }

    /// The domain with this number; None where no domain has it.
    pub fn from_number(number: u8) -> Option<Domain>
        ensures value { result ≡ domain_of number }
        ensures numbered { IfSome result (λ domain. domain_number domain ≡ number) }
        ensures none { IfNone result (IsNoDomain number) }
    {
        match number {
            0 => Some(Domain::Other),
            1 => Some(Domain::Approved),
            _ => None,
        }
    }
}

/// One of the sixteen slots. Contracts see its number.
#[derive(Clone, Copy, Debug, PartialEq, Eq)]
pub struct SlotId {
    number: u8,
}

impl Model for SlotId {
    ghost use Rattle.std.specs.Prelude.{ℕ, ◌<◌};

    ghost Value = { ℕ };

    ghost view = { λ a. a.number };

    ghost invariant = { λ a. a.number < 16 };

    ghost inverse = { λ n. record { number = n } };
}

impl SlotId {
    /// The slot with this number; None exactly where the number is above 15.
    pub fn new(number: u8) -> Option<SlotId>
        ensures slot { IfSome result (λ slot. slot ≡ number) }
        ensures below { OnSome result (number < 16) }
        ensures none { IfNone result (16 ≤ number) }
    {
        if number < 16 {
            Some(SlotId { number })
        } else {
            None
        }
    }

    /// Its number, 0 to 15.
    pub fn get(self) -> u8
        ensures value { result ≡ self }
        ensures below { result < 16 }
    {
        self.number
    }
}

/// What a full slot tells of its parameter besides the bytes.
#[derive(Clone, Copy, Debug, PartialEq, Eq)]
pub struct Header {
    pub kind: Kind,
    pub domain: Domain,
    /// Whether the parameter may leave the module wrapped.
    pub export: bool,
    /// How many uses are left.
    pub uses: u32,
}

/// Whether a parameter of this kind and domain may have this length in bytes: 16, 24 or 32 for
/// AES and key-encryption keys; 1 to 64 for MAC and derivation keys, from 14 on (112 bits) where
/// they are approved.
pub fn fits(kind: Kind, domain: Domain, length: usize) -> bool
    ensures { result ≡ length_fits kind domain length }
{
    match kind {
        Kind::Aes | Kind::Kek => length == 16 || length == 24 || length == 32,
        Kind::Mac | Kind::Kdf => match domain {
            Domain::Other => 1 <= length && length <= 64,
            Domain::Approved => 14 <= length && length <= 64,
        },
    }
}
