// A record of a backup, read from bytes.
ghost use Rattle.std.specs.Prelude.{◌≡◌, ◌≢◌, ◌≤◌, ◌+◌, ◌++◌, ℕ, List, length, drop, IfSome, IfNone};
ghost use Rattle.bits_core.specs.Parameters.{kind_of, domain_of};
ghost use Rattle.vault_backup.specs.BackupForm.{KeptSlot, IsKeptSlot, record_bytes, wrapped_length};
ghost use Rattle.vault_backup.specs.Reading.{record_with, number_at, Tells, Reads, StandsIn};

use crate::limits::RECORD_FRONT;
use bits_core::{Domain, Header, Kind, SlotId, fits};

/// A record, as far as it is told without what is wrapped.
#[derive(Clone, Copy)]
pub struct Record {
    pub slot: SlotId,
    pub header: Header,
    /// The parameter's length in bytes.
    pub length: usize,
}

impl Record {
    /// How many bytes the record has, with what is wrapped.
    pub fn whole_length(&self) -> usize
        requires { self.now.length ≤ 255 }
        ensures { result ≡ 8 + wrapped_length self.now.length }
    {
        RECORD_FRONT + wrapped_length(self.length)
    }
}

/// How many bytes the wrapping of so many bytes has (SP 800-38F, 6.3).
pub fn wrapped_length(length: usize) -> usize
    requires { length ≤ 255 }
    ensures { result ≡ wrapped_length length }
{
    8 * ((length + 7) / 8) + 8
}

// The number in the four bytes from a place on.
fn number_at(bytes: &[u8], place: usize) -> u32
    requires { place + 4 ≤ length bytes.now }
    ensures { result ≡ number_at bytes.now place }
{
    u32::from_be_bytes([
        bytes[place],
        bytes[place + 1],
        bytes[place + 2],
        bytes[place + 3],
    ])
}

// The record with these fields; None where there may be none.
fn make_record(slot: u8, kind: u8, domain: u8, uses: u32, long: u8) -> Option<Record>
    ensures read { result ≡ record_with slot (kind_of kind) (domain_of domain) uses long }
    ensures tells { IfSome result (λ head. Tells head slot kind domain uses long) }
{
    let slot = SlotId::new(slot)?;
    let kind = Kind::from_number(kind)?;
    let domain = Domain::from_number(domain)?;
    let length = usize::from(long);
    if uses == 0 || !fits(kind, domain, length) {
        return None;
    }
    let header = Header {
        kind,
        domain,
        export: true,
        uses,
    };
    Some(Record {
        slot,
        header,
        length,
    })
}

// The record that stands at the front of the bytes; None where none does.
fn read_front(bytes: &[u8]) -> Option<Record>
    ensures some { IfSome result (λ head. Reads head bytes.now) }
    ensures none { IfNone result ((kept : KeptSlot) (after : List ℕ) → IsKeptSlot kept → bytes.now ≢ record_bytes kept ++ after) }
{
    if bytes.len() < RECORD_FRONT {
        return None;
    }
    let uses = number_at(bytes, 3);
    let head = make_record(bytes[0], bytes[1], bytes[2], uses, bytes[7])?;
    if bytes.len() < head.whole_length() {
        return None;
    }
    Some(head)
}

/// The record that begins at this place; None where none does.
pub fn read_record(bytes: &[u8], at: usize) -> Option<Record>
    requires { at ≤ length bytes.now }
    ensures some { IfSome result (λ head. Reads head (drop at bytes.now)) }
    ensures none { IfNone result ((kept : KeptSlot) (after : List ℕ) → IsKeptSlot kept → drop at bytes.now ≢ record_bytes kept ++ after) }
{
    read_front(&bytes[at..])
}

/// The record that begins at this place, where one does.
pub fn known_record(bytes: &[u8], at: usize) -> Record
    requires within { at ≤ length bytes.now }
    requires stands { StandsIn (drop at bytes.now) }
    ensures { Reads result (drop at bytes.now) }
{
    match read_record(bytes, at) {
        Some(head) => head,
        None => unreachable!(),
    }
}
