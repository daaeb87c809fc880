//! One slot, and what each call of the vault does to it.
ghost use Rattle.std.specs.Prelude.{◌≡◌, length, OnOk, OnErr, IsTrue};
ghost use Rattle.bits_core.specs.Parameters.{length_fits};
ghost use Rattle.ssp_slots.specs.Slots.{empty_slot, filled_slot, spent_slot, IsWellFormed};
ghost use Rattle.ssp_slots.specs.Refusals.{Answers, source_fault, export_fault};
ghost use Rattle.ssp_slots.specs.PreparedKeys.{IsPreparedFor};
ghost use Rattle.gcm_mode.specs.declared.prepared_key.Prepared.{Prepared};

use crate::SlotFault;
use bits_core::{Domain, Header, Kind, wipe};

/// A slot. It can't be copied, so that its bytes stand in one place.
#[derive(Drop)]
pub struct Slot {
    /// None where the slot is empty.
    pub header: Option<Header>,
    /// How many of the bytes are the parameter's.
    pub length: usize,
    pub bytes: [u8; 64],
}

impl Slot {
    /// A slot that holds nothing.
    pub fn empty() -> Slot
        ensures { result ≡ empty_slot }
    {
        Slot {
            header: None,
            length: 0,
            bytes: [0; 64],
        }
    }

    /// Makes every field and byte zero.
    pub fn clear(&mut self)
        ensures { self.new ≡ empty_slot }
    {
        self.header = None;
        self.length = 0;
        wipe(&mut self.bytes);
    }

    /// Holds a parameter, whatever it held before.
    pub fn fill(&mut self, header: &Header, bytes: &[u8])
        requires { IsTrue (length_fits header.now.kind header.now.domain (length bytes.now)) }
        ensures filled { self.new ≡ filled_slot header.now bytes.now }
        ensures well_formed { IsWellFormed self.new }
    {
        self.header = Some(*header);
        self.length = bytes.len();
        self.bytes[..bytes.len()].copy_from_slice(bytes);
        wipe(&mut self.bytes[bytes.len()..]);
    }

    /// Spends one use, where the slot may be used as a source.
    pub fn spend(&mut self, kind: Kind, approved: bool) -> Result<(), SlotFault>
        requires { IsWellFormed self.old }
        ensures answer { Answers result (source_fault self.old.header kind approved) }
        ensures spent { OnOk result (self.new ≡ spent_slot self.old) }
        ensures unchanged { OnErr result (self.new ≡ self.old) }
        ensures well_formed { IsWellFormed self.new }
        ensures same_key { (key : Prepared) → IsPreparedFor self.old key → IsPreparedFor self.new key }
    {
        let Some(header) = self.header else {
            return Err(SlotFault::EmptySlot);
        };
        if header.kind != kind {
            return Err(SlotFault::WrongKind);
        }
        if header.domain == Domain::Approved && !approved {
            return Err(SlotFault::WrongDomain);
        }
        if header.uses == 0 {
            return Err(SlotFault::Spent);
        }
        self.header = Some(Header {
            uses: header.uses - 1,
            ..header
        });
        Ok(())
    }

    /// Whether the parameter may leave the module under a key of this domain.
    pub fn export(&self, domain: Domain) -> Result<(), SlotFault>
        ensures { Answers result (export_fault self.now.header domain) }
    {
        let Some(header) = self.header else {
            return Err(SlotFault::EmptySlot);
        };
        if !header.export {
            return Err(SlotFault::NotExportable);
        }
        if header.domain != domain {
            return Err(SlotFault::WrongDomain);
        }
        Ok(())
    }
}
