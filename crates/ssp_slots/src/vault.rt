//! The sixteen slots.
ghost use Rattle.std.specs.Prelude.{◌≡◌, ◌≢◌, ◌≤◌, ◌<◌, ℕ, true, false, if◌then◌else◌, ◌==◌, ◌||◌, length, IsTrue, IfOk, OnOk, OnErr};
ghost use Rattle.bits_core.specs.Parameters.{length_fits};
ghost use Rattle.ssp_slots.specs.Slots.{empty_slot, empty_vault, filled_in, spent_in, zeroised_in, zeroised_all, shown_of, parameter, slot_in, row_in, AreWellFormed, OthersStay};
ghost use Rattle.ssp_slots.specs.Refusals.{Answers, vacancy_fault, source_fault, export_fault};
ghost use Rattle.ssp_slots.specs.Ancestry.{holds, linked_in, descendants, tree_zeroised};
ghost use Rattle.ssp_slots.specs.PreparedKeys.{IsPreparedFor};

use crate::prepared_keys::{blank_keys, prepare, wipe_all};
use crate::slot::Slot;
use crate::slot_set::{holds, set_with};
use crate::{Shown, SlotFault};
use bits_core::{Domain, Header, Kind, SlotId};
use gcm_mode::Prepared;
use std::alloc::{AllocError, Global};
use std::marker::Model;

/// How many slots there are.
pub(crate) const SLOTS: usize = 16;

/// Sixteen slots for parameters of 1 to 64 bytes, and a row for each. Contracts see every field and byte of each. A call
/// that is refused changes nothing, and no call touches another slot or row than it says.
///
/// Beside each slot stands what is prepared of its key, which follows from the slot and so is no part of what contracts see.
#[derive(Drop)]
pub struct Vault {
    slots: Vec<Slot>,
    prepared: Vec<Prepared>,
    rows: [u16; SLOTS],
}

impl Model for Vault {
    ghost use Rattle.ssp_slots.specs.Slots.{Contents};

    ghost Value = { Contents };

    ghost use Rattle.ssp_slots.specs.VaultInvariant.{contents_of, IsVaultInvariant};

    ghost view = { contents_of };

    ghost invariant = { IsVaultInvariant };
}

impl Vault {
    /// Sixteen empty slots, each with an empty row.
    pub fn new(alloc: Global) -> Result<Vault, AllocError>
        ensures empty { IfOk result (λ vault. vault ≡ empty_vault) }
        ensures well_formed { IfOk result (λ vault. AreWellFormed vault) }
    {
        let mut slots = Vec::with_capacity(alloc, SLOTS)?;
        for _ in 0..SLOTS {
            slots.push_reserved(Slot::empty());
        }
        let prepared = blank_keys(alloc)?;
        Ok(Vault {
            slots,
            prepared,
            rows: [0; SLOTS],
        })
    }

    /// What a slot tells of itself: all but its bytes.
    pub fn show(&self, id: SlotId) -> Shown
        ensures shown { result ≡ shown_of (slot_in self.now id) }
        ensures well_formed { AreWellFormed self.now }
    {
        let slot = &self.slots[usize::from(id.get())];
        Shown {
            full: slot.header.is_some(),
            header: slot.header,
            length: slot.length,
        }
    }

    /// The bytes of a slot's parameter, none where the slot is empty.
    pub fn bytes(&self, id: SlotId) -> &[u8]
        ensures bytes { result.now ≡ parameter (slot_in self.now id) }
        ensures well_formed { AreWellFormed self.now }
    {
        let slot = &self.slots[usize::from(id.get())];
        &slot.bytes[..slot.length]
    }

    /// What is prepared of a slot's key: filled from the slot's bytes where the slot is full and its kind is Aes or Kek, and else all zero.
    pub fn prepared(&self, id: SlotId) -> &Prepared
        ensures prepared { IsPreparedFor (slot_in self.now id) result.now }
        ensures well_formed { AreWellFormed self.now }
    {
        &self.prepared[usize::from(id.get())]
    }

    /// What a slot's parameter was made from: slot i is the bit of value 2^i. A slot may be empty while its row isn't.
    pub fn row(&self, id: SlotId) -> u16
        ensures row { result ≡ row_in self.now id }
        ensures well_formed { AreWellFormed self.now }
    {
        self.rows[usize::from(id.get())]
    }

    /// Whether a slot may be filled: OccupiedSlot where it is full.
    pub fn vacant(&self, id: SlotId) -> Result<(), SlotFault>
        ensures answer { Answers result (vacancy_fault (slot_in self.now id).header) }
        ensures well_formed { AreWellFormed self.now }
    {
        match self.slots[usize::from(id.get())].header {
            Some(_) => Err(SlotFault::OccupiedSlot),
            None => Ok(()),
        }
    }

    /// Fills an empty slot, and prepares its key where it is of a kind that has one; OccupiedSlot where it is full. The parameter's
    /// length fits its kind and domain, and it has at least one use. The row stays.
    pub fn put(&mut self, id: SlotId, header: &Header, bytes: &[u8]) -> Result<(), SlotFault>
        requires fits { IsTrue (length_fits header.now.kind header.now.domain (length bytes.now)) }
        requires uses { 1 ≤ header.now.uses }
        ensures answer { Answers result (vacancy_fault (slot_in self.old id).header) }
        ensures filled { OnOk result (self.new ≡ filled_in self.old id header.now bytes.now) }
        ensures refused_unchanged { OnErr result (self.new ≡ self.old) }
        ensures others_stay { OthersStay self.old self.new id }
        ensures well_formed { AreWellFormed self.new }
    {
        let place = usize::from(id.get());
        let slot = &mut self.slots[place];
        if slot.header.is_some() {
            return Err(SlotFault::OccupiedSlot);
        }
        slot.fill(header, bytes);
        prepare(&mut self.prepared[place], header, bytes);
        Ok(())
    }

    /// Spends one use of a slot for a service on parameters of this kind. Refused, in this order, where
    /// the slot is empty; of another kind; approved while the service isn't; without a use left.
    pub fn source(&mut self, id: SlotId, kind: Kind, approved: bool) -> Result<(), SlotFault>
        ensures answer { Answers result (source_fault (slot_in self.old id).header kind approved) }
        ensures spent { OnOk result (self.new ≡ spent_in self.old id) }
        ensures refused_unchanged { OnErr result (self.new ≡ self.old) }
        ensures others_stay { OthersStay self.old self.new id }
        ensures well_formed { AreWellFormed self.new }
    {
        self.slots[usize::from(id.get())].spend(kind, approved)
    }

    /// Whether a slot's parameter may leave the module, wrapped by a key of this domain. Refused, in
    /// this order, where the slot is empty; not exportable; of another domain.
    pub fn export(&self, id: SlotId, domain: Domain) -> Result<(), SlotFault>
        ensures answer { Answers result (export_fault (slot_in self.now id).header domain) }
        ensures well_formed { AreWellFormed self.now }
    {
        self.slots[usize::from(id.get())].export(domain)
    }

    /// Notes that a target's parameter is made from that of a source, whatever the two slots hold: the target's row gains the source
    /// and the source's row.
    pub fn link(&mut self, source: SlotId, target: SlotId)
        requires { source ≢ target }
        ensures linked { self.new ≡ linked_in self.old source target }
        ensures gained { (id : ℕ) → holds (row_in self.new target) id ≡
            (holds (row_in self.old target) id || (id == source || holds (row_in self.old source) id)) }
        ensures others_stay { OthersStay self.old self.new target }
        ensures well_formed { AreWellFormed self.new }
    {
        let others = self.rows[usize::from(source.get())];
        let row = self.rows[usize::from(target.get())];
        self.rows[usize::from(target.get())] = set_with(row, source, others);
    }

    /// Makes every field and byte of a slot zero, with what is prepared of its key, and empties its row.
    pub fn zeroise(&mut self, id: SlotId)
        ensures zeroised { self.new ≡ zeroised_in self.old id }
        ensures is_empty { (slot_in self.new id ≡ empty_slot) × (row_in self.new id ≡ 0) }
        ensures others_stay { OthersStay self.old self.new id }
        ensures well_formed { AreWellFormed self.new }
    {
        let place = usize::from(id.get());
        self.slots[place].clear();
        self.prepared[place].wipe();
        self.rows[place] = 0;
    }

    /// Zeroises a slot and each slot whose row holds it, with what is prepared of their keys, and empties the rows of all these.
    pub fn zeroise_tree(&mut self, id: SlotId)
        ensures zeroised { self.new ≡ tree_zeroised self.old id }
        ensures tree_is_empty { (other : ℕ) → other < 16 → descendants self.old.rows id other ≡ true →
            (slot_in self.new other ≡ empty_slot) × (row_in self.new other ≡ 0) }
        ensures others_stay { (other : ℕ) → descendants self.old.rows id other ≡ false →
            (slot_in self.new other ≡ slot_in self.old other) × (row_in self.new other ≡ row_in self.old other) }
        ensures well_formed { AreWellFormed self.new }
    {
        // Opened, so that its rules are known.
        let _ = &self.rows;
        for number in 0..SLOTS as u8 {
            self.zeroise_in_tree(id, SlotId::new(number).unwrap());
        }
    }

    // Zeroises a slot with its row where it is in the tree of `id`.
    fn zeroise_in_tree(&mut self, id: SlotId, other: SlotId)
        ensures zeroised { self.new ≡ (if descendants self.old.rows id other then zeroised_in self.old other else self.old) }
        ensures well_formed { AreWellFormed self.new }
    {
        if other == id || holds(self.row(other), id) {
            self.zeroise(other);
        }
    }

    /// Makes every field and byte of all slots zero, with what is prepared of their keys, and empties all rows.
    pub fn zeroise_all(&mut self)
        ensures zeroised { self.new ≡ zeroised_all }
        ensures each_is_empty { (id : ℕ) → id < 16 → (slot_in self.new id ≡ empty_slot) × (row_in self.new id ≡ 0) }
        ensures well_formed { AreWellFormed self.new }
    {
        for slot in self.slots.iter_mut() {
            slot.clear();
        }
        wipe_all(&mut self.prepared);
        self.rows = [0; SLOTS];
    }
}
