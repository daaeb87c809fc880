// A module's slots are written as a backup, and restored from one.
ghost use Rattle.std.specs.Prelude.{◌≡◌, ◌≢◌, ◌≤◌, ℕ, [], true, false, OnErr};
ghost use Rattle.bits_core.specs.OutboxContents.{holding};
ghost use Rattle.vault_backup.specs.declared.limits.TheConstants.{BACKUP_MOST};
ghost use Rattle.vault_backup.specs.Backups.{backup_of};
ghost use Rattle.vault_backup.specs.Restoring.{Restores};
ghost use Rattle.state_model.specs.MachineState.{MachineState};
ghost use Rattle.state_model.specs.Represents.{Represents, IsRepresented};
ghost use Rattle.state_model.specs.Residue.{IsClean};
ghost use Rattle.state_model.specs.Copies.{restored_state, restored_view};

use super::Module;
use bits_core::Outbox;
use engine_core::Engine;
use service_table::State;
use vault_backup::{RestoreFault, backup, restore};

impl<E: Engine> Module<E> {
    /// Clears `out` and, in the state Officer alone, writes the backup of the slots under the two keys (`vault_backup::backup`): whether
    /// it was written. It has 37 to 1,317 bytes, for which there is room. It takes no memory.
    pub fn backup(&self, kek: &[u8; 32], mac: &[u8; 32], out: &mut Outbox) -> bool
        requires room { BACKUP_MOST ≤ out.old.room }
        ensures written { self.now.public.state ≡ State.Officer → (result ≡ true) × (out.new ≡ holding (backup_of self.now.vault kek.now mac.now) out.old.room) }
        ensures refused { self.now.public.state ≢ State.Officer → (result ≡ false) × (out.new ≡ holding [] out.old.room) }
    {
        if self.public.state != State::Officer {
            out.clear();
            return false;
        }
        backup(&self.parts.vault, kek, mac, out);
        true
    }

    /// In the state Officer, fills the slots of which the bytes, a backup, have a record: how many were filled
    /// (`vault_backup::restore`, which tells the refusals and their order). No row, no other slot and nothing else changes, and where it
    /// is refused nothing at all. It takes no memory.
    pub fn restore(
        &mut self,
        kek: &[u8; 32],
        mac: &[u8; 32],
        bytes: &[u8],
    ) -> Result<usize, RestoreFault>
        requires officer { self.old.public.state ≡ State.Officer }
        ensures restores { Restores kek.now mac.now bytes.now self.old.vault result self.new.vault }
        ensures others_stay { self.new ≡ restored_view self.old self.new.vault.slots }
        ensures refused_unchanged { OnErr result (self.new ≡ self.old) }
        // The machine goes on from there: the module represents it with the restored slots, and its rules hold.
        ensures represents { (s : MachineState E) → Represents self.old s → Represents self.new (restored_state s self.new.vault.slots) }
        ensures represented { IsRepresented self.new }
        // Memory that holds nothing is zero.
        ensures clean { IsClean self.new }
    {
        // Opened, so that the module's rules are known of what it finds.
        let _ = &self.public;
        restore(&mut self.parts.vault, kek, mac, bytes)
    }
}
