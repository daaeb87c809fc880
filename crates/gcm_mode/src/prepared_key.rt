//! What is kept of a key.
ghost use Rattle.std.specs.Prelude.{◌≡◌, ℕ, List, IsTrue, length};
ghost use Rattle.bits_core.specs.Parameters.{is_aes_length};
ghost use Rattle.aes_core.specs.Schedules.{IsExpanded};
ghost use Rattle.gcm_mode.specs.Filled.{IsFilled, IsReady, IsWiped};

use aes_core::Schedule;
use bits_core::wipe;
use ghash_core::Table;

/// A key made ready for many calls: its AES schedule and the table of its hash subkey.
#[derive(Drop)]
pub struct Prepared {
    pub(crate) schedule: Schedule,
    pub(crate) table: Table,
}

impl Prepared {
    /// All zero.
    pub fn empty() -> Prepared
        ensures { IsWiped result }
    {
        Prepared {
            schedule: Schedule::empty(),
            table: Table::empty(),
        }
    }

    /// Fills it from a key of 16, 24 or 32 bytes.
    pub fn fill(&mut self, key: &[u8])
        requires { IsTrue (is_aes_length (length key.now)) }
        ensures filled { IsFilled self.new key.now }
        ensures ready { IsReady self.new }
    {
        self.schedule.expand(key);
        let mut subkey = [0u8; 16];
        self.schedule.encrypt(&mut subkey);
        self.table.fill(&subkey);
        wipe(&mut subkey);
    }

    /// Its AES schedule, for the calls that need no hash subkey.
    pub fn schedule(&self) -> &Schedule
        ensures same { result.now ≡ self.now.schedule }
        ensures expanded { (key : List ℕ) → IsFilled self.now key → IsExpanded result.now key }
    {
        &self.schedule
    }

    /// Makes all of it zero.
    pub fn wipe(&mut self)
        ensures { IsWiped self.new }
    {
        self.schedule.wipe();
        self.table.wipe();
    }

    /// It was filled from one key at most. The call does nothing.
    pub fn of_one_key(&self)
        ensures { (key other : List ℕ) → IsFilled self.now key → IsFilled self.now other → key ≡ other }
    {}

    /// It can be used once a key filled it. The call does nothing.
    pub fn filled_is_ready(&self)
        ensures { (key : List ℕ) → IsFilled self.now key → IsReady self.now }
    {}
}
