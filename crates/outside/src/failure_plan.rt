// Which calls of an object in memory fail.
ghost use Rattle.std.specs.Prelude.{◌≡◌, ◌≤◌, ◌+◌};
ghost use Rattle.outside.specs.Faults.{one_more};
ghost use Rattle.outside.specs.Memory.{is_listed, calls_after};

use std::marker::Model;

const PAST_EVERY_LIST: u128 = 1 << 64;

// The numbers of the calls that fail, counted from 1, beside the calls made and the faults raised.
#[derive(Drop)]
pub(crate) struct FailurePlan {
    fail: Vec<u64>,
    calls: u128,
    faults: u64,
}

impl Model for FailurePlan {
    ghost use Rattle.std.specs.Prelude.{◌≤◌, ◌^◌};
    ghost use Rattle.outside.specs.Memory.{FailurePlan as Calls};

    ghost Value = { Calls };

    ghost view = { λ a. record { fail = a.fail.items; calls = a.calls; faults = a.faults } };

    ghost invariant = { λ a. a.calls ≤ 2 ^ 64 };
}

impl FailurePlan {
    pub(crate) fn new(fail: Vec<u64>) -> Self
        ensures { result ≡ record { fail = fail.items; calls = 0; faults = 0 } }
    {
        FailurePlan {
            fail,
            calls: 0,
            faults: 0,
        }
    }

    // Counts a call, and says whether it is one that fails.
    pub(crate) fn next_fails(&mut self) -> bool
        ensures listed { result ≡ is_listed self.old.fail (self.old.calls + 1) }
        ensures counted { self.new ≡ record self.old { calls = calls_after self.old.calls } }
    {
        let number = self.calls + 1;
        self.calls = number.min(PAST_EVERY_LIST);
        self.fail.iter().any(|listed| u128::from(*listed) == number)
    }

    // Counts a fault.
    pub(crate) fn raise(&mut self)
        ensures counted { self.new ≡ record self.old { faults = one_more self.old.faults } }
        ensures never_falls { self.old.faults ≤ self.new.faults }
    {
        self.faults = self.faults.saturating_add(1);
    }
}
