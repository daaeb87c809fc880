//! Sets of tests.
ghost use Rattle.std.specs.Prelude.{◌≡◌, ◌||◌, ◌==◌};
ghost use Rattle.self_tests.specs.Tests.{number_of};
ghost use Rattle.self_tests.specs.TestSet.{has_test, with_test};

use crate::Test;
use std::marker::Model;

/// A set of tests, as those that an engine passed. Contracts see it as the number that `bits` tells.
#[derive(Clone, Copy, Debug, PartialEq, Eq)]
pub struct Tested {
    bits: u16,
}

impl Model for Tested {
    ghost use Rattle.std.specs.Prelude.{ℕ, ◌<◌, ◌^◌};

    ghost Value = { ℕ };

    ghost view = { λ s. s.bits };

    ghost invariant = { λ s. s.bits < 2 ^ 15 };

    ghost inverse = { λ n. record { bits = n } };
}

impl Tested {
    /// No test.
    pub fn empty() -> Tested
        ensures { result ≡ 0 }
    {
        Tested { bits: 0 }
    }

    /// Whether the test is in the set.
    pub fn has(&self, test: Test) -> bool
        ensures { result ≡ has_test self.now test }
    {
        (self.bits >> test.number()) & 1 == 1
    }

    /// Puts the test into the set; the others stay.
    pub fn add(&mut self, test: Test)
        ensures tests { self.new ≡ with_test self.old test }
        ensures each { (other : Test) → has_test self.new other ≡ (has_test self.old other || number_of other == number_of test) }
    {
        self.bits |= 1 << test.number();
    }

    /// The set as a number: test i is the bit of value 2^i.
    pub fn bits(&self) -> u16
        ensures { result ≡ self.now }
    {
        self.bits
    }
}
