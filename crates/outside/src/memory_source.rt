// Bytes that come from memory.
ghost use Rattle.std.specs.Prelude.{◌≡◌, ◌≤◌, ◌<◌, ◌+◌, ◌++◌, ℕ, List, Some, true, false, Ok, IfOk, IsErr, OnOk, OnErr, take, drop, length};
ghost use Rattle.outside.specs.Contents.{Consumes, IsAtEnd};
ghost use Rattle.outside.specs.Faults.{FaultCounted, one_more};
ghost use Rattle.outside.specs.Memory.{is_listed, calls_after, read_count};

use crate::failure_plan::FailurePlan;
use crate::{Failed, Source};
use std::marker::Model;

/// A source of given bytes. It tells its content, and its calls fail where a list says so.
#[derive(Drop)]
pub struct MemSource {
    bytes: Vec<u8>,
    taken: usize,
    step: usize,
    plan: FailurePlan,
}

impl Model for MemSource {
    ghost use Rattle.std.specs.Prelude.{◌≤◌, ◌<◌, length, drop};
    ghost use Rattle.outside.specs.Memory.{SourceState};

    ghost Value = { SourceState };

    ghost view = { λ a. record { left = drop a.taken a.bytes.items; step = a.step; plan = a.plan } };

    ghost invariant = { λ a. (a.taken ≤ length a.bytes.items) × (0 < a.step) };
}

impl MemSource {
    /// A source of these bytes. A read takes at most `step` of them, at least 1. The k-th read,
    /// counted from 1, fails where k is in `fail`.
    pub fn new(bytes: Vec<u8>, step: usize, fail: Vec<u64>) -> Self
        requires { 0 < step }
        ensures { result ≡ record {
          left = bytes.items;
          step = step;
          plan = record { fail = fail.items; calls = 0; faults = 0 };
        } }
    {
        MemSource {
            bytes,
            taken: 0,
            step,
            plan: FailurePlan::new(fail),
        }
    }
}

impl Source for MemSource {
    ghost left = { λ source. Some source.left };

    ghost faults = { λ source. source.plan.faults };

    /// Takes the least of the step, the length of `into` and the bytes left. The rest of `into` stays.
    fn read(&mut self, into: &mut [u8]) -> Result<usize, Failed>
        ensures size { IfOk result (λ n. n ≤ length into.old) }
        ensures taken { IfOk result (λ n. Consumes (Some self.old.left) (take n into.new) (Some self.new.left)) }
        ensures end { IfOk result (λ n. n ≡ 0 → 0 < length into.old → IsAtEnd (Some self.old.left)) }
        ensures kept { OnErr result (Some self.new.left ≡ Some self.old.left) }
        ensures fault_counted { OnErr result (FaultCounted self.old.plan.faults self.new.plan.faults) }
        ensures faults_unchanged { OnOk result (self.new.plan.faults ≡ self.old.plan.faults) }
        ensures never_falls { self.old.plan.faults ≤ self.new.plan.faults }

        ensures listed { is_listed self.old.plan.fail (self.old.plan.calls + 1) ≡ true → IsErr result }
        ensures unlisted { is_listed self.old.plan.fail (self.old.plan.calls + 1) ≡ false →
            result ≡ Ok (read_count self.old (length into.old)) }
        ensures filled { IfOk result (λ n. into.new ≡ take n self.old.left ++ drop n into.old) }
        ensures after { IfOk result (λ n. self.new ≡ record self.old {
          left = drop n self.old.left;
          plan = record self.old.plan { calls = calls_after self.old.plan.calls };
        }) }
        ensures untouched { OnErr result (into.new ≡ into.old) }
        ensures after_fault { OnErr result (self.new ≡ record self.old {
          plan = record self.old.plan {
            calls = calls_after self.old.plan.calls;
            faults = one_more self.old.plan.faults;
          };
        }) }
    {
        if self.plan.next_fails() {
            self.plan.raise();
            return Err(Failed);
        }
        let left = &self.bytes[self.taken..];
        let count = self.step.min(into.len()).min(left.len());
        into[..count].copy_from_slice(&left[..count]);
        self.taken += count;
        Ok(count)
    }
}
