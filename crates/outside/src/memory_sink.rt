// Bytes that go to memory.
ghost use Rattle.std.specs.Prelude.{◌≡◌, ◌≤◌, ◌<◌, ◌+◌, ◌++◌, [], ℕ, List, Some, true, false, Ok, IfOk, IsErr, OnOk, OnErr, take, length};
ghost use Rattle.outside.specs.Contents.{Appends};
ghost use Rattle.outside.specs.Faults.{FaultCounted, one_more};
ghost use Rattle.outside.specs.Memory.{is_listed, calls_after, write_count};

use crate::failure_plan::FailurePlan;
use crate::{Failed, Sink};
use std::alloc::{AllocError, Global};
use std::marker::Model;

/// A sink with a fixed room. It tells its content, and its calls fail where a list says so.
#[derive(Drop)]
pub struct MemSink {
    buffer: Vec<u8>,
    used: usize,
    step: usize,
    plan: FailurePlan,
}

impl Model for MemSink {
    ghost use Rattle.std.specs.Prelude.{◌≤◌, ◌<◌, length, take};
    ghost use Rattle.outside.specs.Memory.{SinkState};

    ghost Value = { SinkState };

    ghost view = { λ a. record { gained = take a.used a.buffer.items; room = length a.buffer.items; step = a.step; plan = a.plan } };

    ghost invariant = { λ a. (a.used ≤ length a.buffer.items) × (0 < a.step) };
}

impl MemSink {
    /// An empty sink with room for so many bytes. A write takes at most `step` of them, at least 1.
    /// The k-th write, counted from 1, fails where k is in `fail`. Want of memory is the one refusal.
    pub fn new(alloc: Global, room: usize, step: usize, fail: Vec<u64>) -> Result<Self, AllocError>
        requires { 0 < step }
        ensures { IfOk result (λ sink. sink ≡ record {
          gained = [];
          room = room;
          step = step;
          plan = record { fail = fail.items; calls = 0; faults = 0 };
        }) }
    {
        let buffer = vec![in alloc; 0; room]?;
        Ok(MemSink {
            buffer,
            used: 0,
            step,
            plan: FailurePlan::new(fail),
        })
    }

    /// The bytes gained so far.
    pub fn bytes(&self) -> &[u8]
        ensures { result.now ≡ self.now.gained }
    {
        &self.buffer[..self.used]
    }
}

// Puts a piece behind the bytes in use.
fn append(buffer: &mut Vec<u8>, used: usize, piece: &[u8])
    requires { used + length piece.now ≤ length buffer.old.items }
    ensures bytes { take (used + length piece.now) buffer.new.items ≡ take used buffer.old.items ++ piece.now }
    ensures room { length buffer.new.items ≡ length buffer.old.items }
{
    let end = used + piece.len();
    buffer[used..end].copy_from_slice(piece);
}

impl Sink for MemSink {
    ghost gained = { λ sink. Some sink.gained };

    ghost faults = { λ sink. sink.plan.faults };

    /// Takes the least of the step, the length of `piece` and the room left. It fails where no room is left.
    fn write(&mut self, piece: &[u8]) -> Result<usize, Failed>
        ensures size { IfOk result (λ n. n ≤ length piece.now) }
        ensures some { IfOk result (λ n. 0 < length piece.now → 0 < n) }
        ensures gained { IfOk result (λ n. Appends (Some self.old.gained) (take n piece.now) (Some self.new.gained)) }
        ensures kept { OnErr result (Some self.new.gained ≡ Some self.old.gained) }
        ensures fault_counted { OnErr result (FaultCounted self.old.plan.faults self.new.plan.faults) }
        ensures faults_unchanged { OnOk result (self.new.plan.faults ≡ self.old.plan.faults) }
        ensures never_falls { self.old.plan.faults ≤ self.new.plan.faults }

        ensures listed { is_listed self.old.plan.fail (self.old.plan.calls + 1) ≡ true → IsErr result }
        ensures full { self.old.room ≤ length self.old.gained → IsErr result }
        ensures unlisted { is_listed self.old.plan.fail (self.old.plan.calls + 1) ≡ false →
            length self.old.gained < self.old.room → result ≡ Ok (write_count self.old (length piece.now)) }
        ensures after { IfOk result (λ n. self.new ≡ record self.old {
          gained = self.old.gained ++ take n piece.now;
          plan = record self.old.plan { calls = calls_after self.old.plan.calls };
        }) }
        ensures after_fault { OnErr result (self.new ≡ record self.old {
          plan = record self.old.plan {
            calls = calls_after self.old.plan.calls;
            faults = one_more self.old.plan.faults;
          };
        }) }
    {
        let room = self.buffer.len() - self.used;
        if self.plan.next_fails() || room == 0 {
            self.plan.raise();
            return Err(Failed);
        }
        let count = self.step.min(piece.len()).min(room);
        append(&mut self.buffer, self.used, &piece[..count]);
        self.used += count;
        Ok(count)
    }
}
