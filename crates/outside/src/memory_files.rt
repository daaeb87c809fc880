// Files and noise that come from memory.
ghost use Rattle.std.specs.Prelude.{◌≡◌, ◌≢◌, ◌≤◌, ◌<◌, ◌+◌, ℕ, List, Some, None, true, false, Ok, Err, IfOk, IsErr, IfSome, IfNone, OnSome, OnOk, OnErr, MatchResult, length, map, position, remove, slice_index_or, bytes_eq, string_bytes, String};
ghost use Rattle.std.specs.Global.{Global as Heap, Vec};
ghost use Rattle.outside.specs.Faults.{FaultCounted, one_more};
ghost use Rattle.outside.specs.FilesContent.{HasFile, HasFileAbove, HandsOver, first_named, without_first};
ghost use Rattle.outside.specs.Memory.{is_listed, calls_after, entry_of};
ghost use Rattle.outside.specs.declared.traits.Sample.{Sample};

use crate::failure_plan::FailurePlan;
use crate::{Failed, Files, LoadFault, MemNoise, Noise, Sample};
use std::alloc::Global;
use std::marker::Model;

/// Files and noise by name. They tell their content, and their calls fail where a list says so, and
/// where a name is missing. Where a name stands twice, the first entry counts.
#[derive(Drop)]
pub struct MemFiles {
    files: Vec<(String, Vec<u8>)>,
    noises: Vec<(String, Vec<Sample>)>,
    plan: FailurePlan,
}

impl Model for MemFiles {
    ghost use Rattle.std.specs.Prelude.{map};
    ghost use Rattle.outside.specs.Memory.{FilesState, entry_of};

    ghost Value = { FilesState };

    ghost view = { λ a. record {
      content = record {
        files = map entry_of a.files.items;
        noises = map entry_of a.noises.items;
      };
      plan = a.plan;
    } };
}

// The place of the first entry of this name.
fn place_of<T>(entries: &[(String, T)], name: &str) -> Option<usize>
    ensures { result ≡ position (λ entry. bytes_eq (string_bytes entry.0) name.now) entries.now }
{
    entries.iter().position(|entry| entry.0.as_str() == name)
}

// Counts a call, and answers the place of the first entry of this name. None where the call fails.
fn place_in_call<A>(
    plan: &mut FailurePlan,
    entries: &[(String, Vec<A>)],
    name: &str,
) -> Option<usize>
    ensures unlisted { IfSome result (λ _. is_listed plan.old.fail (plan.old.calls + 1) ≡ false) }
    ensures within { IfSome result (λ place. place < length entries.now) }
    ensures first { IfSome result (λ place. (d : String Heap × Vec A) →
        first_named name.now (map entry_of entries.now) ≡ Some (slice_index_or entries.now place d).1.items) }
    ensures others { IfSome result (λ place.
        without_first name.now (map entry_of entries.now) ≡ map entry_of (remove entries.now place)) }
    ensures missing { IfNone result (is_listed plan.old.fail (plan.old.calls + 1) ≡ false →
        first_named name.now (map entry_of entries.now) ≡ None) }
    ensures after { OnSome result (plan.new ≡ record plan.old { calls = calls_after plan.old.calls }) }
    ensures after_fault { IfNone result (plan.new ≡ record plan.old {
      calls = calls_after plan.old.calls;
      faults = one_more plan.old.faults;
    }) }
    ensures never_falls { plan.old.faults ≤ plan.new.faults }
{
    if !plan.next_fails() {
        if let Some(place) = place_of(entries, name) {
            return Some(place);
        }
    }
    plan.raise();
    None
}

impl MemFiles {
    /// These files and noises by name. The k-th call, counted from 1, fails where k is in `fail`.
    pub fn new(
        files: Vec<(String, Vec<u8>)>,
        noises: Vec<(String, Vec<Sample>)>,
        fail: Vec<u64>,
    ) -> Self
        ensures { result ≡ record {
          content = record {
            files = map entry_of files.items;
            noises = map entry_of noises.items;
          };
          plan = record { fail = fail.items; calls = 0; faults = 0 };
        } }
    {
        MemFiles {
            files,
            noises,
            plan: FailurePlan::new(fail),
        }
    }
}

impl Files for MemFiles {
    type Stream = MemNoise;

    ghost content = { λ files. Some files.content };

    ghost faults = { λ files. files.plan.faults };

    /// The bytes of the first file of this name. It fails for a listed call and a missing name alone.
    fn load(&mut self, alloc: Global, name: &str, limit: usize) -> Result<Vec<u8>, LoadFault>
        ensures size { IfOk result (λ bytes. length bytes.items ≤ limit) }
        ensures loaded { IfOk result (λ bytes. HasFile self.old.content name.now bytes.items) }
        ensures too_long { result ≡ Err LoadFault.TooLong → HasFileAbove self.old.content name.now limit }
        ensures kept { Some self.new.content ≡ Some self.old.content }
        ensures fault_counted { result ≡ Err LoadFault.Failed → FaultCounted self.old.plan.faults self.new.plan.faults }
        ensures faults_unchanged { result ≢ Err LoadFault.Failed → self.new.plan.faults ≡ self.old.plan.faults }
        ensures never_falls { self.old.plan.faults ≤ self.new.plan.faults }

        ensures listed { is_listed self.old.plan.fail (self.old.plan.calls + 1) ≡ true → result ≡ Err LoadFault.Failed }
        ensures missing { first_named name.now self.old.content.files ≡ None → result ≡ Err LoadFault.Failed }
        ensures long { (bytes : List ℕ) → is_listed self.old.plan.fail (self.old.plan.calls + 1) ≡ false →
            first_named name.now self.old.content.files ≡ Some bytes → limit < length bytes → result ≡ Err LoadFault.TooLong }
        ensures fits { (bytes : List ℕ) → is_listed self.old.plan.fail (self.old.plan.calls + 1) ≡ false →
            first_named name.now self.old.content.files ≡ Some bytes → length bytes ≤ limit →
            MatchResult result (λ loaded. loaded.items ≡ bytes) (λ fault. fault ≡ LoadFault.NoMemory) }
        ensures after { result ≢ Err LoadFault.Failed → self.new ≡ record self.old {
          plan = record self.old.plan { calls = calls_after self.old.plan.calls };
        } }
        ensures after_fault { result ≡ Err LoadFault.Failed → self.new ≡ record self.old {
          plan = record self.old.plan {
            calls = calls_after self.old.plan.calls;
            faults = one_more self.old.plan.faults;
          };
        } }
    {
        let Some(place) = place_in_call(&mut self.plan, &self.files, name) else {
            return Err(LoadFault::Failed);
        };
        let bytes = &self.files[place].1;
        if bytes.len() > limit {
            return Err(LoadFault::TooLong);
        }
        match bytes.as_slice().to_vec(alloc) {
            Ok(bytes) => Ok(bytes),
            Err(_) => Err(LoadFault::NoMemory),
        }
    }

    /// The first noise of this name. It fails for a listed call and a missing name alone.
    fn noise(&mut self, name: &str) -> Result<MemNoise, Failed>
        ensures handed { IfOk result (λ stream. HandsOver self.old.content name.now (Some stream.left) (Some self.new.content)) }
        ensures kept { IsErr result → Some self.new.content ≡ Some self.old.content }
        ensures fault_counted { OnErr result (FaultCounted self.old.plan.faults self.new.plan.faults) }
        ensures faults_unchanged { OnOk result (self.new.plan.faults ≡ self.old.plan.faults) }
        ensures never_falls { self.old.plan.faults ≤ self.new.plan.faults }

        ensures listed { is_listed self.old.plan.fail (self.old.plan.calls + 1) ≡ true → IsErr result }
        ensures missing { first_named name.now self.old.content.noises ≡ None → IsErr result }
        ensures found { (events : List Sample) → is_listed self.old.plan.fail (self.old.plan.calls + 1) ≡ false →
            first_named name.now self.old.content.noises ≡ Some events →
            result ≡ Ok (record { left = events; faults = 0 }) }
        ensures after { OnOk result (self.new ≡ record self.old {
          content = record self.old.content { noises = without_first name.now self.old.content.noises };
          plan = record self.old.plan { calls = calls_after self.old.plan.calls };
        }) }
        ensures after_fault { OnErr result (self.new ≡ record self.old {
          plan = record self.old.plan {
            calls = calls_after self.old.plan.calls;
            faults = one_more self.old.plan.faults;
          };
        }) }
    {
        let Some(place) = place_in_call(&mut self.plan, &self.noises, name) else {
            return Err(Failed);
        };
        let (_, events) = self.noises.remove(place);
        Ok(MemNoise::new(events))
    }
}
