// Noise that comes from memory.
ghost use Rattle.std.specs.Prelude.{◌≡◌, ◌≢◌, ◌≤◌, Some};
ghost use Rattle.outside.specs.Events.{TakesEvent, next_event, events_after};
ghost use Rattle.outside.specs.Faults.{FaultCounted};
ghost use Rattle.outside.specs.Memory.{faults_after};

use crate::{Noise, Sample};
use std::marker::Model;

/// Noise of given events. It tells its content, and counts the `Failed` events taken.
#[derive(Drop)]
pub struct MemNoise {
    events: Vec<Sample>,
    taken: usize,
    faults: u64,
}

impl Model for MemNoise {
    ghost use Rattle.std.specs.Prelude.{◌≤◌, length, drop};
    ghost use Rattle.outside.specs.Memory.{NoiseState};

    ghost Value = { NoiseState };

    ghost view = { λ a. record { left = drop a.taken a.events.items; faults = a.faults } };

    ghost invariant = { λ a. a.taken ≤ length a.events.items };
}

impl MemNoise {
    /// Noise of these events, in their order.
    pub fn new(events: Vec<Sample>) -> Self
        ensures { result ≡ record { left = events.items; faults = 0 } }
    {
        MemNoise {
            events,
            taken: 0,
            faults: 0,
        }
    }
}

impl Noise for MemNoise {
    ghost left = { λ noise. Some noise.left };

    ghost faults = { λ noise. noise.faults };

    fn next(&mut self) -> Sample
        ensures taken { TakesEvent (Some self.old.left) result (Some self.new.left) }
        ensures fault_counted { result ≡ Sample.Failed → FaultCounted self.old.faults self.new.faults }
        ensures faults_unchanged { result ≢ Sample.Failed → self.new.faults ≡ self.old.faults }
        ensures never_falls { self.old.faults ≤ self.new.faults }

        ensures after { self.new ≡ record {
          left = events_after self.old.left;
          faults = faults_after result self.old.faults;
        } }
    {
        let Some(event) = self.events.get(self.taken) else {
            return Sample::Ended;
        };
        self.taken += 1;
        if let Sample::Failed = event {
            self.faults = self.faults.saturating_add(1);
        }
        *event
    }
}
