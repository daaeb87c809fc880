// What a source, a sink and a noise source owe their callers.
ghost use Rattle.std.specs.Prelude.{◌≡◌, ◌≢◌, ◌≤◌, ◌<◌, ℕ, List, Option, IfOk, OnOk, OnErr, take, length};
ghost use Rattle.outside.specs.Contents.{Consumes, Appends, IsAtEnd};
ghost use Rattle.outside.specs.Events.{TakesEvent};
ghost use Rattle.outside.specs.Faults.{FaultCounted};

/// The fault of a call. The call took nothing and gave nothing.
#[derive(Clone, Copy, Debug, PartialEq, Eq, Drop)]
pub struct Failed;

/// Where bytes come from.
pub trait Source {
    /// The bytes left, where the source tells them.
    ghost left: { Self → Option (List ℕ) };

    /// How many calls failed. The count never falls, and may stand still at 2^64 - 1.
    ghost faults: { Self → ℕ };

    /// Takes bytes into the front of `into` and answers how many, at most the length of `into`.
    /// It answers 0 for a nonempty buffer only at the end of its bytes. `Failed` takes nothing.
    fn read(&mut self, into: &mut [u8]) -> Result<usize, Failed>
        ensures size { IfOk result (λ n. n ≤ length into.old) }
        ensures taken { IfOk result (λ n. Consumes (left self.old) (take n into.new) (left self.new)) }
        ensures end { IfOk result (λ n. n ≡ 0 → 0 < length into.old → IsAtEnd (left self.old)) }
        ensures kept { OnErr result (left self.new ≡ left self.old) }
        ensures fault_counted { OnErr result (FaultCounted (faults self.old) (faults self.new)) }
        ensures faults_unchanged { OnOk result (faults self.new ≡ faults self.old) }
        ensures never_falls { faults self.old ≤ faults self.new };
}

/// Where bytes go.
pub trait Sink {
    /// The bytes gained so far, where the sink tells them.
    ghost gained: { Self → Option (List ℕ) };

    /// How many calls failed. The count never falls, and may stand still at 2^64 - 1.
    ghost faults: { Self → ℕ };

    /// Takes the first bytes of `piece` and answers how many, at most its length, and at least 1
    /// unless it is empty. `Failed` takes nothing.
    fn write(&mut self, piece: &[u8]) -> Result<usize, Failed>
        ensures size { IfOk result (λ n. n ≤ length piece.now) }
        ensures some { IfOk result (λ n. 0 < length piece.now → 0 < n) }
        ensures gained { IfOk result (λ n. Appends (gained self.old) (take n piece.now) (gained self.new)) }
        ensures kept { OnErr result (gained self.new ≡ gained self.old) }
        ensures fault_counted { OnErr result (FaultCounted (faults self.old) (faults self.new)) }
        ensures faults_unchanged { OnOk result (faults self.new ≡ faults self.old) }
        ensures never_falls { faults self.old ≤ faults self.new };
}

/// What a noise source answers to a call.
#[derive(Clone, Copy, Debug, PartialEq, Eq)]
pub enum Sample {
    /// A byte of noise.
    Byte(u8),
    /// There is no more noise.
    Ended,
    /// The call failed.
    Failed,
}

/// Where noise comes from, an event a call.
pub trait Noise: Drop {
    ghost use Rattle.outside.specs.declared.traits.Sample.{Sample};

    /// The events left, where the noise source tells them.
    ghost left: { Self → Option (List Sample) };

    /// How many calls failed. The count never falls, and may stand still at 2^64 - 1.
    ghost faults: { Self → ℕ };

    /// Takes the first event and answers it. At the end of its events it answers `Ended`.
    fn next(&mut self) -> Sample
        ensures taken { TakesEvent (left self.old) result (left self.new) }
        ensures fault_counted { result ≡ Sample.Failed → FaultCounted (faults self.old) (faults self.new) }
        ensures faults_unchanged { result ≢ Sample.Failed → faults self.new ≡ faults self.old }
        ensures never_falls { faults self.old ≤ faults self.new };
}
