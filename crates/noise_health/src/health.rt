// The repetition count test and the adaptive proportion test of SP 800-90B.
ghost use Rattle.std.specs.Prelude.{◌≡◌, ◌<◌, ◌≤◌, ◌++◌, ◌∷◌, [], ℕ, List, None, length};

/// The cutoff of the repetition count test (SP 800-90B, section 4.4.1).
const REPETITION_CUTOFF: u8 = 31;

/// The window of the adaptive proportion test: 512 samples, as for a source that isn't binary (section 4.4.2).
const WINDOW: u16 = 512;

/// The cutoff of the adaptive proportion test in such a window (section 4.4.2).
const PROPORTION_CUTOFF: u16 = 325;

/// What is wrong with a noise source.
#[derive(Clone, Copy, Debug, PartialEq, Eq)]
pub enum HealthFault {
    /// The last 31 samples are equal.
    Repetition,
    /// A window of 512 samples contains its first sample 325 times.
    Proportion,
}

/// The counters of both tests. They hold raw noise, so they have no `Debug`.
#[derive(Clone, Copy)]
pub struct Health {
    last: u8,
    run: u8,
    first: u8,
    seen: u16,
    hits: u16,
}

impl Health {
    ghost use Rattle.noise_health.specs.Counts.{Counts};
    ghost use Rattle.noise_health.specs.Signals.{health_signal};
    ghost use Rattle.noise_health.specs.Samples.{last_of, run_at_end, first_of, last_window, hits_of};

    /// The counters before the first sample.
    pub const fn new() -> Health
        ensures { Counts result [] }
    {
        Health {
            last: 0,
            run: 0,
            first: 0,
            seen: 0,
            hits: 0,
        }
    }

    /// Takes a sample, and answers the fault that shows at it. Repetition comes before proportion
    /// (SP 800-90B, sections 4.4.1 and 4.4.2, cutoffs 31 and 325, windows of 512 samples counted
    /// from the first). After a fault only a new `Health` may be fed.
    pub fn feed(&mut self, sample: u8) -> Option<HealthFault>
        requires { (samples : List ℕ) × Counts self.old samples }
        ensures signal { (samples : List ℕ) → Counts self.old samples →
            result ≡ health_signal (samples ++ sample ∷ []) }
        ensures counts { (samples : List ℕ) → Counts self.old samples → result ≡ None →
            Counts self.new (samples ++ sample ∷ []) }
    {
        self.count_run(sample);
        self.count_window(sample);
        if self.run >= REPETITION_CUTOFF {
            Some(HealthFault::Repetition)
        } else if self.hits == PROPORTION_CUTOFF && sample == self.first {
            Some(HealthFault::Proportion)
        } else {
            None
        }
    }

    // Counts the equal samples at the end.
    fn count_run(&mut self, sample: u8)
        requires { self.old.run < 255 }
        ensures last { self.new.last ≡ sample }
        ensures run { (samples : List ℕ) → self.old.last ≡ last_of samples →
            self.old.run ≡ run_at_end samples → self.new.run ≡ run_at_end (samples ++ sample ∷ []) }
        ensures window { (self.new.first ≡ self.old.first) × (self.new.seen ≡ self.old.seen)
            × (self.new.hits ≡ self.old.hits) }
    {
        if sample == self.last {
            self.run += 1;
        } else {
            self.last = sample;
            self.run = 1;
        }
    }

    // Counts the samples of a window, and those that are equal to its first one.
    fn count_window(&mut self, sample: u8)
        requires { (self.old.seen ≤ 512) × (self.old.hits ≤ self.old.seen) }
        ensures window { (samples : List ℕ) → self.old.first ≡ first_of (last_window samples) →
            self.old.seen ≡ length (last_window samples) →
            self.old.hits ≡ hits_of (last_window samples) →
            let window = last_window (samples ++ sample ∷ []) in
            (self.new.first ≡ first_of window) × (self.new.seen ≡ length window)
            × (self.new.hits ≡ hits_of window) }
        ensures run { (self.new.last ≡ self.old.last) × (self.new.run ≡ self.old.run) }
    {
        if self.seen % WINDOW == 0 {
            self.first = sample;
            self.seen = 0;
            self.hits = 0;
        }
        self.seen += 1;
        if sample == self.first {
            self.hits += 1;
        }
    }
}
