//! SP 800-90B, 4.4, with the cutoffs of a source that gives 1 bit of entropy a sample.
ghost use Rattle.std.specs.Prelude.{◌≡◌, ◌++◌, [], ◌∷◌, replicate, Some, None};
ghost use Rattle.hmac_core.specs.Blocks.{joined};
ghost use Rattle.noise_health.specs.Signals.{health_signal};
ghost use Rattle.noise_health.specs.declared.health.HealthFault.TheVariants.{Repetition, Proportion};

/// The cutoff of the repetition count test is 31 (4.4.1), that of the adaptive proportion test 325 (4.4.2): there the value 1 stands
/// in ten rows of 30, each ended by a 0, and then so often that it is the 324th or the 325th.
pub fn health_signals()
    ensures thirty { health_signal (replicate 30 7) ≡ None }
    ensures thirty_one { health_signal (replicate 31 7) ≡ Some Repetition }
    ensures below_proportion { health_signal (joined (λ n. replicate 30 1 ++ 0 ∷ []) 10 ++ replicate 24 1) ≡ None }
    ensures proportion { health_signal (joined (λ n. replicate 30 1 ++ 0 ∷ []) 10 ++ replicate 25 1) ≡ Some Proportion }
{}
