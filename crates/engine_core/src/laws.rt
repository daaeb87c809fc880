// Laws of the two engines, as contracts of functions without a body.
ghost use Rattle.std.specs.Prelude.{◌≡◌};
ghost use Rattle.engine_core.specs.Calls.{IsStandard};
ghost use Rattle.engine_core.specs.Engines.{faulty_calls};

use crate::{Engine, Faulty, Shipped};

/// Each call of the shipped engine answers the standard's function, and leaves the engine as it was.
pub fn shipped_is_standard()
    ensures { IsStandard ⟦<Shipped as Engine>⟧.calls }
{}

/// Each call of a faulty engine answers as the shipped one's, but for the call that it is wrong in, from its time on, in its bit.
pub fn faulty_is_as_told()
    ensures { ⟦<Faulty as Engine>⟧.calls ≡ faulty_calls }
{}
