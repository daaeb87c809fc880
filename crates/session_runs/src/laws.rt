// A law of summaries, the contract of a function without a body.
ghost use Rattle.session_runs.specs.Laws.{EachIsCountedOnce, SessionsAreCounted};

use engine_core::Engine;
use state_model::numbers_are_in_order;

/// The status lines of a summary count each reply once, unless it tells that its command was out of order; and no command of a session is.
pub fn sessions_are_counted<E: Engine>()
    ensures once { EachIsCountedOnce }
    ensures session { SessionsAreCounted E.calls }
{
    numbers_are_in_order::<E>();
}
