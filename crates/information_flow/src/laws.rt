// Laws of two machines, each the contract of a function without a body.
ghost use Rattle.engine_core.specs.Calls.{IsStandard};
ghost use Rattle.information_flow.specs.Flow.{SecretsStayInside, TaintIsPublic, UntaintedAreEqual, VariantsRunAlike};
ghost use Rattle.information_flow.specs.OneCommand.{OneCommandSuffices};

use engine_core::Engine;

/// With an engine that answers as the standards say, a step keeps two machines equal outside what is tainted, leaves them the same noise,
/// and answers them with replies that tell the same service, state and error code, and are equal unless the command observes what is
/// tainted. What is tainted is the same from either machine; and where nothing is, they are equal.
pub fn secrets_stay_inside<E: Engine>()
    ensures stays { IsStandard E.calls → SecretsStayInside E.calls }
    ensures public { TaintIsPublic E.calls }
    ensures equal { UntaintedAreEqual E }
{}

/// So do runs over commands that differ in secrets alone: in pieces of entered parameters, and in the check values of those that differ.
pub fn variants_run_alike<E: Engine>()
    ensures { IsStandard E.calls → VariantsRunAlike E.calls }
{
    secrets_stay_inside::<E>();
}

/// Where all secrets were entered into one slot, each slot that may differ is in its tree, and a ZeroiseTree of that slot leaves the two
/// machines equal.
pub fn one_command_suffices<E: Engine>()
    ensures { IsStandard E.calls → OneCommandSuffices E.calls }
{
    secrets_stay_inside::<E>();
}
