// Laws of the machine, each the contract of a function without a body.
ghost use Rattle.std.specs.Prelude.{ℕ, List};
ghost use Rattle.state_model.specs.MachineState.{IsWellFormed, initial_state};
ghost use Rattle.state_model.specs.Laws.{StepsKeepTheRules, DataNeedsARole, ZeroisingEmptiesAll, ZeroisingEmptiesOne, ZeroisingEmptiesTree, RefusalsChangeNothing, RefusalsChangeNoSlot, RefusalsSpendOneUse, WrongTagsSpendOneUse, FailuresChangeNoSlot, AnswersAreOfTheTable, OutOfOrderByTheNumber, OutOfOrderChangesNothing, NumbersAreTaken, StepsAreLawful};
ghost use Rattle.state_model.specs.Meaning.{ServicesMeanTheStandards};
ghost use Rattle.state_model.specs.Completeness.{ServicesAreComplete};

use engine_core::Engine;

/// The machine begins by its rules, and a step for any command keeps them, with any engine and noise.
pub fn steps_keep_the_rules<E: Engine>()
    ensures begins { (engine : E) (image digest : List ℕ) → IsWellFormed (initial_state engine image digest) }
    ensures keeps { StepsKeepTheRules E.calls }
{}

/// A step gives data only where a service of class data was done in a role: none in self-tests, in entry or in error, none by a
/// service that zeroises, and none where a service is refused.
pub fn data_needs_a_role<E: Engine>()
    ensures { DataNeedsARole E.calls }
{}

/// After ZeroiseAll and Reset all slots and rows are empty. After Zeroise that one is with its row, and no other has changed. After
/// ZeroiseTree the slot and each slot whose row held it are, with their rows, and no other has changed.
pub fn zeroising_empties<E: Engine>()
    ensures all { ZeroisingEmptiesAll E.calls }
    ensures one { ZeroisingEmptiesOne E.calls }
    ensures tree { ZeroisingEmptiesTree E.calls }
{}

/// A command that is unknown, not permitted or not of its form changes nothing but that its sequence number is taken. One that names at
/// most one slot changes no slot unless it is done, but a wrong tag spends one use. One that names two slots, and is refused at them,
/// changes none but that one use of the first is spent, where that wasn't refused. A test or a noise that fails changes no slot.
pub fn refusals_change_nothing<E: Engine>()
    ensures at_once { RefusalsChangeNothing E.calls }
    ensures by_slot { RefusalsChangeNoSlot E.calls }
    ensures by_second_slot { RefusalsSpendOneUse E.calls }
    ensures by_tag { WrongTagsSpendOneUse E.calls }
    ensures by_failure { FailuresChangeNoSlot E.calls }
{}

/// A command for a service that comes in its order is answered with a status that the table gives the service (`may_answer`).
pub fn answers_are_of_the_table<E: Engine>()
    ensures { AnswersAreOfTheTable E.calls }
{}

/// A command is out of order exactly where it has a sequence number that isn't the expected one, and changes nothing at all then. In any
/// other command a sequence number is taken, whatever became of it, and without one the expected number stays.
pub fn numbers_are_in_order<E: Engine>()
    ensures late { OutOfOrderByTheNumber E.calls }
    ensures refused { OutOfOrderChangesNothing E.calls }
    ensures taken { NumbersAreTaken E.calls }
{}

/// With an engine that answers as the standards say, what a cryptographic service gives, or fills its target with, is the standard's value
/// by the parameters and the generator that were held before: a digest (FIPS 180-4), an HMAC (FIPS 198-1), a text sealed or opened
/// (SP 800-38D), a parameter wrapped or unwrapped (SP 800-38F), derived key material (SP 800-108 Rev. 1) or drawn bits (SP 800-90A Rev. 1);
/// and a MAC, a tag and a wrapping are told right or wrong as they are.
pub fn services_mean_the_standards<E: Engine>()
    ensures { ServicesMeanTheStandards E.calls }
{}

/// With an engine that answers as the standards say, and answers the test that is due as it is known, a command that comes in its order
/// and asks for a permitted cryptographic service is done exactly where the noise that it takes is there and shows no fault, the named
/// slots may be used for it, a given MAC, tag or wrapping is right, and lengths fit.
pub fn services_are_complete<E: Engine>()
    ensures { ServicesAreComplete E.calls }
{}

/// Each step is lawful, with any engine and noise: the public states before and after it keep, with the head of its reply, the rules by
/// which everyone can check the module who sees commands and replies.
pub fn steps_are_lawful<E: Engine>()
    ensures { StepsAreLawful E.calls }
{}
