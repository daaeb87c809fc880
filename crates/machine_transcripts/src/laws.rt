// Laws of what the machine leaves, each the contract of a function without a body of its own.
ghost use Rattle.machine_transcripts.specs.Laws.{RunsLeaveLawfulTranscripts, StreamsLeaveLawfulTranscripts, BlankedTranscriptsStayLawful};

use engine_core::Engine;
use state_model::steps_keep_the_rules;
use transcript_check::{entered_bytes_may_be_blanked, first_no_tells};

/// What a run of the machine from its initial state leaves is a lawful transcript, with any engine, image, digest and noise and for any
/// commands; so a checker says yes to each of its pairs. Of the bytes that a stream brings these are the commands that they parse into.
pub fn runs_leave_lawful_transcripts<E: Engine>()
    ensures run { RunsLeaveLawfulTranscripts E.calls }
    ensures stream { StreamsLeaveLawfulTranscripts E.calls }
{
    steps_keep_the_rules::<E>();
    first_no_tells();
}

/// It stays one where entered bytes are replaced by as many others: who is to check it need not be shown them.
pub fn blanked_bytes_stay_lawful<E: Engine>()
    ensures { BlankedTranscriptsStayLawful E.calls }
{
    steps_keep_the_rules::<E>();
    entered_bytes_may_be_blanked();
    first_no_tells();
}
