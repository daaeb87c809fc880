// What becomes of the public state where a command is begun.
ghost use Rattle.std.specs.Prelude.{◌≡◌, ◌≢◌, true, false};
ghost use Rattle.service_table.specs.Services.{is_permitted};
ghost use Rattle.service_table.specs.Answers.{is_status_among};
ghost use Rattle.module_frames.specs.Requests.{TestStep, request_value, service_for};
ghost use Rattle.module_frames.specs.LawfulSteps.{is_ok, refusals_at_once, test_failure, step_failure, counted, left_by, period_ended, where_done};
ghost use Rattle.transcript_check.specs.Counting.{IsCountable};
ghost use Rattle.transcript_check.specs.Effects.{LeavesAt, IsNoiseFailure, IsNoiseFailureOf};

use crate::request_facts::{alg_named, service_for};
use module_frames::{PublicState, Request};
use service_table::{Failure, Status, is_cryptographic, test_of};

/// Whether it was done.
pub fn is_ok(status: Status) -> bool
    ensures { result ≡ is_ok status }
{
    matches!(&status, Status::Ok)
}

/// Whether the status is that of a command that is refused at once.
pub fn is_refusal_at_once(status: Status) -> bool
    ensures { result ≡ is_status_among refusals_at_once status }
{
    matches!(
        &status,
        Status::OutOfOrder | Status::UnknownService | Status::NotInState | Status::BadBody
    )
}

// The known-answer test or the image, by the number of tests that a step of the self-tests found done.
fn step_failure(tests_done: u8) -> Failure
    ensures { result ≡ step_failure tests_done }
{
    match tests_done {
        0 => Failure::KnownAnswer(4),
        1 => Failure::Integrity,
        _ => Failure::KnownAnswer(14),
    }
}

// Whether the request is for a step of the self-tests.
fn is_test_step(request: &Request<'_>) -> bool
    ensures yes { result ≡ true → request_value request.now ≡ TestStep }
    ensures other { result ≡ false → request_value request.now ≢ TestStep }
{
    matches!(request, Request::TestStep)
}

// What fails where a request answers TestFailed.
fn test_failure(request: &Request<'_>, tests_done: u8) -> Option<Failure>
    ensures { result ≡ test_failure (request_value request.now) tests_done }
{
    if is_test_step(request) {
        return Some(step_failure(tests_done));
    }
    let test = test_of(service_for(request), alg_named(request))?;
    Some(Failure::KnownAnswer(test))
}

// The failure of the noise that has this error code.
fn noise_failure(code: u16) -> Option<Failure>
    ensures { IsNoiseFailure code result }
{
    match code {
        0x0300 => Some(Failure::NoiseEnded),
        0x0400 => Some(Failure::NoiseFailed),
        0x0500 => Some(Failure::Repetition),
        0x0600 => Some(Failure::Proportion),
        _ => None,
    }
}

// The public state when a request's tests and draws begin: a cryptographic service counts as a use.
fn counted(request: &Request<'_>, found: PublicState) -> PublicState
    requires countable { IsCountable found }
    requires permitted { is_permitted (service_for (request_value request.now)) found.state ≡ true }
    ensures { result ≡ counted (request_value request.now) found }
{
    if is_cryptographic(service_for(request)) {
        found.use_counted()
    } else {
        found
    }
}

// At the end of a cryptographic service: where the period is over, tests are due.
fn period_ended(public: PublicState) -> PublicState
    ensures { result ≡ period_ended public }
{
    if public.is_period_over() {
        public.sent_to_tests()
    } else {
        public
    }
}

// The first where it was done, and else the second.
fn where_done(done: bool, effect: PublicState, found: PublicState) -> PublicState
    ensures { result ≡ where_done done effect found }
{
    if done { effect } else { found }
}

// What a request leaves where no test and no noise failed, by whether it was done.
fn left_by(request: &Request<'_>, done: bool, found: PublicState) -> PublicState
    requires countable { IsCountable found }
    requires permitted { is_permitted (service_for (request_value request.now)) found.state ≡ true }
    ensures { result ≡ left_by (request_value request.now) done found }
{
    match *request {
        Request::PowerOn { period } => where_done(done, found.powered_on(period), found),
        Request::TestStep => where_done(done, found.test_done(), found),
        Request::RequestTests => where_done(done, found.tests_requested(), found),
        Request::SelectRole { role } => where_done(done, found.role_selected(role), found),
        Request::Reset => where_done(done, found.was_reset(), found),
        Request::EntryBegin { .. } => where_done(done, found.entry_begun(), found),
        Request::EntryCommit { .. } => found.entry_ended(),
        Request::EntryAbort => where_done(done, found.entry_ended(), found),
        Request::ShowStatus
        | Request::ShowVersion
        | Request::EntryBytes { .. }
        | Request::Zeroise { .. }
        | Request::ZeroiseAll
        | Request::ShowSlot { .. }
        | Request::ZeroiseTree { .. } => found,
        Request::Hash { .. }
        | Request::Mac { .. }
        | Request::MacVerify { .. }
        | Request::Seal { .. }
        | Request::SealIv { .. }
        | Request::Open { .. }
        | Request::Wrap { .. }
        | Request::Unwrap { .. }
        | Request::WrapPad { .. }
        | Request::UnwrapPad { .. }
        | Request::Derive { .. }
        | Request::Random { .. }
        | Request::Generate { .. }
        | Request::Reseed { .. } => period_ended(counted(request, found)),
    }
}

// What the noise is said to have done to a request: a step of the self-tests takes noise after the last test alone.
fn noise_failure_of(request: &Request<'_>, tests_done: u8, code: u16) -> Option<Failure>
    ensures { IsNoiseFailureOf (request_value request.now) tests_done code result }
{
    if is_test_step(request) && tests_done != 2 {
        return None;
    }
    noise_failure(code)
}

/// The public state that a request leaves with this status and this error code. `None` exactly where it leaves none: no test of its own
/// and no noise has failed so.
pub fn left_at(
    request: &Request<'_>,
    found: PublicState,
    status: Status,
    code: u16,
) -> Option<PublicState>
    requires countable { IsCountable found }
    requires permitted { is_permitted (service_for (request_value request.now)) found.state ≡ true }
    ensures { LeavesAt (request_value request.now) found status code result }
{
    let after = match &status {
        Status::TestFailed => {
            let reason = test_failure(request, found.tests_done)?;
            counted(request, found).has_failed(reason)
        }
        Status::NoiseFault => {
            let reason = noise_failure_of(request, found.tests_done, code)?;
            counted(request, found).has_failed(reason)
        }
        _ => left_by(request, is_ok(status), found),
    };
    (after.error_code == code).then_some(after)
}
