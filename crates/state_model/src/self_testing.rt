// The self-tests of the machine.
ghost use Rattle.std.specs.Prelude.{◌≡◌, ◌≢◌, ◌<◌, ℕ, List, Some};
ghost use Rattle.noise_health.specs.Counts.{Counts};
ghost use Rattle.outside.specs.Explained.{Explained};
ghost use Rattle.outside.specs.Faults.{FaultCounted};
ghost use Rattle.service_table.specs.Failures.{failure_code};
ghost use Rattle.module_frames.specs.Requests.{CryptographicRequest, Cryptographic, request_value};
ghost use Rattle.state_model.specs.SelfTesting.{judgement, tested, image_judgement, step_tested, is_seed_due, seeded_when, IsSeeded, test_for, due_at_first_use};

use crypto_services::{Parts, seed};
use engine_core::Engine;
use module_frames::{PublicState, Request};
use outside::Noise;
use self_tests::{Test, Tested, integrity, known_answer};
use service_table::{Failure, Service, Status, test_of};

/// What a test leaves of the public state and of the tests that passed, and why the command is refused, where it is.
#[derive(Clone, Copy)]
pub struct Judgement {
    pub public: PublicState,
    pub tests_passed: Tested,
    pub refused: Option<Status>,
}

// How many bytes a test works in.
const WORK: usize = 256;

// A test whose answers were right joins those that passed; else the state is Error.
fn judge(public: PublicState, tests_passed: Tested, test: Test, right: bool) -> Judgement
    ensures { result ≡ judgement public tests_passed test right }
{
    if right {
        let mut passed = tests_passed;
        passed.add(test);
        return Judgement {
            public,
            tests_passed: passed,
            refused: None,
        };
    }
    Judgement {
        public: public.has_failed(Failure::KnownAnswer(test.number())),
        tests_passed,
        refused: Some(Status::TestFailed),
    }
}

/// Makes a test, where one is due.
pub fn run_test<E: Engine>(
    engine: &mut E,
    public: PublicState,
    tests_passed: Tested,
    due: Option<Test>,
) -> Judgement
    ensures judgement { result ≡ (tested E.calls engine.old public tests_passed due).judgement }
    ensures engine { engine.new ≡ (tested E.calls engine.old public tests_passed due).engine }
{
    match due {
        None => Judgement {
            public,
            tests_passed,
            refused: None,
        },
        Some(test) => {
            let right = known_answer(engine, test, &mut [0; WORK]);
            judge(public, tests_passed, test, right)
        }
    }
}

// An image that has its digest changes nothing; else the state is Error.
fn judge_image(public: PublicState, tests_passed: Tested, right: bool) -> Judgement
    ensures { result ≡ image_judgement public tests_passed right }
{
    if right {
        return Judgement {
            public,
            tests_passed,
            refused: None,
        };
    }
    Judgement {
        public: public.has_failed(Failure::Integrity),
        tests_passed,
        refused: Some(Status::TestFailed),
    }
}

/// Makes the test of TestStep that is due: HMAC-SHA-256; the image, by its digest; the generator.
pub fn run_step_test<E: Engine>(
    engine: &mut E,
    public: PublicState,
    tests_passed: Tested,
    image: &[u8],
    digest: &[u8; 32],
) -> Judgement
    ensures judgement { result ≡ (step_tested E.calls engine.old public tests_passed image.now digest.now).judgement }
    ensures engine { engine.new ≡ (step_tested E.calls engine.old public tests_passed image.now digest.now).engine }
{
    match public.tests_done {
        0 => run_test(engine, public, tests_passed, Some(Test::HmacSha256)),
        1 => judge_image(public, tests_passed, integrity(engine, image, digest)),
        _ => run_test(engine, public, tests_passed, Some(Test::Generator)),
    }
}

// Whether a seed is due: after the last of the three tests, where that passed.
fn is_seed_due(judged: &Judgement) -> bool
    ensures { result ≡ is_seed_due judged.now.public judged.now.refused }
{
    match judged.refused {
        None => judged.public.tests_done >= 2,
        Some(_) => false,
    }
}

/// Seeds the generator anew after the last of the three tests, where that passed. Where the noise fails the state is Error.
pub fn seed_when_due<E: Engine, N: Noise>(
    parts: &mut Parts<E>,
    noise: &mut N,
    judged: Judgement,
) -> Judgement
    requires counts { (samples : List ℕ) × Counts parts.old.health samples }
    requires tested { judged.refused ≢ Some Status.NoiseFault }
    ensures seeded { Explained (N.left noise.old) (N.left noise.new) (λ events left. (samples : List ℕ) → Counts parts.old.health samples →
        IsSeeded (seeded_when E.calls parts.old.engine parts.old.drbg samples events (is_seed_due judged.public judged.refused)) judged
        parts.new.engine parts.new.drbg parts.new.health result left) }
    ensures vault { parts.new.vault ≡ parts.old.vault }
    ensures noise_failed { result.refused ≡ Some Status.NoiseFault → result.public.error_code ≡ failure_code Failure.NoiseFailed → FaultCounted (N.faults noise.old) (N.faults noise.new) }
{
    if !is_seed_due(&judged) {
        return judged;
    }
    match seed(parts, noise) {
        Ok(_) => judged,
        Err(failure) => Judgement {
            public: judged.public.has_failed(failure),
            tests_passed: judged.tests_passed,
            refused: Some(Status::NoiseFault),
        },
    }
}

/// The test of what a cryptographic request uses.
pub fn test_for(request: &Request<'_>) -> Option<Test>
    ensures { (what : CryptographicRequest) → request_value request.now ≡ Cryptographic what → result ≡ test_for what }
{
    let number = match *request {
        Request::Hash { alg, .. } => test_of(Service::Hash, Some(alg)),
        Request::Mac { alg, .. } => test_of(Service::Mac, Some(alg)),
        Request::MacVerify { alg, .. } => test_of(Service::MacVerify, Some(alg)),
        Request::Seal { .. } => test_of(Service::Seal, None),
        Request::SealIv { .. } => test_of(Service::SealIv, None),
        Request::Open { .. } => test_of(Service::Open, None),
        Request::Wrap { .. } => test_of(Service::Wrap, None),
        Request::Unwrap { .. } => test_of(Service::Unwrap, None),
        Request::WrapPad { .. } => test_of(Service::WrapPad, None),
        Request::UnwrapPad { .. } => test_of(Service::UnwrapPad, None),
        Request::Derive { .. } => test_of(Service::Derive, None),
        Request::Random { .. } => test_of(Service::Random, None),
        Request::Generate { .. } => test_of(Service::Generate, None),
        Request::Reseed { .. } => test_of(Service::Reseed, None),
        Request::PowerOn { .. }
        | Request::TestStep
        | Request::RequestTests
        | Request::ShowStatus
        | Request::ShowVersion
        | Request::SelectRole { .. }
        | Request::Reset
        | Request::EntryBegin { .. }
        | Request::EntryBytes { .. }
        | Request::EntryCommit { .. }
        | Request::EntryAbort
        | Request::Zeroise { .. }
        | Request::ZeroiseTree { .. }
        | Request::ZeroiseAll
        | Request::ShowSlot { .. } => None,
    };
    Test::new(number?)
}

/// It is due at the first use: where it isn't among those that passed.
pub fn due_at_first_use(tests_passed: Tested, test: Option<Test>) -> Option<Test>
    ensures { result ≡ due_at_first_use tests_passed test }
{
    let test = test?;
    if tests_passed.has(test) {
        None
    } else {
        Some(test)
    }
}
