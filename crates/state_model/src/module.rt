// The module: private fields, and one public call for a command.
ghost use Rattle.std.specs.Prelude.{◌≡◌, ◌≢◌, ◌<◌, ◌^◌, ◌≤◌, [], ℕ, true, false, IfOk, IsTrue, List, Some, None, if◌then◌else◌};
ghost use Rattle.service_table.specs.Services.{is_permitted, is_cryptographic};
ghost use Rattle.service_table.specs.Numbers.{service_numbered};
ghost use Rattle.service_table.specs.Failures.{failure_code};
ghost use Rattle.service_table.specs.declared.failure.Failure.TheVariants as failures;
ghost use Rattle.outside.specs.declared.traits.Sample.{Sample};
ghost use Rattle.outside.specs.Explained.{Explained};
ghost use Rattle.outside.specs.Faults.{FaultCounted};
ghost use Rattle.module_frames.specs.Requests.{CryptographicRequest, Cryptographic, TestStep, request_value, service_for, cryptographic_service_for, IsInRange, IsCryptographicInRange};
ghost use Rattle.module_frames.specs.PublicState.{status_block, sequence_block, no_block};
ghost use Rattle.module_frames.specs.PublicEffects.{is_period_over, sent_to_tests};
ghost use Rattle.module_frames.specs.LawfulSteps.{IsLawfulStep};
ghost use Rattle.module_frames.specs.Replies.{frame_of};
ghost use Rattle.module_frames.specs.ReplyFrames.{head_of};
ghost use Rattle.bits_core.specs.ByteList.{IsBytes};
ghost use Rattle.bits_core.specs.Parameters.{length_fits};
ghost use Rattle.bits_core.specs.declared.limits.TheConstants.{LARGEST_PAYLOAD};
ghost use Rattle.bits_core.specs.OutboxContents.{holding};
ghost use Rattle.engine_core.specs.Calls.{IsStandard};
ghost use Rattle.crypto_services.specs.AtSlots.{slot_at};
ghost use Rattle.state_model.specs.MachineState.{MachineState, initial_state, state_of};
ghost use Rattle.state_model.specs.Management.{power_on, request_tests, test_step, select_role, reset, entry_begin, entry_bytes, entry_commit, entry_over, zeroise, zeroise_tree, zeroise_all};
ghost use Rattle.state_model.specs.Cryptographic.{cryptographic_step, failed_by};
ghost use Rattle.state_model.specs.Step.{step, dispatch, perform, indicated, request_at, is_in_order, number_taken};
ghost use Rattle.state_model.specs.SelfTesting.{stepped_with};
ghost use Rattle.state_model.specs.SlotBlock.{header_block, slot_block};
ghost use Rattle.state_model.specs.Permission.{IsPermittedIn};
ghost use Rattle.state_model.specs.Represents.{Represents, IsRepresented, IsServiceResult, Replies};
ghost use Rattle.state_model.specs.Meaning.{AnswersByTheStandards, held_in};
ghost use Rattle.state_model.specs.Residue.{IsClean};
ghost use Rattle.state_model.specs.Closing.{IsShut};

mod copies;

use crate::commit::commit;
use crate::cryptographic::{note_link, perform};
use crate::entry::{Entry, Target};
use crate::self_testing::{due_at_first_use, run_step_test, run_test, seed_when_due, test_for};
use bits_core::{Header, Outbox, SlotId};
use crypto_services::{Outcome, Parts};
use engine_core::Engine;
use module_frames::{Command, PublicState, Reply, Request, read_request};
use noise_health::Health;
use outside::Noise;
use self_tests::Tested;
use service_table::{Failure, Service, State, Status, is_cryptographic, permitted, service_of};
use std::alloc::{AllocError, Global};
use std::marker::Model;

/// A cryptographic module over an engine. What it keeps is behind the boundary: contracts see it by its model. It can't be let go, but only
/// closed, and so not before it was shut.
pub struct Module<E: Engine> {
    public: PublicState,
    tests_passed: Tested,
    parts: Parts<E>,
    entry: Entry,
    image: Vec<u8>,
    digest: [u8; 32],
}

impl<E: Engine> Model for Module<E> {
    ghost use Rattle.state_model.specs.ModuleView.{ModuleView};

    ghost Value = { ModuleView E };

    ghost use Rattle.state_model.specs.ModuleInvariant.{view_of, IsModuleInvariant};

    ghost view = { view_of };

    ghost invariant = { IsModuleInvariant };
}

// Name and version, as ShowVersion tells them.
const VERSION: [u8; 12] = *b"SYMMOD 01.00";

// The status block of a full slot.
fn header_block(length: usize, header: &Header) -> [u8; 12]
    requires { length ≤ 64 }
    ensures { result ≡ header_block length header.now }
{
    let uses = header.uses.to_be_bytes();
    [
        1,
        header.kind.number(),
        header.domain.number(),
        u8::from(header.export),
        length as u8,
        0,
        0,
        0,
        uses[0],
        uses[1],
        uses[2],
        uses[3],
    ]
}

// Does nothing: that these are bytes is known where a slice is a parameter.
fn known_bytes(bytes: &[u8])
    ensures { IsBytes bytes.now }
{
    let _ = bytes;
}

// The outcome of a command that did no cryptographic service.
fn management_outcome(status: Status) -> Outcome
    ensures { result ≡ record { status = status; failure = None; approved = false } }
{
    Outcome {
        status,
        failure: None,
        approved: false,
    }
}

// The public state after a test of TestStep, and the status.
fn after_test(public: PublicState, refused: Option<Status>) -> (PublicState, Status)
    ensures { result ≡ stepped_with public refused }
{
    match refused {
        None => (public.test_done(), Status::Ok),
        Some(status) => (public, status),
    }
}

// The public state where something failed in a service, or nothing did.
fn after_failure(public: PublicState, failure: Option<Failure>) -> PublicState
    ensures { result ≡ failed_by failure public }
{
    match failure {
        None => public,
        Some(failure) => public.has_failed(failure),
    }
}

// The public state and the tests that passed, after a cryptographic service: where the period is over, tests are due.
fn settled(public: PublicState, tests_passed: Tested) -> (PublicState, Tested)
    ensures { result ≡ (if is_period_over public then (sent_to_tests public, 0) else (public, tests_passed)) }
{
    if public.is_period_over() {
        (public.sent_to_tests(), Tested::empty())
    } else {
        (public, tests_passed)
    }
}

impl<E: Engine> Module<E> {
    /// A module that isn't powered, with sixteen empty slots. The image is the one that its self-tests check, and the digest is the
    /// image's HMAC-SHA-256 under the image key. Where no memory is found, engine and image are dropped.
    pub fn open(
        alloc: Global,
        engine: E,
        image: Vec<u8>,
        digest: [u8; 32],
    ) -> Result<Module<E>, AllocError>
        ensures represents { IfOk result (λ opened. Represents opened (initial_state engine image.items digest)) }
        ensures shut { IfOk result IsShut }
        ensures clean { IfOk result IsClean }
    {
        let parts = Parts::new(alloc, engine)?;
        Ok(Module {
            public: PublicState::unpowered(),
            tests_passed: Tested::empty(),
            parts,
            entry: Entry::empty(),
            image,
            digest,
        })
    }

    /// Empties the module, whatever it held: it is as `open` makes it of its engine, its image and its digest. It isn't powered, all slots and
    /// rows are empty, nothing is being entered, the generator has no seed, no test or sample counts, and the sequence number 1 is expected.
    pub fn shut(&mut self)
        ensures represents { Represents self.new (initial_state self.old.engine self.old.image self.old.digest) }
        ensures shut { IsShut self.new }
        ensures clean { IsClean self.new }
    {
        // Opened, so that the module's rules are known of what it finds.
        let _ = &self.public;
        self.reset();
        self.public = PublicState::unpowered();
    }

    /// Gives the module's memory back. The module is as `shut` leaves it, and `open` too.
    pub fn close(self)
        requires { IsShut self }
    {
        let Module {
            public: _,
            tests_passed: _,
            parts: _,
            entry: _,
            image: _,
            digest: _,
        } = self;
    }

    /// The state of the module.
    pub fn state(&self) -> State
        ensures state { result ≡ self.now.public.state }
        ensures represented { IsRepresented self.now }
    {
        self.public.state
    }

    // PowerOn.
    fn power_on(&mut self, period: u32)
        requires off { self.old.public.state ≡ State.Off }
        requires period { period ≤ 1000000 }
        ensures { (s : MachineState E) → Represents self.old s → Represents self.new (power_on s period) }
    {
        self.public = self.public.powered_on(period);
    }

    // RequestTests.
    fn request_tests(&mut self)
        requires { is_permitted Service.RequestTests self.old.public.state ≡ true }
        ensures { (s : MachineState E) → Represents self.old s → Represents self.new (request_tests s) }
    {
        self.public = self.public.tests_requested();
        self.tests_passed = Tested::empty();
    }

    // TestStep: the test that is due is made, and after the last one the generator is seeded.
    fn test_step<N: Noise>(&mut self, noise: &mut N) -> Status
        requires { self.old.public.state ≡ State.SelfTest }
        ensures answer { Explained (N.left noise.old) (N.left noise.new) (λ events left. (s : MachineState E) → Represents self.old s →
            let after = test_step E.calls s events in IsServiceResult after self.new result no_block [] × (after.left ≡ left)) }
        ensures noise_failed { result ≡ Status.NoiseFault → self.new.public.error_code ≡ failure_code failures.NoiseFailed → FaultCounted (N.faults noise.old) (N.faults noise.new) }
    {
        let tests_passed = self.tests_passed;
        let judged = run_step_test(
            &mut self.parts.engine,
            self.public,
            tests_passed,
            &self.image,
            &self.digest,
        );
        let seeded = seed_when_due(&mut self.parts, noise, judged);
        let (public, status) = after_test(seeded.public, seeded.refused);
        self.public = public;
        self.tests_passed = seeded.tests_passed;
        status
    }

    // SelectRole.
    fn select_role(&mut self, role: u8)
        requires { is_permitted Service.SelectRole self.old.public.state ≡ true }
        ensures { (s : MachineState E) → Represents self.old s → Represents self.new (select_role s role) }
    {
        self.public = self.public.role_selected(role);
    }

    // Reset: all slots and rows are empty, nothing is entered, the generator has no seed, and no test or sample counts any more.
    fn reset(&mut self)
        ensures { (s : MachineState E) → Represents self.old s → Represents self.new (reset s) }
    {
        self.public = self.public.was_reset();
        self.tests_passed = Tested::empty();
        self.parts.vault.zeroise_all();
        self.parts.drbg.wipe();
        self.parts.health = Health::new();
        self.entry.clear();
    }

    // EntryBegin: a parameter is entered for this target.
    fn entry_begin(&mut self, target: &Target)
        requires officer { self.old.public.state ≡ State.Officer }
        requires slot { target.now.slot < 16 }
        requires uses { 1 ≤ target.now.header.uses }
        requires fits { IsTrue (length_fits target.now.header.kind target.now.header.domain target.now.length) }
        ensures { (s : MachineState E) → Represents self.old s → Represents self.new (entry_begin s target.now) }
    {
        // That it is a number of 32 bits is known where it is read.
        let _uses = target.header.uses;
        self.public = self.public.entry_begun();
        self.entry.begin(*target);
    }

    // EntryBytes: the piece is appended, unless it would pass the parameter's length.
    fn entry_bytes(&mut self, piece: &[u8]) -> Status
        requires { self.old.public.state ≡ State.Entry }
        ensures { (s : MachineState E) (events : List Sample) → Represents self.old s →
            IsServiceResult (entry_bytes s piece.now events) self.new result no_block [] }
    {
        if piece.len() > self.entry.length() - self.entry.filled {
            return Status::BadLength;
        }
        self.entry.append(piece);
        Status::Ok
    }

    // EntryCommit: the slot holds what was entered, where the commit isn't refused; the entry is over.
    fn entry_commit(&mut self, check: &[u8]) -> Status
        requires { self.old.public.state ≡ State.Entry }
        ensures { (s : MachineState E) (events : List Sample) → Represents self.old s →
            IsServiceResult (entry_commit E.calls s check.now events) self.new result no_block [] }
    {
        let status = match &self.entry.target {
            Some(target) => {
                let bytes = &self.entry.bytes[..self.entry.filled];
                commit(&mut self.parts, target, bytes, check)
            }
            None => Status::BadLength,
        };
        self.public = self.public.entry_ended();
        self.entry.clear();
        status
    }

    // EntryAbort: the entry is over.
    fn entry_abort(&mut self)
        requires { self.old.public.state ≡ State.Entry }
        ensures { (s : MachineState E) → Represents self.old s → Represents self.new (entry_over s) }
    {
        self.public = self.public.entry_ended();
        self.entry.clear();
    }

    // Zeroise: the slot and its row are empty.
    fn zeroise(&mut self, slot: SlotId)
        ensures { (s : MachineState E) → Represents self.old s → Represents self.new (zeroise s slot) }
    {
        self.parts.vault.zeroise(slot);
    }

    // ZeroiseTree: the slot, each slot whose row holds it, and the rows of all these are empty.
    fn zeroise_tree(&mut self, slot: SlotId)
        ensures { (s : MachineState E) → Represents self.old s → Represents self.new (zeroise_tree s slot) }
    {
        self.parts.vault.zeroise_tree(slot);
    }

    // ZeroiseAll: all slots and rows are empty.
    fn zeroise_all(&mut self)
        ensures { (s : MachineState E) → Represents self.old s → Represents self.new (zeroise_all s) }
    {
        self.parts.vault.zeroise_all();
    }

    // ShowSlot: what the slot holds, but for its bytes.
    fn show_slot(&self, slot: SlotId, block: &mut [u8; 12])
        requires { block.old ≡ no_block }
        ensures { (s : MachineState E) → Represents self.now s → block.new ≡ slot_block (slot_at s.slots slot) }
    {
        let shown = self.parts.vault.show(slot);
        if let Some(header) = shown.header {
            *block = header_block(shown.length, &header);
        }
    }

    // ShowStatus: the public state, and the tests that passed.
    fn show_status(&self, block: &mut [u8; 12])
        ensures { (s : MachineState E) → Represents self.now s → block.new ≡ status_block s.shared.public s.shared.tests_passed }
    {
        *block = self.public.status_block(self.tests_passed.bits());
    }

    // Does a cryptographic service: the use is counted, tested where it is the first, and linked to its key before the draw and the
    // slots; and the period may be over after that.
    fn run_cryptographic_service<N: Noise>(
        &mut self,
        noise: &mut N,
        service: Service,
        request: &Request<'_>,
        payload: &mut Outbox,
    ) -> Outcome
        requires payload { payload.old ≡ holding [] LARGEST_PAYLOAD }
        requires cryptographic { (what : CryptographicRequest) × (request_value request.now ≡ Cryptographic what) × IsCryptographicInRange what × (cryptographic_service_for what ≡ service) }
        requires permitted { is_permitted Service.Hash self.old.public.state ≡ true }
        ensures answer { Explained (N.left noise.old) (N.left noise.new) (λ events left. (s : MachineState E) → Represents self.old s → (what : CryptographicRequest) →
            request_value request.now ≡ Cryptographic what →
            let after = cryptographic_step E.calls s events what in IsServiceResult after self.new result.status no_block payload.new.bytes × (after.left ≡ left)) }
        ensures noise_failed { result.status ≡ Status.NoiseFault → self.new.public.error_code ≡ failure_code failures.NoiseFailed → FaultCounted (N.faults noise.old) (N.faults noise.new) }
        ensures approved { result.approved ≡ indicated (Some (request_value request.now)) result.status self.new.vault.slots }
        ensures room { payload.new.room ≡ LARGEST_PAYLOAD }
    {
        let tests_passed = self.tests_passed;
        let counted = self.public.use_counted();
        let due = due_at_first_use(tests_passed, test_for(request));
        let judged = run_test(&mut self.parts.engine, counted, tests_passed, due);
        if let Some(status) = judged.refused {
            self.public = judged.public;
            return management_outcome(status);
        }
        note_link(&mut self.parts.vault, request);
        let outcome = perform(&mut self.parts, noise, service, request, payload);
        let performed = after_failure(judged.public, outcome.failure);
        let (public, tests_passed) = settled(performed, judged.tests_passed);
        self.public = public;
        self.tests_passed = tests_passed;
        outcome
    }

    // Does any service that is no cryptographic one, but TestStep, and fills the block.
    fn run_management_service(&mut self, request: Request<'_>, block: &mut [u8; 12]) -> Status
        requires block { block.old ≡ no_block }
        requires in_range { IsInRange (request_value request) }
        requires other { is_cryptographic (service_for (request_value request)) ≡ false }
        requires no_noise { request_value request ≢ TestStep }
        requires permitted { IsPermittedIn (request_value request) self.old.public.state }
        ensures answer { (s : MachineState E) (events : List Sample) → Represents self.old s →
            IsServiceResult (perform E.calls s events (request_value request.entry)) self.new result block.new [] }
    {
        match request {
            Request::PowerOn { period } => self.power_on(period),
            Request::RequestTests => self.request_tests(),
            Request::ShowStatus => self.show_status(block),
            Request::ShowVersion => *block = VERSION,
            Request::SelectRole { role } => self.select_role(role),
            Request::Reset => self.reset(),
            Request::EntryBegin {
                slot,
                header,
                length,
            } => self.entry_begin(&Target {
                slot,
                header,
                length,
            }),
            Request::EntryBytes { piece } => return self.entry_bytes(piece),
            Request::EntryCommit { check } => return self.entry_commit(check),
            Request::EntryAbort => self.entry_abort(),
            Request::Zeroise { slot } => self.zeroise(slot),
            Request::ZeroiseTree { slot } => self.zeroise_tree(slot),
            Request::ZeroiseAll => self.zeroise_all(),
            Request::ShowSlot { slot } => self.show_slot(slot, block),
            Request::TestStep
            | Request::Hash { .. }
            | Request::Mac { .. }
            | Request::MacVerify { .. }
            | Request::Seal { .. }
            | Request::SealIv { .. }
            | Request::Open { .. }
            | Request::Wrap { .. }
            | Request::Unwrap { .. }
            | Request::WrapPad { .. }
            | Request::UnwrapPad { .. }
            | Request::Derive { .. }
            | Request::Random { .. }
            | Request::Generate { .. }
            | Request::Reseed { .. } => { unreachable!() }
        }
        Status::Ok
    }

    // Whether a command with this sequence number, or with none, comes in its order. The number of one that does is taken.
    fn take_number(&mut self, sequence: Option<u32>) -> bool
        ensures in_order { result ≡ is_in_order sequence self.old.public.next_sequence }
        ensures taken { result ≡ true → (s : MachineState E) → Represents self.old s → Represents self.new (number_taken s sequence) }
        ensures stays { result ≡ false → self.new ≡ self.old }
    {
        let Some(number) = sequence else {
            return true;
        };
        if number != self.public.next_sequence {
            return false;
        }
        self.public = self.public.sequence_taken();
        true
    }

    // Refuses a command that comes out of its order, and dispatches any other.
    fn step<N: Noise>(
        &mut self,
        command: &Command,
        noise: &mut N,
        block: &mut [u8; 12],
        payload: &mut Outbox,
    ) -> Outcome
        requires block { block.old ≡ no_block }
        requires payload { payload.old ≡ holding [] LARGEST_PAYLOAD }
        ensures answer { Explained (N.left noise.old) (N.left noise.new) (λ events left. (s : MachineState E) → Represents self.old s →
            let after = step E.calls s events command.now in
            IsServiceResult after self.new result.status block.new payload.new.bytes × (after.left ≡ left)) }
        ensures noise_failed { result.status ≡ Status.NoiseFault → self.new.public.error_code ≡ failure_code failures.NoiseFailed → FaultCounted (N.faults noise.old) (N.faults noise.new) }
        ensures approved { result.approved ≡ indicated (request_at (service_numbered command.now.service) command.now.body) result.status self.new.vault.slots }
        ensures room { payload.new.room ≡ LARGEST_PAYLOAD }
    {
        if !self.take_number(command.sequence()) {
            *block = self.public.sequence_block();
            return management_outcome(Status::OutOfOrder);
        }
        self.dispatch(command, noise, block, payload)
    }

    // Walks the order of refusals, and does what is asked where the command passes.
    fn dispatch<N: Noise>(
        &mut self,
        command: &Command,
        noise: &mut N,
        block: &mut [u8; 12],
        payload: &mut Outbox,
    ) -> Outcome
        requires block { block.old ≡ no_block }
        requires payload { payload.old ≡ holding [] LARGEST_PAYLOAD }
        ensures answer { Explained (N.left noise.old) (N.left noise.new) (λ events left. (s : MachineState E) → Represents self.old s →
            let after = dispatch E.calls s events (service_numbered command.now.service) command.now.body in
            IsServiceResult after self.new result.status block.new payload.new.bytes × (after.left ≡ left)) }
        ensures noise_failed { result.status ≡ Status.NoiseFault → self.new.public.error_code ≡ failure_code failures.NoiseFailed → FaultCounted (N.faults noise.old) (N.faults noise.new) }
        ensures approved { result.approved ≡ indicated (request_at (service_numbered command.now.service) command.now.body) result.status self.new.vault.slots }
        ensures room { payload.new.room ≡ LARGEST_PAYLOAD }
    {
        let Some(service) = service_of(command.service()) else {
            return management_outcome(Status::UnknownService);
        };
        if !permitted(service, self.public.state) {
            return management_outcome(Status::NotInState);
        }
        let Some(request) = read_request(service, command.body()) else {
            return management_outcome(Status::BadBody);
        };
        if is_cryptographic(service) {
            return self.run_cryptographic_service(noise, service, &request, payload);
        }
        if service == Service::TestStep {
            return management_outcome(self.test_step(noise));
        }
        management_outcome(self.run_management_service(request, block))
    }

    /// One step of the machine: does what the command asks where the order of refusals lets it pass, with the noise that the source
    /// gives, and fills the reply. It takes no memory.
    pub fn command<N: Noise>(&mut self, command: &Command, noise: &mut N, reply: &mut Reply)
        // Where the noise tells its events, module, reply and the events left are those of the step; of any noise there are events
        // that explain them.
        ensures step { Explained (N.left noise.old) (N.left noise.new) (λ events left. (s : MachineState E) → Represents self.old s →
            let after = step E.calls s events command.now in Replies command.now after self.new reply.new × (after.left ≡ left)) }
        // That the noise failed is told only where its count of faults rose.
        ensures noise_failed { reply.new.status ≡ Status.NoiseFault → reply.new.code ≡ failure_code failures.NoiseFailed → FaultCounted (N.faults noise.old) (N.faults noise.new) }
        ensures represented { IsRepresented self.new }
        // Memory that holds nothing is zero.
        ensures clean { IsClean self.new }
        // With a standard engine, what a cryptographic service gives or fills a slot with is the standard's value, with any noise.
        ensures meaning { IsStandard E.calls → AnswersByTheStandards command.now (held_in self.old) (held_in self.new)
            (record { status = reply.new.status; payload = reply.new.payload.bytes }) }
        // The public state before and after it keep, with the head of the reply, the rules of a lawful step, with any noise.
        ensures lawful { IsLawfulStep self.old.public command.now (head_of (frame_of reply.new)) self.new.public }
    {
        // Opened, so that the module's rules are known of what it finds, and so is that the body is of bytes.
        let _ = &self.public;
        known_bytes(command.body());
        reply.clear();
        let outcome = self.step(command, noise, &mut reply.block, &mut reply.payload);
        let number = command.sequence();
        reply.service = command.service();
        reply.sequence = number;
        reply.status = outcome.status;
        reply.state = self.public.state;
        reply.approved = outcome.approved;
        reply.code = self.public.error_code;
    }
}

#[cfg(test)]
mod tests {
    use super::*;
    use bits_core::{Enabled, Port};
    use engine_core::Shipped;
    use outside::MemNoise;
    use std::test::Fail;
    use vault_backup::BACKUP_MOST;

    #[test]
    fn opens_answers_and_closes(rt: HostRuntime) -> Result<(), Fail> {
        let mut noise = MemNoise::new(Vec::new(rt.alloc()));
        let mut command = Command::new(rt.alloc())?;
        let mut reply = Reply::new(rt.alloc())?;
        let mut module = Module::open(rt.alloc(), Shipped::new(), Vec::new(rt.alloc()), [0; 32])?;
        let opened = module.state();
        command.set(0x01, &[0, 0, 0, 3]);
        module.command(&command, &mut noise, &mut reply);
        let powered = module.state();
        command.set(0x04, &[]);
        module.command(&command, &mut noise, &mut reply);
        module.shut();
        let shut = module.state();
        module.close();
        assert_eq!(rt;
            [opened, powered, shut],
            [State::Off, State::Init, State::Off]
        );
        assert!(rt; reply.status == Status::Ok);
        assert_eq!(rt; reply.block, [0, 0, 0, 0, 0, 0, 0, 3, 0, 0, 0, 0]);
        Ok(())
    }

    #[test]
    fn writes_no_backup_without_power(rt: HostRuntime) -> Result<(), Fail> {
        let mut out = Outbox::new(rt.alloc(), BACKUP_MOST)?;
        Port::<Enabled>::over(&mut out).put(&[1, 2, 3]);
        let module = Module::open(rt.alloc(), Shipped::new(), Vec::new(rt.alloc()), [0; 32])?;
        let written = module.backup(&[1; 32], &[2; 32], &mut out);
        module.close();
        assert!(rt; !written);
        assert!(rt; out.bytes().is_empty());
        Ok(())
    }
}
