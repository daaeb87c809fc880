// The commands that lead from a module without power to the officer's role.
ghost use Rattle.std.specs.Prelude.{◌≡◌, ◌≤◌, [], ◌∷◌, length};
ghost use Rattle.bits_core.specs.declared.limits.TheConstants.{LARGEST_BODY};
ghost use Rattle.outside.specs.Explained.{Explained};
ghost use Rattle.session_commands.specs.SessionCommands.{command_of};
ghost use Rattle.backup_runs.specs.Officer.{officer_commands, StepsThrough};

use engine_core::Engine;
use module_frames::{Command, Reply};
use outside::Noise;
use service_table::Service;
use state_model::Module;

// Does one command, whatever it is answered.
fn give<E: Engine, N: Noise>(
    module: &mut Module<E>,
    noise: &mut N,
    command: &mut Command,
    reply: &mut Reply,
    service: Service,
    body: &[u8],
)
    requires { length body.now ≤ LARGEST_BODY }
    ensures { Explained (N.left noise.old) (N.left noise.new) (StepsThrough E.calls (command_of service body.now ∷ []) «module».old «module».new) }
{
    command.set(service.number(), body);
    module.command(command, noise, reply);
}

/// Gives power with period 0, has the tests made, and selects the officer's role, whatever each command is answered.
pub fn become_officer<E: Engine, N: Noise>(
    module: &mut Module<E>,
    noise: &mut N,
    command: &mut Command,
    reply: &mut Reply,
)
    ensures { Explained (N.left noise.old) (N.left noise.new) (StepsThrough E.calls officer_commands «module».old «module».new) }
{
    give(module, noise, command, reply, Service::PowerOn, &[0; 4]);
    give(module, noise, command, reply, Service::RequestTests, &[]);
    give(module, noise, command, reply, Service::TestStep, &[]);
    give(module, noise, command, reply, Service::TestStep, &[]);
    give(module, noise, command, reply, Service::TestStep, &[]);
    give(module, noise, command, reply, Service::SelectRole, &[1]);
}
