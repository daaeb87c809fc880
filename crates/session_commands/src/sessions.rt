// A session's commands, in their order.
ghost use Rattle.std.specs.Prelude.{◌≡◌};
ghost use Rattle.session_commands.specs.SessionCommands.{session_commands, GivesNext};

use crate::drawing::{FIRST_COMMANDS, begin, draw, next_number};
use module_frames::Command;
use std::marker::Model;

/// A session: a list of commands, made by a seed and a count. Contracts see the commands that are left.
#[derive(Drop)]
pub struct Session {
    begun: u8,
    number: u64,
    left: u32,
}

impl Model for Session {
    ghost use Rattle.std.specs.Prelude.{List};
    ghost use Rattle.module_frames.specs.CommandFrames.{CommandFrame};

    ghost Value = { List CommandFrame };

    ghost use Rattle.session_commands.specs.Sessions.{left_of, IsSession};

    ghost view = { left_of };

    ghost invariant = { IsSession };
}

impl Session {
    /// The session of the seed: eleven commands, and `count` that the numbers after the seed decide.
    pub fn new(seed: u64, count: u32) -> Session
        ensures { result ≡ session_commands seed count }
    {
        Session {
            begun: 0,
            number: seed,
            left: count,
        }
    }

    /// Makes it the next command. False exactly where none is left; the command is cleared then.
    pub fn next(&mut self, into: &mut Command) -> bool
        ensures { GivesNext self.old result into.new self.new }
    {
        if self.begun < FIRST_COMMANDS {
            begin(self.begun, into);
            self.begun += 1;
            return true;
        }
        if self.left == 0 {
            into.clear();
            return false;
        }
        self.number = next_number(self.number);
        self.left -= 1;
        draw((self.number >> 32) as u32, into);
        true
    }
}
