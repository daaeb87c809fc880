// Laws of lines and the commands that they make, each the contract of a function without a body.
ghost use Rattle.command_lines.specs.CommandLines.{CommandsInOneWay};

/// Bytes make commands in one way: two readings of them up to a line that isn't good have the same commands and the same bytes left.
pub fn lines_make_commands_in_one_way()
    ensures { CommandsInOneWay }
{}
