// Laws of lines, each the contract of a function without a body.
ghost use Rattle.operator_text.specs.Spelling.{SpellsOneCommand, CommentsSpellNone};

/// A line spells at most one command.
pub fn lines_spell_one_command()
    ensures { SpellsOneCommand }
{}

/// No comment spells a command.
pub fn comments_spell_none()
    ensures { CommentsSpellNone }
{}
