// Lines of a stream, and what each of them is.
ghost use Rattle.std.specs.Prelude.{◌≡◌};
ghost use Rattle.operator_text.specs.Spelling.{cleared_command};
ghost use Rattle.line_serving.specs.LineTaking.{IsUnfinished, TakesLine};

use line_input::{LineFed, Lines};
use module_frames::Command;
use operator_text::{LineRead, read_line};

/// What became of a piece.
#[derive(Clone, Copy, Debug, PartialEq, Eq)]
pub enum Taken {
    /// All of the piece was taken, and no line is whole.
    More,
    /// So many bytes of the piece were taken, and the line that stands spells a command.
    Command(usize),
    /// So many bytes of the piece were taken, and were the end of a comment.
    Comment(usize),
    /// The line is bad, or has more than 131,400 bytes.
    Bad,
}

/// Takes bytes from the front of a piece, up to the end of a line, and reads that line. Only one that spells a command is held then, with
/// its command; no command is held else, nor was.
pub fn take_line(lines: &mut Lines, command: &mut Command, piece: &[u8]) -> Taken
    requires unfinished { IsUnfinished lines.old }
    requires no_command { command.old ≡ cleared_command }
    ensures { TakesLine lines.old piece.now result lines.new command.new }
{
    match lines.feed(piece) {
        LineFed::More => Taken::More,
        LineFed::TooLong => Taken::Bad,
        LineFed::Whole(count) => match read_line(lines.line(), command) {
            LineRead::Command => Taken::Command(count),
            LineRead::Comment => {
                lines.clear();
                Taken::Comment(count)
            }
            LineRead::Bad => {
                lines.clear();
                Taken::Bad
            }
        },
    }
}
