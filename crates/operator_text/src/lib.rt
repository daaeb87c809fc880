//! What an operator types, and what is answered: which command a line spells, and beside it the crates of lines, of reply lines and of sessions.
#![tactic(auto)]

mod forms;
mod laws;
#[cfg(test)]
mod line_rows;
mod names;
mod pushing;
mod reading;
#[cfg(test)]
mod tests;
mod words;

pub use laws::{comments_spell_none, lines_spell_one_command};
pub use line_input::{LARGEST_LINE, LineFed, Lines};
pub use reading::{LineRead, read_line};
pub use reply_lines::write_line;
pub use session_commands::Session;
