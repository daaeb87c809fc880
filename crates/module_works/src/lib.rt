//! Works on a module: it is opened, does what it is asked over a source, a sink and noise, and is shut and closed.
#![tactic(auto)]

mod backup_work;
mod frames_work;
mod lines_work;
mod restore_work;
mod session_work;
mod working;

pub use working::do_work;
