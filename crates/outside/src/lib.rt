//! What the module meets outside: bytes that come, bytes that go, noise and files, each with its faults counted.
#![tactic(auto)]

#[cfg(test)]
mod adapter_tests;
mod disk_files;
#[cfg(test)]
mod disk_tests;
mod failure_plan;
mod file_noise;
mod files;
#[cfg(test)]
mod files_tests;
mod memory_files;
mod memory_noise;
mod memory_sink;
mod memory_source;
mod std_sink;
mod std_source;
#[cfg(test)]
mod tests;
mod traits;

pub use disk_files::DiskFiles;
pub use file_noise::FileNoise;
pub use files::{Files, LoadFault};
pub use memory_files::MemFiles;
pub use memory_noise::MemNoise;
pub use memory_sink::MemSink;
pub use memory_source::MemSource;
pub use std_sink::StdSink;
pub use std_source::StdSource;
pub use traits::{Failed, Noise, Sample, Sink, Source};
