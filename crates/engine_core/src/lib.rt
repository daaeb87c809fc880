//! The engine: the cryptographic functions behind the services, as calls of a trait.
#![tactic(auto)]

mod engine;
mod faulty;
mod laws;
mod shipped;
mod standard;
#[cfg(test)]
mod tests;

pub use engine::Engine;
pub use faulty::Faulty;
pub use laws::{faulty_is_as_told, shipped_is_standard};
pub use shipped::Shipped;
