// What the services work on.
ghost use Rattle.std.specs.Prelude.{◌≡◌, [], IfOk};
ghost use Rattle.drbg_core.specs.Generator.{empty};
ghost use Rattle.noise_health.specs.Counts.{Counts};
ghost use Rattle.ssp_slots.specs.Slots.{empty_vault, AreWellFormed};

use crate::Work;
use drbg_core::Drbg;
use engine_core::Engine;
use noise_health::Health;
use ssp_slots::Vault;
use std::alloc::{AllocError, Global};

/// What the services work on: an engine, the slots with its keys, the generator, the tests of its noise, and bytes to work in.
#[derive(Drop)]
pub struct Parts<E: Engine> {
    pub engine: E,
    pub vault: Vault,
    pub drbg: Drbg,
    pub health: Health,
    pub work: Work,
}

impl<E: Engine> Parts<E> {
    /// An engine beside sixteen empty slots, with a generator that has no seed and no sample of noise tested yet.
    pub fn new(alloc: Global, engine: E) -> Result<Parts<E>, AllocError>
        ensures engine { IfOk result (λ parts. parts.engine ≡ engine) }
        ensures empty { IfOk result (λ parts. parts.vault ≡ empty_vault) }
        ensures unseeded { IfOk result (λ parts. parts.drbg ≡ empty) }
        ensures no_sample { IfOk result (λ parts. Counts parts.health []) }
        ensures well_formed { IfOk result (λ parts. AreWellFormed parts.vault) }
    {
        let vault = Vault::new(alloc)?;
        let work = Work::new(alloc)?;
        Ok(Parts {
            engine,
            vault,
            drbg: Drbg::empty(),
            health: Health::new(),
            work,
        })
    }
}
