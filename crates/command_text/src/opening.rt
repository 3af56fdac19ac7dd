//! The world of a configuration.

ghost use Rattle.std.specs.Prelude.{◌≡◌, Some, None, IfErr, IfOk};
ghost use Rattle.flat_model.specs.Opening.{open_fault};
ghost use Rattle.world.specs.Follows.{opened};
ghost use Rattle.world.specs.Running.{HaveNumbersApart};

use cl_types::config::Config;
use cl_types::items::NoMemory;
use cl_types::open_fault::OpenFault;
use std::alloc::Global;
use world::World;

/// The world of a configuration, or why its node doesn't open.
pub fn open(alloc: Global, config: &Config) -> Result<Result<World, OpenFault>, NoMemory>
    requires { HaveNumbersApart config.now }
    ensures world { IfOk result (λ opening. IfOk opening (λ world.
        (world ≡ opened config.now) × (open_fault config.now.node ≡ None))) }
    ensures fault { IfOk result (λ opening. IfErr opening (λ fault.
        open_fault config.now.node ≡ Some fault)) }
{
    match World::create(alloc, config) {
        Ok(world) => Ok(Ok(world)),
        Err(OpenFault::NoMemory) => Err(NoMemory),
        Err(fault) => Ok(Err(fault)),
    }
}
