//! The units' bursts, and the places where they are made.

ghost use Rattle.std.specs.Prelude.{◌≡◌, IsTrue, IfOk, IfErr};
ghost use Rattle.svc_core_laws.specs.Bursts.{IsAdvance};
ghost use Rattle.svc_schedule.specs.Bursts.{AreReady};
ghost use Rattle.svc_schedule.specs.Moves.{IsBurstOf};

use crate::step::EVERY_UNIT;
use std::alloc::Global;
use svc_base::OpenError;
use svc_core::{Burst, Core, Lease};
use svc_image::Image;

/// A burst for each unit that a machine may have, by number. At first each is one from where the program starts.
///
/// Errors: [`OpenError::Memory`].
pub(crate) fn first_bursts(alloc: Global, image: &Image, most: u32) -> Result<Vec<Burst>, OpenError>
    ensures ready { IfOk result (λ bursts. AreReady image.now most bursts.items) }
    ensures err { IfErr result (λ e. e ≡ OpenError.Memory) }
{
    let core = Core::start(image, image.start());
    let mut bursts = Vec::new(alloc);
    for unit in &EVERY_UNIT {
        let lease = Lease::new(*unit, 0, core);
        if bursts.push(lease.advance(image, most)).is_err() {
            return Err(OpenError::Memory);
        }
    }
    Ok(bursts)
}

/// Makes the burst of a lease in the place of another one. If that one starts at the same lease it is kept, being the
/// same. So a unit that waits because the line to replace has to stay takes its turns once.
pub(crate) fn make_burst(burst: &mut Burst, lease: &Lease, image: &Image, most: u32)
    requires { IsAdvance image.now most burst.old }
    ensures { IsBurstOf image.now most lease.now burst.new }
{
    if !starts_at(burst, lease) {
        burst.refill(lease, image, most);
    }
}

// Whether the burst starts at the lease.
fn starts_at(burst: &Burst, lease: &Lease) -> bool
    ensures unit { IsTrue result → burst.now.unit ≡ lease.now.unit }
    ensures epoch { IsTrue result → burst.now.epoch ≡ lease.now.epoch }
    ensures start { IsTrue result → burst.now.start ≡ lease.now.core }
{
    burst.unit().0 == lease.unit.0
        && burst.epoch() == lease.epoch
        && burst.start().is_same(&lease.core)
}
