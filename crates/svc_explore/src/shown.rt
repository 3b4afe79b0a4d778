// A history that shows an observation.

ghost use Rattle.std.specs.Prelude.{IfOk};
ghost use Rattle.svc_explore.specs.Found.{IsShown};
ghost use Rattle.svc_explore.specs.Witnesses.{IsWitness};

use crate::found::Seen;
use crate::moves::{keeps, make_move};
use crate::search::replay;
use std::alloc::{AllocError, Global};
use svc_base::Config;
use svc_history::Recorder;
use svc_image::Image;

/// The history of an observation's schedule, which shows it, by bursts of at most so many turns.
///
/// Errors: [`AllocError`], if memory runs out.
pub fn witness(
    alloc: Global,
    image: &Image,
    config: Config,
    burst: u32,
    seen: &Seen,
) -> Result<Recorder, AllocError>
    requires shown { IsShown image.now config burst seen.now }
    ensures { IfOk result (λ r. IsWitness image.now config burst seen.now.what r.entries) }
{
    let _start = image.start();
    let mut recorder = replay(alloc, image, config, seen.path.as_slice(), burst)?.unwrap();
    keeps(&recorder);
    let _made = make_move(&mut recorder, seen.last, burst);
    let _legal = recorder.entries();
    Ok(recorder)
}
