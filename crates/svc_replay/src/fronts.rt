//! The entries of a trace that a request looks at.

ghost use Rattle.std.specs.Prelude.{◌≡◌, ◌⊎◌, ◌≤◌, IfOk, IfErr, length};
ghost use Rattle.svc_base.specs.declared.config.TheConstants.{MAX_EVENTS};
ghost use Rattle.svc_request.specs.Faults.{TellsOfTrace};
ghost use Rattle.svc_answer.specs.Fronts.{IsPastTheEnd, IsSoundFront, front};

use crate::check::replay;
use std::alloc::Global;
use svc_base::Config;
use svc_history::{Entry, Recorder};
use svc_image::Image;
use svc_request::Fault;

/// The first entries, this many or all, as far as there are any.
pub fn first(entries: &[Entry], most: Option<u64>) -> &[Entry]
    ensures { result.now ≡ front most entries.now }
{
    let total = entries.len() as u64;
    let count = most.unwrap_or(total).min(total) as usize;
    &entries[..count]
}

/// Replays the first entries, this many or all, and gives the recorder to which they lead. Those after them may be
/// unsound.
///
/// Errors: the first fault of these entries; [`Fault::File`] if they are sound, but fewer than are asked for.
pub fn replay_first(
    alloc: Global,
    image: Image,
    config: Config,
    entries: &[Entry],
    most: Option<u64>,
) -> Result<Recorder, Fault>
    ensures image { IfOk result (λ r. r.machine.image ≡ image) }
    ensures config { IfOk result (λ r. r.machine.config ≡ config) }
    ensures entries { IfOk result (λ r. r.entries ≡ front most entries.now) }
    ensures sound { IfOk result (λ _. IsSoundFront most image config entries.now) }
    ensures few { IfOk result (λ r. length r.entries ≤ MAX_EVENTS) }
    ensures fault { IfErr result (λ fault. TellsOfTrace image config (front most entries.now) fault
        ⊎ IsPastTheEnd most image config entries.now fault) }
{
    let recorder = replay(alloc, image, config, first(entries, most))?;
    match most {
        Some(most) if most > entries.len() as u64 => Err(Fault::File),
        _ => Ok(recorder),
    }
}
