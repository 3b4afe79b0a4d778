//! Calls on images, and the plain runner.

ghost use Rattle.std.specs.Prelude.{◌≡◌, is_some};
ghost use Rattle.svc_library_calls.specs.Calls.{image_calls, is_one_of};

use crate::attempt::{Attempt, Refused, ready};
use std::alloc::Global;
use svc_core_laws::Ending;
use svc_image::{Image, ImageError, Version};
use svc_plain::{PlainError, run_tasks};
use svc_samples::{P, P2};

/// Makes the call of this name, if it is one of these.
pub fn attempt(alloc: Global, name: &str) -> Option<Attempt>
    ensures { is_some result ≡ is_one_of image_calls name.now }
{
    match name {
        "image_read" => Some(read(alloc)),
        "image_read_front" => Some(read_front(alloc)),
        "image_read_second" => Some(read_second(alloc)),
        "image_write" => Some(write(alloc)),
        "image_copy" => Some(copy(alloc)),
        "image_upgrade" => Some(upgrade(alloc)),
        "run_tasks" => Some(run_in_order(alloc)),
        _ => None,
    }
}

/// The image of two tasks.
pub fn sample(alloc: Global) -> Result<Image, Refused> {
    ready(Image::read(alloc, &P))
}

// The image is that of two tasks.
fn is_sample(image: &Image) -> bool {
    matches!(image.entries(), [0, 12])
        && matches!(image.data_words(), [0, 0])
        && matches!(image.fetch(16).word, Some(0x0002_A503))
}

/// The sample is read.
fn read(alloc: Global) -> Attempt {
    match Image::read(alloc, &P) {
        Ok(image) => Ok(is_sample(&image)),
        Err(ImageError::Memory) => Err(Refused::Told),
        Err(_) => Ok(false),
    }
}

/// All except the sample's last byte is read, which is too short.
fn read_front(alloc: Global) -> Attempt {
    Ok(matches!(Image::read(alloc, &P[..199]), Err(ImageError::Short)))
}

/// The sample of version 2 is read: its first data word is read-only, and its limits are 3 and 6 turns.
fn read_second(alloc: Global) -> Attempt {
    match Image::read(alloc, &P2) {
        Ok(image) => Ok(
            is_sample(&image)
                && image.read_only() == 1
                && image.limit_at(0) == Some(3)
                && image.limit_at(12) == Some(6),
        ),
        Err(ImageError::Memory) => Err(Refused::Told),
        Err(_) => Ok(false),
    }
}

/// The sample is written.
fn write(alloc: Global) -> Attempt {
    let image = sample(alloc)?;
    match image.write(alloc) {
        Ok(bytes) => Ok(bytes.as_slice() == P.as_slice()),
        Err(ImageError::Memory) => Err(Refused::Told),
        Err(_) => Ok(false),
    }
}

/// The sample is copied.
fn copy(alloc: Global) -> Attempt {
    let image = sample(alloc)?;
    match image.copy(alloc) {
        Ok(copied) => Ok(is_sample(&copied)),
        Err(ImageError::Memory) => Err(Refused::Told),
        Err(_) => Ok(false),
    }
}

/// The sample is made an image of version 2: no word is read-only, and each entry has the limit.
fn upgrade(alloc: Global) -> Attempt {
    let image = sample(alloc)?;
    match image.upgrade(alloc) {
        Ok(upgraded) => Ok(
            is_sample(&upgraded)
                && upgraded.version() == Version::Two
                && upgraded.read_only() == 0
                && upgraded.limit_at(0) == Some(100)
                && upgraded.limit_at(12) == Some(100),
        ),
        Err(ImageError::Memory) => Err(Refused::Told),
        Err(_) => Ok(false),
    }
}

/// Both of the sample's tasks are run in order.
fn run_in_order(alloc: Global) -> Attempt {
    let image = sample(alloc)?;
    match run_tasks(alloc, &image, 2) {
        Ok(outcome) => Ok(
            outcome.tasks == 2
                && outcome.output.as_slice() == [5].as_slice()
                && outcome.ending == Ending::Exit(5),
        ),
        Err(PlainError::Memory) => Err(Refused::Told),
    }
}
