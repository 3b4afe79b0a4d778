// What the format means, whatever the loader does.

ghost use Rattle.std.specs.Prelude.{◌≡◌, ℕ, ◌<◌, List, None, slice_index};
ghost use Rattle.svc_image.specs.Format.{fault, file_of};
ghost use Rattle.svc_image.specs.Image.{Image, IsImage};

/// A file has one meaning: an image's file has no fault and is no other image's, and bytes without fault
/// are the file of an image.
pub fn one_meaning()
    ensures sound { (img : Image) → IsImage img → fault (file_of img) ≡ None }
    ensures one { (i j : Image) → IsImage i → IsImage j → file_of i ≡ file_of j → i ≡ j }
    ensures whole { (bytes : List ℕ) → ((k : ℕ) → slice_index bytes k < 256) → fault bytes ≡ None
        → (img : Image) × IsImage img × (file_of img ≡ bytes) }
{}
