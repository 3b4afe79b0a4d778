// The versions of the image format.

ghost use Rattle.std.specs.Prelude.{◌≡◌, Option, Some, None, if◌then◌else◌};
ghost use Rattle.svc_image.specs.Version.{version_number, is_known, version_of};

/// The version of an image's file.
#[derive(Clone, Copy)]
pub enum Version {
    /// One limit of turns for all tasks, and no read-only words.
    One,
    /// A limit of turns for each entry, and a count of read-only words.
    Two,
}

impl Version {
    // The version that a number stands for.
    pub(crate) fn of(number: u32) -> Option<Version>
        ensures { result ≡ (if is_known number then Some (version_of number) else None) }
    {
        match number {
            1 => Some(Version::One),
            2 => Some(Version::Two),
            _ => None,
        }
    }

    /// The number that stands for it in a file: 1 or 2.
    pub fn number(self) -> u16
        ensures { result ≡ version_number self }
    {
        match self {
            Version::One => 1,
            Version::Two => 2,
        }
    }
}
