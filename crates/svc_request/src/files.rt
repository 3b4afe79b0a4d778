// The files that the program reads and writes.

ghost use Rattle.std.specs.Prelude.{◌≡◌, ℕ, List, Option, None, Some, IfOk, IfSome, IsTrue, OnOk};
ghost use Rattle.svc_request.specs.Held.{KeepsOthers};

use std::io::Read;

/// A file could not be read or written.
#[derive(Clone, Copy)]
pub struct FileFault;

/// Files by their names: a disk, or what stands for one in a test.
pub trait Files {
    // The bytes of the file of a name, if they are known.
    ghost held: { Self → List ℕ → Option (List ℕ) } = { λ _ _. None };

    /// A reader of a file's bytes, from the first on.
    type Reader: Read + Drop;

    /// A reader of a file, which may have more bytes than memory holds, or no end.
    fn open(&self, name: &str) -> Result<Self::Reader, FileFault>
        ensures { IfOk result (λ reader. IfSome (held self.now name.now)
            (λ known. Self.Reader.remaining reader ≡ Some known)) };

    /// Makes these bytes the whole content of a file, which is created if there is none. If that fails the file may
    /// hold anything. Files of other names hold what they held.
    fn save(&mut self, name: &str, bytes: &[u8]) -> Result<(), FileFault>
        ensures saved { OnOk result (IfSome (held self.new name.now) (λ known. known ≡ bytes.now)) }
        ensures others { KeepsOthers (held self.old) (held self.new) name.now };

    /// Whether two names are of one file, as far as can be known. Equal names are.
    fn is_same(&self, one: &str, other: &str) -> bool
        ensures { one.now ≡ other.now → IsTrue result };
}
