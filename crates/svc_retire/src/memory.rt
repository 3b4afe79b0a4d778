//! A version goes to memory.

ghost use Rattle.std.specs.Prelude.{◌≡◌, ◌<◌, length};
ghost use Rattle.svc_retire.specs.Memory.{with_version};

/// The version of the word, if there is one, goes to the memory.
pub(crate) fn store(backing: &mut [u32], word: usize, version: Option<u32>)
    requires { word < length backing.old }
    ensures { backing.new ≡ with_version backing.old word version }
{
    if let Some(value) = version {
        backing[word] = value;
    }
}
