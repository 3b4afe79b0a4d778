//! Files that stand one behind another in one list of bytes.

ghost use Rattle.std.specs.Prelude.{◌≡◌, ◌++◌, ◌∷◌, [], IfOk, IsTrue, drop, option_map, take};
ghost use Rattle.svc_desk.specs.Held.{held_by, size_of};

use std::alloc::{AllocError, Global};

/// How many bytes the name of a file has, and how many the file.
#[repr(C)]
#[derive(Clone, Copy, PartialEq, Eq, Drop)]
pub struct FileSize {
    pub name: u64,
    pub bytes: u64,
}

/// Files of these sizes: the name and the bytes of the first, those of the second, and so on. Where there are too few
/// bytes, the last ones are shorter.
#[derive(Clone, Copy)]
pub struct Lent<'a> {
    pub sizes: &'a [FileSize],
    pub contents: &'a [u8],
}

impl<'a> Lent<'a> {
    /// Whether these are the same files.
    pub fn is_same(&self, other: &Lent<'_>) -> bool
        ensures sizes { IsTrue result → self.now.sizes.now ≡ other.now.sizes.now }
        ensures contents { IsTrue result → self.now.contents.now ≡ other.now.contents.now }
    {
        self.sizes == other.sizes && self.contents == other.contents
    }

    /// The first file of this name.
    pub fn find(&self, name: &[u8]) -> Option<&'a [u8]>
        ensures { option_map (λ bytes. bytes.now) result ≡ held_by self.now.sizes.now self.now.contents.now name.now }
    {
        let mut rest = self.contents;
        for size in self.sizes {
            let (its_name, behind) = parted(rest, size.name);
            let (bytes, behind) = parted(behind, size.bytes);
            if its_name == name {
                return Some(bytes);
            }
            rest = behind;
        }
        None
    }
}

/// Files of these sizes, as [`Lent`].
#[derive(Drop)]
pub struct Packed {
    pub sizes: Vec<FileSize>,
    pub contents: Vec<u8>,
}

impl Packed {
    /// No file.
    pub fn new(alloc: Global) -> Packed
        ensures sizes { result.sizes.items ≡ [] }
        ensures contents { result.contents.items ≡ [] }
    {
        Packed {
            sizes: Vec::new(alloc),
            contents: Vec::new(alloc),
        }
    }

    /// This file, and behind it these.
    ///
    /// Errors: lack of memory.
    pub fn before(&self, alloc: Global, name: &[u8], bytes: &[u8]) -> Result<Packed, AllocError>
        ensures sizes { IfOk result (λ it. it.sizes.items ≡ size_of name.now bytes.now ∷ self.now.sizes.items) }
        ensures contents { IfOk result (λ it. it.contents.items ≡ name.now ++ (bytes.now ++ self.now.contents.items)) }
    {
        let size = FileSize {
            name: name.len() as u64,
            bytes: bytes.len() as u64,
        };
        let mut sizes = Vec::from_slice(alloc, &[size])?;
        sizes.extend_from_slice(&self.sizes)?;
        let mut contents = Vec::from_slice(alloc, name)?;
        contents.extend_from_slice(bytes)?;
        contents.extend_from_slice(&self.contents)?;
        Ok(Packed { sizes, contents })
    }

    /// These files, lent.
    pub fn lent(&self) -> Lent<'_>
        ensures sizes { result.sizes.now ≡ self.now.sizes.items }
        ensures contents { result.contents.now ≡ self.now.contents.items }
    {
        Lent {
            sizes: &self.sizes,
            contents: &self.contents,
        }
    }
}

// The first bytes, as many as that or all, and the others.
fn parted(bytes: &[u8], count: u64) -> (&[u8], &[u8])
    ensures first { result.0.now ≡ take count bytes.now }
    ensures others { result.1.now ≡ drop count bytes.now }
{
    if count >= bytes.len() as u64 {
        return (bytes, &[]);
    }
    bytes.split_at(count as usize)
}
