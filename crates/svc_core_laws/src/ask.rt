// What a turn asks of the data or the output.

ghost use Rattle.std.specs.Prelude.{◌≡◌};
ghost use Rattle.svc_core_laws.specs.Bursts.{is_nothing};

use svc_rv32i::{LoadKind, Register, StoreKind};

/// What a turn asks of the data or the output, with the byte address as the instruction gives it.
#[derive(Clone, Copy, Debug, PartialEq, Eq)]
pub enum Ask {
    /// Nothing.
    Nothing,
    /// To load from a byte address into a register.
    Load {
        kind: LoadKind,
        rd: Register,
        addr: u32,
    },
    /// To store the lowest bytes of a value at a byte address.
    Store {
        kind: StoreKind,
        addr: u32,
        value: u32,
    },
    /// To output a word.
    Emit(u32),
}

impl Ask {
    /// Whether it asks for nothing.
    pub fn is_nothing(self) -> bool
        ensures { result ≡ is_nothing self }
    {
        match self {
            Ask::Nothing => true,
            _ => false,
        }
    }
}
