// Immediates as numbers of 32 bits.

ghost use Rattle.std.specs.Prelude.{◌≡◌};
ghost use Rattle.svc_rv32i.specs.Immediates.{short_value, branch_offset, jump_offset, upper_value};

use crate::instr::{Long, Short};

impl Short {
    // The immediate of a load, a store, a JALR or an operation, extended by its sign.
    pub(crate) fn value(self) -> u32
        ensures { result ≡ short_value self }
    {
        let bits = self.bits as u32;
        if bits < 0x800 {
            bits
        } else {
            bits + 0xFFFF_F000
        }
    }

    // The offset in bytes of a branch, extended by its sign.
    pub(crate) fn branch_offset(self) -> u32
        ensures { result ≡ branch_offset self }
    {
        let offset = self.bits as u32 * 2;
        if offset < 0x1000 {
            offset
        } else {
            offset + 0xFFFF_E000
        }
    }
}

impl Long {
    // The offset in bytes of a JAL, extended by its sign.
    pub(crate) fn jump_offset(self) -> u32
        ensures { result ≡ jump_offset self }
    {
        let offset = self.bits * 2;
        if offset < 0x10_0000 {
            offset
        } else {
            offset + 0xFFE0_0000
        }
    }

    // The number whose upper twenty bits are those of a LUI or an AUIPC.
    pub(crate) fn upper_value(self) -> u32
        ensures { result ≡ upper_value self }
    {
        let bits = self.bits;
        bits << 12
    }
}
