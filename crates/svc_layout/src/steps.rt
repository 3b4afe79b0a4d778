// Of which steps the parts of sections that texts have begin at a multiple.

/// Of which steps the part of each section that one text has begins at a multiple, in bytes.
#[derive(Clone, Copy)]
pub struct Steps {
    /// That of `.text`.
    pub text_step: u32,
    /// That of `.rodata`.
    pub rodata_step: u32,
    /// That of `.data`.
    pub data_step: u32,
    /// That of `.bss`.
    pub bss_step: u32,
}
