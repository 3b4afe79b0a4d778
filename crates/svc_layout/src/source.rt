// How the texts of a program name places.

use crate::section::Spot;

/// How other texts of a program find a name of one.
#[derive(Clone, Copy)]
pub enum Binding {
    /// `.globl NAME`: it is the name's only one.
    Global,
    /// `.weak NAME`: it yields to a global one.
    Weak,
    /// `.local NAME`: they don't, as where no line binds a name.
    Local,
    /// `.comm NAME, SIZE, ALIGNMENT`: zeros that all texts share which name them so.
    Common(u32, u32),
}

/// What a line says of how other texts find a name.
#[derive(Clone, Copy)]
pub enum Linkage {
    /// `.globl NAME`
    Global,
    /// `.weak NAME`
    Weak,
    /// `.local NAME`
    Local,
}

/// How strong a shared name is.
#[derive(Clone, Copy)]
pub enum Strength {
    /// No other of the name may be strong.
    Strong,
    /// It yields to a strong one of the name.
    Yielding,
}

/// A local label, which other ones may have the number of.
#[derive(Clone, Copy)]
pub struct Local {
    /// Its number.
    pub number: u32,
    /// Where it stands.
    pub spot: Spot,
}
