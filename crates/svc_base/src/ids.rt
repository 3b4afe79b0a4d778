// Units, tasks and word addresses.

/// A processing unit, numbered from 0. A machine of U units has the units below U.
#[derive(Clone, Copy, Debug, Default, PartialEq, Eq)]
pub struct UnitId(pub u8);

/// A task's place in the program's sequential order, numbered from 0.
#[derive(Clone, Copy, Debug, Default, PartialEq, Eq)]
pub struct TaskNo(pub u64);

/// The address of an aligned 32-bit word of the data, counted in words from the data's start.
#[derive(Clone, Copy, Debug, Default, PartialEq, Eq)]
pub struct WordAddr(pub u32);
