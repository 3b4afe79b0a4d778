//! What an argument of a subcommand is.

/// What an argument takes.
#[derive(Clone, Copy)]
pub(crate) enum Takes {
    /// A file, by its place among the words. It has to be named.
    File,
    /// One file or more, in the same way.
    Files,
    /// Any word.
    Word,
    /// One of these names.
    Name(&'static [&'static str]),
    /// A number from the first of these to the second.
    Number(u32, u32),
    /// A number of 64 bits.
    Index,
    /// Nothing: it is given or not.
    Nothing,
}

/// An argument of a subcommand.
#[derive(Clone, Copy)]
pub(crate) struct Argument {
    /// Its name: for an option the word after `--`, for a file what help calls it.
    pub(crate) name: &'static str,
    /// What it takes.
    pub(crate) takes: Takes,
    /// What help calls its value.
    pub(crate) value: &'static str,
    /// Its value if none is given.
    pub(crate) default: Option<&'static str>,
    /// Whether it has to be given.
    pub(crate) is_required: bool,
    /// The option without which it is a mistake.
    pub(crate) needs: Option<&'static str>,
    /// The options beside which it is a mistake.
    pub(crate) excludes: &'static [&'static str],
    /// Its line of help.
    pub(crate) help: &'static str,
}
