//! What a call may do.

ghost use Rattle.std.specs.Prelude.{◌≡◌, IfOk, OnErr};
ghost use Rattle.svc_library_calls.specs.Seen.{word_of};

/// Why an attempt at a call has no answer.
#[derive(Clone, Copy)]
pub enum Refused {
    /// Memory was refused before the call.
    Before,
    /// The call reported that memory was refused.
    Told,
}

/// An attempt at a call: whether it answered correctly, or why it has no answer.
pub type Attempt = Result<bool, Refused>;

/// What a call did.
#[derive(Clone, Copy)]
pub enum Seen {
    /// Memory was refused before the call.
    Before,
    /// The call reported that memory was refused, and answered correctly once there was enough.
    Told,
    /// No request for memory was refused, and the call answered correctly.
    Ample,
    /// A request for memory was refused in the call, and it answered as if none had been.
    Untold,
    /// The call answered wrongly.
    Wrong,
    /// There is no call of this name.
    Unknown,
}

impl Seen {
    /// The word that is printed for it.
    pub fn word(self) -> &'static str
        ensures { result.now ≡ word_of self }
    {
        match self {
            Seen::Before => "before",
            Seen::Told => "told",
            Seen::Ample => "ample",
            Seen::Untold => "untold",
            Seen::Wrong => "wrong",
            Seen::Unknown => "unknown",
        }
    }
}

/// What is prepared for a call.
pub fn ready<T: Drop, E: Drop>(made: Result<T, E>) -> Result<T, Refused>
    ensures ok { IfOk made (λ value. result ≡ Ok value) }
    ensures err { OnErr made (result ≡ Err Refused.Before) }
{
    match made {
        Ok(value) => Ok(value),
        Err(_) => Err(Refused::Before),
    }
}
