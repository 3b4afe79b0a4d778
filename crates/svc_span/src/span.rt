// Spans of numbers.

ghost use Rattle.std.specs.Prelude.{◌≡◌};
ghost use Rattle.svc_span.specs.Span.{in_span, is_asked};

/// Numbers from the first to the last, both included: of units, tasks or words of data.
#[derive(Clone, Copy, Debug, PartialEq, Eq)]
pub struct Span {
    /// The first one.
    pub first: u32,
    /// The last one. If it is below the first one, there is none.
    pub last: u32,
}

impl Span {
    /// The number is one of them.
    pub fn has(self, number: u64) -> bool
        ensures { result ≡ in_span self number }
    {
        u64::from(self.first) <= number && number <= u64::from(self.last)
    }
}

/// There is a span, and the number is in it.
pub fn is_asked(asked: Option<Span>, number: u32) -> bool
    ensures { result ≡ is_asked asked number }
{
    match asked {
        Some(span) => span.has(u64::from(number)),
        None => false,
    }
}
