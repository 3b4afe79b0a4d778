// Where a span of words lies among those of the data.

ghost use Rattle.std.specs.Prelude.{◌≡◌, ◌<◌, ◌≤◌, ℕ, false};
ghost use Rattle.svc_span.specs.Span.{is_asked};

use svc_span::Span;

/// Where a span begins among so many words, and where it ends. Without a span both are 0.
pub(crate) fn bounds(asked: Option<Span>, words: usize) -> (usize, usize)
    ensures range { result.0 ≤ result.1 }
    ensures inside { result.1 ≤ words }
    ensures before { (word : ℕ) → word < result.0 → is_asked asked word ≡ false }
    ensures after { (word : ℕ) → result.1 ≤ word → word < words → is_asked asked word ≡ false }
{
    match asked {
        Some(span) => {
            let end = (span.last as usize + 1).min(words);
            ((span.first as usize).min(end), end)
        }
        None => (0, 0),
    }
}
