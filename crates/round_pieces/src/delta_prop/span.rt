//! Where rows may have grown.
ghost use Rattle.std.specs.Prelude.{◌≡◌, ◌<◌, ◌≤◌, ◌^◌, ◌+◌, true, length};

/// Words of a row: those from number `first` on and below `end`. There are none where `first` isn't below `end`.
///
/// Spans say where a row may have grown since its last turn. They tell a turn which words to read, and nothing rests on them: a
/// word that grew and stands in no span is found when all rows are looked at, before a table is closed.
#[derive(Clone, Copy)]
pub struct Span {
    /// The number of the first word.
    pub first: u32,
    /// The number behind the last word.
    pub end: u32,
}

/// The span without a word.
pub const NO_SPAN: Span = Span {
    first: u32::MAX,
    end: 0,
};

/// Whether a span has no word.
pub fn is_empty(span: Span) -> bool
    ensures { result ≡ true → span.end ≤ span.first }
{
    span.first >= span.end
}

/// The least span with the words of both.
pub fn joined(one: Span, other: Span) -> Span
    ensures one { (result.first ≤ one.first) × (one.end ≤ result.end) }
    ensures other { (result.first ≤ other.first) × (other.end ≤ result.end) }
{
    Span {
        first: if one.first < other.first {
            one.first
        } else {
            other.first
        },
        end: if one.end < other.end {
            other.end
        } else {
            one.end
        },
    }
}

/// The span of one word. A number past 2^32 - 2 gives the span without a word: no row has so many.
pub fn span_of(word: usize) -> Span
    ensures { word + 1 < 2 ^ 32 → (result.first ≡ word) × (result.end ≡ word + 1) }
{
    if word >= u32::MAX as usize {
        return NO_SPAN;
    }
    Span {
        first: word as u32,
        end: word as u32 + 1,
    }
}

/// Adds words to the span of a row, where it has one.
pub fn widen(spans: &mut Vec<Span>, row: u32, more: Span)
    ensures { length spans.new.items ≡ length spans.old.items }
{
    let at = row as usize;
    if at < spans.len() {
        spans[at] = joined(spans[at], more);
    }
}
