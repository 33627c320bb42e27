//! Parts of lists.

ghost use Rattle.std.specs.Prelude.{◌≡◌, true, length};
ghost use Rattle.query_terms.specs.Spans.{cut, lies};

use gm_text::Span;

/// The items of a part.
pub fn part_of<T>(items: &[T], part: Span) -> &[T]
    requires { lies (length items.now) part ≡ true }
    ensures { result.now ≡ cut items.now part }
{
    let from = &items[part.first as usize..];
    &from[..part.count as usize]
}
