ghost use Rattle.std.specs.Prelude.{◌≡◌, ◌↔◌, ◌<◌, [], length, slice_get, Some, IsTrue};
ghost use Rattle.graph_text.specs.Pairs.{IsAscending};

use std::marker::Model;

/// Pairs of numbers in ascending order, each of them once, such as the rows of a query.
///
/// Pairs are ordered by their first number, and by their second where the first are equal.
#[derive(Drop)]
pub struct Pairs {
    items: Vec<(u32, u32)>,
}

impl Model for Pairs {
    ghost use Rattle.std.specs.Prelude.{ℕ, List};
    ghost use Rattle.graph_text.specs.Pairs.{IsAscending};

    ghost Value = { List (ℕ × ℕ) };

    ghost view = { λ pairs. pairs.items.items };

    ghost invariant = { λ pairs. IsAscending pairs.items.items };
}

impl Pairs {
    /// These pairs, with no memory taken.
    pub fn of(items: Vec<(u32, u32)>) -> Self
        requires { IsAscending items.items }
        ensures { result ≡ items.items }
    {
        Pairs { items }
    }

    /// The number of pairs.
    pub fn len(&self) -> usize
        ensures len { result ≡ length self.now }
        ensures ascending { IsAscending self.now }
    {
        self.items.len()
    }

    /// Whether there are no pairs.
    pub fn is_empty(&self) -> bool
        ensures { IsTrue result ↔ (self.now ≡ []) }
    {
        self.items.is_empty()
    }

    /// The pair at an index.
    pub fn at(&self, index: usize) -> &(u32, u32)
        requires { index < length self.now }
        ensures { slice_get self.now index ≡ Some result.now }
    {
        &self.items[index]
    }

    /// All pairs.
    pub fn as_slice(&self) -> &[(u32, u32)]
        ensures items { result.now ≡ self.now }
        ensures ascending { IsAscending self.now }
    {
        &self.items
    }

    /// The pairs as a vector, with no memory taken.
    pub fn into_items(self) -> Vec<(u32, u32)>
        ensures items { result.items ≡ self }
        ensures ascending { IsAscending result.items }
    {
        self.items
    }
}
