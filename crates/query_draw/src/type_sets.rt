//! Sets of types by bits: bit `t` of a set stands for type `t`.

ghost use Rattle.std.specs.Prelude.{◌≡◌, ◌≤◌, ◌<◌};
ghost use Rattle.sel_algebra.specs.Table.{types_most};
ghost use Rattle.query_draw.specs.TypeSets.{IsNextType, IsWithout};

/// The least type of a set, if it has one among so many.
pub(crate) fn next_type(set: u64, count: usize) -> Option<u8>
    requires { count ≤ types_most }
    ensures { IsNextType set count result }
{
    let least = set.trailing_zeros();
    if (least as usize) < count {
        Some(least as u8)
    } else {
        None
    }
}

/// A set without one of its types.
pub(crate) fn without(set: u64, t: u8) -> u64
    requires { t < types_most }
    ensures { IsWithout set t result }
{
    set & !(1 << t)
}
