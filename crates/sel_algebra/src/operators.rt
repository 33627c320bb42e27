ghost use Rattle.std.specs.Prelude.{◌≡◌};
ghost use Rattle.sel_algebra.specs.Operators.{compose_of, join_of, star_of, mirror_of, normal_of, growth_class};

use crate::vocabulary::Class::{self, Constant, Linear, Quadratic};
use crate::vocabulary::Kind::{self, Fixed, Growing};
use crate::vocabulary::Op::{self, Cross, Diamond, Equal, Greater, Less};

/// The cell of a table: with one argument that of its column, with two that of the first one's row
/// and the second one's column.
macro_rules! table {
    ($row:ident, $column:ident: $columns:tt $($label:ident $cells:tt)*) => {
        match $row {
            $($label => table!($column: $columns $cells),)*
        }
    };
    ($column:ident: [$($label:ident)*] [$($cell:expr),*]) => {
        match $column {
            $($label => $cell,)*
        }
    };
}

/// The operator of a path in two parts, from those of the two.
pub fn compose(first: Op, second: Op) -> Op
    ensures { result ≡ compose_of first second }
{
    table!(first, second: [Equal Less Greater Diamond Cross]
        Equal [Equal, Less, Greater, Diamond, Cross]
        Less [Less, Less, Diamond, Diamond, Cross]
        Greater [Greater, Cross, Greater, Cross, Cross]
        Diamond [Diamond, Cross, Diamond, Cross, Cross]
        Cross [Cross, Cross, Cross, Cross, Cross])
}

/// The least operator that is at least `a` and at least `b`: that of a union.
pub fn join(a: Op, b: Op) -> Op
    ensures { result ≡ join_of a b }
{
    table!(a, b: [Equal Less Greater Diamond Cross]
        Equal [Equal, Less, Greater, Diamond, Cross]
        Less [Less, Less, Diamond, Diamond, Cross]
        Greater [Greater, Diamond, Greater, Diamond, Cross]
        Diamond [Diamond, Diamond, Diamond, Diamond, Cross]
        Cross [Cross, Cross, Cross, Cross, Cross])
}

/// An estimate for a path of operator `a` repeated any number of times, also none.
///
/// It bounds nothing: a repeated path may grow faster.
pub fn star(a: Op) -> Op
    ensures { result ≡ star_of a }
{
    table!(a: [Equal Less Greater Diamond Cross] [Equal, Less, Greater, Cross, Cross])
}

/// The operator of a path of operator `a` taken backwards.
pub fn mirror(a: Op) -> Op
    ensures { result ≡ mirror_of a }
{
    table!(a: [Equal Less Greater Diamond Cross] [Equal, Greater, Less, Diamond, Cross])
}

/// The normal form of an operator between two types: only between growing types has it a choice.
pub fn normal(a: Op, from: Kind, to: Kind) -> Op
    ensures { result ≡ normal_of a from to }
{
    table!(from, to: [Fixed Growing]
        Fixed [Equal, Less]
        Growing [Greater, a])
}

/// The growth class of an operator between two types.
pub fn class_of(a: Op, from: Kind, to: Kind) -> Class
    ensures { result ≡ growth_class a from to }
{
    let between_growing =
        table!(a: [Equal Less Greater Diamond Cross] [Linear, Linear, Linear, Linear, Quadratic]);
    table!(from, to: [Fixed Growing]
        Fixed [Constant, Linear]
        Growing [Linear, between_growing])
}
