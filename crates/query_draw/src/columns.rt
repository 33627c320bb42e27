//! Matrices by columns of bits: a column has all entries to one type, by sets of the types from which they lead.

ghost use Rattle.std.specs.Prelude.{◌≡◌, ◌≤◌, ◌<◌, length};
ghost use Rattle.sel_algebra.specs.Table.{types_most};
ghost use Rattle.query_draw.specs.Columns.{has, is_growing, AreGrowing, no_column, equal_column, joined_column, followed_column, normal_column, told_op};

use sel_algebra::{Kind, Op};

/// The entries to one type, by sets of the types from which they lead: bit `t` of a set stands for type `t`.
#[derive(Clone, Copy, Debug, PartialEq, Eq)]
pub(crate) struct Column {
    /// Those whose entry is there.
    pub there: u64,
    /// Those whose entry is at least `Less`.
    pub less: u64,
    /// Those whose entry is at least `Greater`.
    pub greater: u64,
    /// Those whose entry is `Cross`.
    pub cross: u64,
}

/// The column with no entries.
pub(crate) fn no_column() -> Column
    ensures { result ≡ no_column }
{
    Column {
        there: 0,
        less: 0,
        greater: 0,
        cross: 0,
    }
}

/// The column with `Equal` from one type, and no other entry.
pub(crate) fn equal_column(t: usize) -> Column
    requires { t < types_most }
    ensures { result ≡ equal_column t }
{
    Column {
        there: 1 << t,
        less: 0,
        greater: 0,
        cross: 0,
    }
}

/// The joins of the entries of two columns.
pub(crate) fn joined_column(a: Column, b: Column) -> Column
    ensures { result ≡ joined_column a b }
{
    Column {
        there: a.there | b.there,
        less: a.less | b.less,
        greater: a.greater | b.greater,
        cross: a.cross | b.cross,
    }
}

/// The compositions of the entries of a column with an operator.
pub(crate) fn followed_column(column: Column, op: Op) -> Column
    ensures { result ≡ followed_column column op }
{
    let Column {
        there,
        less,
        greater,
        cross,
    } = column;
    let (less, greater, cross) = match op {
        Op::Equal => (less, greater, cross),
        Op::Less => (there, greater, greater),
        Op::Greater => (less, there, cross),
        Op::Diamond => (there, there, greater),
        Op::Cross => (there, there, there),
    };
    Column {
        there,
        less,
        greater,
        cross,
    }
}

/// The normal forms of the entries of a column to a type of some kind, by the set of the growing types.
pub(crate) fn normal_column(column: Column, growing: u64, to: Kind) -> Column
    ensures { result ≡ normal_column column growing to }
{
    match to {
        Kind::Fixed => Column {
            there: column.there,
            less: 0,
            greater: column.there & growing,
            cross: 0,
        },
        Kind::Growing => Column {
            there: column.there,
            less: column.less & growing | column.there & !growing,
            greater: column.greater & growing,
            cross: column.cross & growing,
        },
    }
}

/// The set of the growing types.
pub(crate) fn growing_types(kinds: &[Kind]) -> u64
    requires { length kinds.now ≤ types_most }
    ensures { AreGrowing kinds.now result }
{
    let mut growing = 0;
    for t in 0..kinds.len() {
        if is_growing(kinds[t]) {
            growing |= 1 << t;
        }
    }
    growing
}

/// Whether a kind is that of the growing types.
fn is_growing(kind: Kind) -> bool
    ensures { result ≡ is_growing kind }
{
    kind == Kind::Growing
}

/// Whether a type is in a set.
pub(crate) fn has(set: u64, t: u8) -> bool
    requires { t < types_most }
    ensures { result ≡ has set t }
{
    set >> t & 1 == 1
}

/// The operator that the entry of a column from a type is, where it is there.
pub(crate) fn told_op(column: Column, t: u8) -> Op
    requires { t < types_most }
    ensures { result ≡ told_op (has column.less t) (has column.greater t) (has column.cross t) }
{
    if has(column.cross, t) {
        return Op::Cross;
    }
    match (has(column.less, t), has(column.greater, t)) {
        (true, true) => Op::Diamond,
        (true, false) => Op::Less,
        (false, true) => Op::Greater,
        (false, false) => Op::Equal,
    }
}
