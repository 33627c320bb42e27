//! Numbers for the variables of a rule, and the rows that they give.

ghost use Rattle.std.specs.Prelude.{◌≡◌, ◌<◌, ℕ, List, [], ◌∷◌, ◌++◌, map, length, true, IfOk, OnOk};
ghost use Rattle.std.specs.List.{All, flat_map, list_all};
ghost use Rattle.graph_text.specs.Rows.{row_values, values_of, is_row};
ghost use Rattle.query_terms.specs.Lists.{is_heads};
ghost use Rattle.rpq_meaning.specs.Joins.{agrees, fits, fits_pair, with_pair, grown, mappings, assigned, head_row};

use crate::tables::table_at;
use graph_text::{Pairs, Row};
use query_terms::{Conjunct, Heads};
use std::alloc::{AllocError, Global};
use std::marker::Model;

/// Numbers for some variables.
#[derive(Drop)]
pub(crate) struct Mapping {
    entries: Vec<(u8, u32)>,
}

impl Model for Mapping {
    ghost use Rattle.std.specs.Prelude.{ℕ, List};

    ghost Value = { List (ℕ × ℕ) };

    ghost view = { λ m. m.entries.items };
}

impl Mapping {
    /// No numbers.
    fn empty(alloc: Global) -> Mapping
        ensures { result ≡ [] }
    {
        Mapping {
            entries: Vec::new(alloc),
        }
    }

    /// The variables with their numbers.
    fn entries(&self) -> &[(u8, u32)]
        ensures { result.now ≡ self.now }
    {
        &self.entries
    }
}

fn agrees(entry: &(u8, u32), v: u8, a: u32) -> bool
    ensures { result ≡ agrees v a entry.now }
{
    entry.0 != v || entry.1 == a
}

/// Whether a variable has no other number.
fn fits(m: &[(u8, u32)], v: u8, a: u32) -> bool
    ensures { result ≡ fits m.now v a }
{
    m.iter().all(|entry| agrees(entry, v, a))
}

/// Whether two variables can have the numbers of a pair.
fn fits_pair(m: &[(u8, u32)], u: u8, v: u8, pair: &(u32, u32)) -> bool
    ensures { result ≡ fits_pair u v m.now pair.now }
{
    fits(m, u, pair.0) && fits(m, v, pair.1) && agrees(&(u, pair.0), v, pair.1)
}

/// The numbers of a pair for two variables more.
fn with_pair(
    alloc: Global,
    m: &[(u8, u32)],
    u: u8,
    v: u8,
    pair: &(u32, u32),
) -> Result<Mapping, AllocError>
    ensures { IfOk result (λ k. k ≡ with_pair u v m.now pair.now) }
{
    let mut entries = m.to_vec(alloc)?;
    entries.push((u, pair.0))?;
    entries.push((v, pair.1))?;
    Ok(Mapping { entries })
}

/// Adds the mapping with each pair that fits.
fn push_grown(
    alloc: Global,
    out: &mut Vec<Mapping>,
    m: &[(u8, u32)],
    u: u8,
    v: u8,
    pairs: &[(u32, u32)],
) -> Result<(), AllocError>
    ensures { OnOk result (out.new.items ≡ out.old.items ++ grown u v pairs.now m.now) }
{
    for pair in pairs {
        if fits_pair(m, u, v, pair) {
            out.push(with_pair(alloc, m, u, v, pair)?)?;
        }
    }
    Ok(())
}

/// Each mapping with each pair that fits.
fn grow(
    alloc: Global,
    all: &[Mapping],
    u: u8,
    v: u8,
    pairs: &[(u32, u32)],
) -> Result<Vec<Mapping>, AllocError>
    ensures { IfOk result (λ out. out.items ≡ flat_map (grown u v pairs.now) all.now) }
{
    let mut out = Vec::new(alloc);
    for m in all {
        push_grown(alloc, &mut out, m.entries(), u, v, pairs)?;
    }
    Ok(out)
}

/// The mappings that make each conjunct true.
pub(crate) fn mappings(
    alloc: Global,
    tables: &[Pairs],
    conjuncts: &[Conjunct],
) -> Result<Vec<Mapping>, AllocError>
    requires { All (λ c. c.term < length tables.now) conjuncts.now }
    ensures { IfOk result (λ all. all.items ≡ mappings tables.now conjuncts.now) }
{
    let mut all = Vec::new(alloc);
    all.push(Mapping::empty(alloc))?;
    for c in conjuncts {
        let pairs = table_at(tables, c.term);
        all = grow(alloc, all.as_slice(), c.src, c.trg, pairs)?;
    }
    Ok(all)
}

/// The number of a variable, and 0 where it has none.
fn assigned(m: &[(u8, u32)], v: u8) -> u32
    ensures { result ≡ assigned m.now v }
{
    for entry in m {
        if entry.0 == v {
            return entry.1;
        }
    }
    0
}

/// The row of the numbers of heads.
fn head_row(m: &[(u8, u32)], heads: &Heads) -> Row
    requires { is_heads heads.now ≡ true }
    ensures values { row_values result ≡ head_row heads.now m.now }
    ensures is_row { is_row heads.now.count result ≡ true }
{
    let [a, b, c, d] = heads.vars;
    let numbers = [
        assigned(m, a),
        assigned(m, b),
        assigned(m, c),
        assigned(m, d),
    ];
    Row::of(&numbers[..heads.count as usize])
}

/// Adds the row of each mapping.
pub(crate) fn push_rows(
    rows: &mut Vec<Row>,
    all: &[Mapping],
    heads: &Heads,
) -> Result<(), AllocError>
    requires heads { is_heads heads.now ≡ true }
    requires rows { list_all (is_row heads.now.count) rows.old.items ≡ true }
    ensures values { OnOk result (values_of rows.new.items ≡ values_of rows.old.items ++ map (head_row heads.now) all.now) }
    ensures rows { OnOk result (list_all (is_row heads.now.count) rows.new.items ≡ true) }
{
    for m in all {
        rows.push(head_row(m.entries(), heads))?;
    }
    Ok(())
}
