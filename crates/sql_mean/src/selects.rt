//! The rows of selects.

ghost use Rattle.std.specs.Prelude.{◌≡◌, ◌++◌, ℕ, List, map, [], IfOk, OnOk};
ghost use Rattle.std.specs.List.{flat_map, list_all};
ghost use Rattle.sql_read.specs.Kept.{cut, IsWithin, AllFit, QueryFits, query_in};
ghost use Rattle.sql_read.specs.View.{col_view, equation_view, source_view};
ghost use Rattle.sql_mean.specs.Selects.{value_of};
ghost use Rattle.sql_mean.specs.Evaluation.{headers_in, row_view, with_row, with_each, products, is_met, query_of, if_met, select_list, union_list};

use crate::known::{Known, rows_under};
use crate::tuples::Tuple;
use crate::values::{is_met, value_of};
use gm_text::Span;
use sql_read::{Col, Equation, Select, SqlFrom, SqlQuery};
use std::alloc::{AllocError, Global};
use std::marker::Model;

/// One row of each source.
#[derive(Drop)]
struct Product<'k> {
    rows: Vec<&'k [u32]>,
}

impl<'k> Model for Product<'k> {
    ghost use Rattle.std.specs.Prelude.{ℕ, List, map};
    ghost use Rattle.sql_mean.specs.Evaluation.{row_view};

    ghost Value = { List (List ℕ) };

    ghost view = { λ p. map row_view p.rows.items };
}

impl<'k> Product<'k> {
    /// No rows.
    fn empty(alloc: Global) -> Product<'k>
        ensures { result ≡ [] }
    {
        Product {
            rows: Vec::new(alloc),
        }
    }

    /// These rows and one more.
    fn with(&self, alloc: Global, row: &'k [u32]) -> Result<Product<'k>, AllocError>
        ensures { IfOk result (λ p. p ≡ with_row self.now row.now) }
    {
        let mut rows = self.rows.to_vec(alloc)?;
        rows.push(row)?;
        Ok(Product { rows })
    }

    fn rows(&self) -> &[&'k [u32]]
        ensures { map row_view result.now ≡ self.now }
    {
        &self.rows
    }
}

/// A part of a list.
pub(crate) fn cut<T>(items: &[T], span: Span) -> &[T]
    requires { IsWithin items.now span }
    ensures { result.now ≡ cut items.now span }
{
    let from = &items[span.first as usize..];
    &from[..span.count as usize]
}

/// Adds the rows so far with each row of a table.
fn push_each<'k>(
    alloc: Global,
    out: &mut Vec<Product<'k>>,
    product: &Product<'k>,
    rows: &'k [Tuple],
) -> Result<(), AllocError>
    ensures { OnOk result (out.new.items ≡ out.old.items ++ with_each rows.now product.now) }
{
    for row in rows {
        out.push(product.with(alloc, row.numbers())?)?;
    }
    Ok(())
}

/// All rows so far, each with each row of a table.
fn grow<'k>(
    alloc: Global,
    all: &[Product<'k>],
    rows: &'k [Tuple],
) -> Result<Vec<Product<'k>>, AllocError>
    ensures { IfOk result (λ out. out.items ≡ flat_map (with_each rows.now) all.now) }
{
    let mut out = Vec::new(alloc);
    for product in all {
        push_each(alloc, &mut out, product, rows)?;
    }
    Ok(out)
}

/// The product of the tables of some sources.
fn products<'k>(
    alloc: Global,
    known: &'k [Known<'_>],
    froms: &[SqlFrom<'_>],
) -> Result<Vec<Product<'k>>, AllocError>
    ensures { IfOk result (λ all. all.items ≡ products known.now (map source_view froms.now)) }
{
    let mut all = Vec::new(alloc);
    all.push(Product::empty(alloc))?;
    for from in froms {
        all = grow(alloc, all.as_slice(), rows_under(known, from.table))?;
    }
    Ok(all)
}

/// Whether a row of the product meets all equations.
fn meets(
    known: &[Known<'_>],
    froms: &[SqlFrom<'_>],
    product: &[&[u32]],
    equations: &[Equation<'_>],
) -> bool
    ensures { result ≡ list_all (is_met (headers_in known.now) (map source_view froms.now) (map row_view product.now)) (map equation_view equations.now) }
{
    let mut rest = equations;
    while let [equation, more @ ..] = rest {
        if !is_met(known, froms, product, *equation) {
            return false;
        }
        rest = more;
    }
    true
}

/// The numbers of a row of the product in some columns.
fn projected(
    alloc: Global,
    known: &[Known<'_>],
    froms: &[SqlFrom<'_>],
    product: &[&[u32]],
    columns: &[Col<'_>],
) -> Result<Tuple, AllocError>
    ensures { IfOk result (λ row. row ≡ map (value_of (headers_in known.now) (map source_view froms.now) (map row_view product.now)) (map col_view columns.now)) }
{
    let mut numbers = Vec::new(alloc);
    for col in columns {
        numbers.push(value_of(known, froms, product, *col))?;
    }
    Ok(Tuple::of(numbers))
}

/// Adds the numbers of a row of the product, where it meets the equations.
fn push_if_met(
    alloc: Global,
    known: &[Known<'_>],
    columns: &[Col<'_>],
    froms: &[SqlFrom<'_>],
    equations: &[Equation<'_>],
    product: &[&[u32]],
    rows: &mut Vec<Tuple>,
) -> Result<(), AllocError>
    ensures { OnOk result (rows.new.items ≡ rows.old.items ++ if_met (headers_in known.now) (query_of columns.now froms.now equations.now) (map row_view product.now)) }
{
    if meets(known, froms, product, equations) {
        rows.push(projected(alloc, known, froms, product, columns)?)?;
    }
    Ok(())
}

/// Adds the rows of a select.
fn push_rows(
    alloc: Global,
    query: &SqlQuery<'_>,
    known: &[Known<'_>],
    select: Select,
    rows: &mut Vec<Tuple>,
) -> Result<(), AllocError>
    requires { QueryFits select query.now.kept }
    ensures { OnOk result (rows.new.items ≡ rows.old.items ++ select_list known.now (query_in select query.now.kept)) }
{
    let columns = cut(query.columns(), select.columns);
    let froms = cut(query.froms(), select.tables);
    let equations = cut(query.equations(), select.equations);
    let all = products(alloc, known, froms)?;
    for product in &all {
        push_if_met(
            alloc,
            known,
            columns,
            froms,
            equations,
            product.rows(),
            rows,
        )?;
    }
    Ok(())
}

/// The rows of selects, with repeats.
pub(crate) fn union_rows(
    alloc: Global,
    query: &SqlQuery<'_>,
    known: &[Known<'_>],
    selects: &[Select],
) -> Result<Vec<Tuple>, AllocError>
    requires { AllFit (λ s. QueryFits s query.now.kept) selects.now }
    ensures { IfOk result (λ rows. rows.items ≡ union_list known.now (map (λ s. query_in s query.now.kept) selects.now)) }
{
    let mut rows = Vec::new(alloc);
    for select in selects {
        push_rows(alloc, query, known, *select, &mut rows)?;
    }
    Ok(rows)
}
