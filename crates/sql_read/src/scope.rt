//! The tables that a select sees, and the columns under its aliases, found by name.

ghost use Rattle.std.specs.Prelude.{◌≡◌, true, false, List, ℕ, map, IfOk};
ghost use Rattle.std.specs.Borrow.{Bor};
ghost use Rattle.std.specs.List.{list_all};
ghost use Rattle.sql_read.specs.View.{name_view};
ghost use Rattle.sql_read.specs.Conditions.{all_differ};
ghost use Rattle.sql_read.specs.Scope.{IsScope, HasAdded, IsNewTable, HasNewTable, FindsAliases};
ghost use Rattle.sql_read.specs.Scope.{has_in, found_in, col_found, equation_found};

use crate::query::{Col, Equation, Right, SqlFrom};
use indexmap::{IndexMap, IndexSet};
use std::alloc::{AllocError, Global};

/// The tables so far and their columns.
#[derive(Drop)]
pub(crate) struct Scope<'a> {
    /// The number of the table with a name: 0 for the edges, and from 1 on for the tables of the text.
    pub(crate) tables: IndexMap<&'a [u8], u32>,
    /// Each column, behind the number of its table.
    pub(crate) columns: IndexSet<(u32, &'a [u8])>,
}

/// Adds the columns of the table with a number, and answers whether they differ.
fn add_columns<'a>(
    scope: &mut Scope<'a>,
    number: u32,
    names: &[&'a [u8]],
) -> Result<bool, AllocError>
    requires { (name : Bor (List ℕ)) → has_in scope.old number name ≡ false }
    ensures differ { IfOk result (λ r. r ≡ all_differ (map name_view names.now)) }
    ensures added { IfOk result (λ r. r ≡ true → HasAdded scope.old scope.new number names.now) }
    ensures tables { scope.new.tables ≡ scope.old.tables }
{
    let mut i = names.len();
    while i > 0 {
        i -= 1;
        let name = names[i];
        if !scope.columns.insert((number, name))? {
            return Ok(false);
        }
    }
    Ok(true)
}

/// Adds a table behind so many others, and answers whether its name is new and its columns differ.
pub(crate) fn add_table<'a>(
    scope: &mut Scope<'a>,
    number: u32,
    name: &'a [u8],
    names: &[&'a [u8]],
) -> Result<bool, AllocError>
    requires { IsScope scope.old number }
    ensures is { IfOk result (λ r. IsNewTable scope.old name.entry names.now r) }
    ensures added { IfOk result (λ r. r ≡ true → HasNewTable scope.old scope.new number name.entry names.now) }
{
    if scope.tables.insert(name, number)?.is_some() {
        return Ok(false);
    }
    let differ = add_columns(scope, number, names)?;
    Ok(differ)
}

/// The number of the table under each alias of a select. `None` where two aliases are equal, or a table isn't there.
pub(crate) fn aliases_of<'a>(
    alloc: Global,
    scope: &Scope<'a>,
    froms: &[SqlFrom<'a>],
) -> Result<Option<IndexMap<&'a [u8], u32>>, AllocError>
    ensures { IfOk result (λ found. FindsAliases scope.now froms.now found) }
{
    let mut aliases = IndexMap::new(alloc);
    let mut i = froms.len();
    while i > 0 {
        i -= 1;
        let from = froms[i];
        let Some(number) = scope.tables.get(from.table) else {
            return Ok(None);
        };
        if aliases.insert(from.alias, *number)?.is_some() {
            return Ok(None);
        }
    }
    Ok(Some(aliases))
}

/// Whether a column is one of the table under its alias.
fn col_holds<'a>(scope: &Scope<'a>, aliases: &IndexMap<&'a [u8], u32>, col: Col<'a>) -> bool
    ensures { result ≡ col_found scope.now (found_in aliases.now) col.entry }
{
    match aliases.get(col.alias) {
        Some(number) => scope.columns.contains(&(*number, col.column)),
        None => false,
    }
}

fn equation_holds<'a>(
    scope: &Scope<'a>,
    aliases: &IndexMap<&'a [u8], u32>,
    equation: Equation<'a>,
) -> bool
    ensures { result ≡ equation_found scope.now (found_in aliases.now) equation.entry }
{
    if !col_holds(scope, aliases, equation.left) {
        return false;
    }
    match equation.right {
        Right::Column(col) => col_holds(scope, aliases, col),
        Right::Number(_) => true,
    }
}

/// Whether each column is one of the table under its alias.
pub(crate) fn cols_hold<'a>(
    scope: &Scope<'a>,
    aliases: &IndexMap<&'a [u8], u32>,
    cols: &[Col<'a>],
) -> bool
    ensures { result ≡ list_all (col_found scope.now (found_in aliases.now)) cols.now }
{
    cols.iter().all(|col| col_holds(scope, aliases, *col))
}

/// Whether the columns of each equation are.
pub(crate) fn equations_hold<'a>(
    scope: &Scope<'a>,
    aliases: &IndexMap<&'a [u8], u32>,
    equations: &[Equation<'a>],
) -> bool
    ensures { result ≡ list_all (equation_found scope.now (found_in aliases.now)) equations.now }
{
    equations
        .iter()
        .all(|equation| equation_holds(scope, aliases, *equation))
}
