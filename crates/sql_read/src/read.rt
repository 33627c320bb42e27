//! The reader of SQL texts.

ghost use Rattle.std.specs.Prelude.{◌≡◌, ◌≤◌, ◌<◌, length, IfOk, OnOk};
ghost use Rattle.std.specs.Result.{IsErrOf};
ghost use Rattle.sql_read.specs.Text.{IsSql, HasNoReading, deepest};
ghost use Rattle.sql_read.specs.Whole.{reading_of};

use crate::conditions::text_holds;
use crate::cursor::Cursor;
use crate::depth::is_too_deep;
use crate::lists::Lists;
use crate::parts::pass_text;
use crate::query::{SqlQuery, keep};
use crate::tokens::tokens_of;
use gm_text::Arena;
use std::alloc::{AllocError, Global};
use thiserror::Error;

/// Why a text has no answer.
#[derive(Debug, Drop, Error)]
pub enum SqlError {
    /// The grammar and its conditions give the text no reading.
    #[error("not a SQL text")]
    NotSql,
    /// Parentheses nest above 64.
    #[error("parentheses nest too deep")]
    TooDeep,
    /// Memory ran out.
    #[error("out of memory")]
    NoMemory,
}

impl From<AllocError> for SqlError {
    ghost use Rattle.sql_read.specs.declared.read.SqlError.TheVariants.{NoMemory};

    ghost from_gives = { λ _ e. e ≡ NoMemory };

    fn from(_: AllocError) -> Self {
        SqlError::NoMemory
    }
}

/// Reads a text of at most 16,777,216 bytes, and keeps what it says in an arena.
///
/// `TooDeep` comes before `NotSql`.
pub fn read_sql<'a>(alloc: Global, text: &[u8], arena: &'a Arena) -> Result<SqlQuery<'a>, SqlError>
    requires { length text.now ≤ 16777216 }
    ensures reading { IfOk result (λ q. IsSql text.now (reading_of q)) }
    ensures not_deep { OnOk result (deepest text.now ≤ 64) }
    ensures not_sql { IsErrOf result SqlError.NotSql → HasNoReading text.now }
    ensures not_sql_not_deep { IsErrOf result SqlError.NotSql → deepest text.now ≤ 64 }
    ensures too_deep { IsErrOf result SqlError.TooDeep → 64 < deepest text.now }
{
    if is_too_deep(text) {
        return Err(SqlError::TooDeep);
    }
    let copy: &'a [u8] = arena.try_alloc_slice_copy(text)?;
    let Some(tokens) = tokens_of(alloc, copy)? else {
        return Err(SqlError::NotSql);
    };
    let mut lists = Lists {
        columns: Vec::new(alloc),
        froms: Vec::new(alloc),
        equations: Vec::new(alloc),
        names: Vec::new(alloc),
        selects: Vec::new(alloc),
        tables: Vec::new(alloc),
    };
    let mut cursor = Cursor { rest: &tokens };
    let Some(last) = pass_text(&mut cursor, &mut lists)? else {
        return Err(SqlError::NotSql);
    };
    if !text_holds(alloc, &lists, last)? {
        return Err(SqlError::NotSql);
    }
    Ok(keep(arena, &lists, last)?)
}
