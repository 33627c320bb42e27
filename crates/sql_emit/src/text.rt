//! The texts.

ghost use Rattle.std.specs.Prelude.{◌≡◌, true, length, IfOk};
ghost use Rattle.sql_emit.specs.Rules.{are_link_rules};
ghost use Rattle.sql_emit.specs.Text.{links_text_of};
ghost use Rattle.sql_emit.specs.Laws.{HasReading};
ghost use Rattle.sql_emit.specs.Rows.{HasRows, HasTables, IsLinksRow};

use crate::links::LinkRules;
use crate::rules::put_rules;
use crate::tables::put_tables;
use query_terms::TermStore;
use std::alloc::{AllocError, Global};

/// The room for a line of the tables. A sequence or a choice takes no more, with numbers of up to five digits.
const LINE_ROOM: usize = 104;

/// The room for some rules, and for what stands around the tables.
const REST_ROOM: usize = 1024;

/// The text of the tables of terms, and of rules over them.
pub fn links_text(
    alloc: Global,
    terms: &TermStore<'_>,
    rules: &LinkRules,
) -> Result<Vec<u8>, AllocError>
    requires { are_link_rules (length terms.now) rules.now ≡ true }
    ensures text { IfOk result (λ text. text.items ≡ links_text_of terms.now rules.now) }
    ensures reading { IfOk result (λ text. HasReading text.items terms.now rules.now) }
    ensures tables { IfOk result (λ text. HasTables text.items terms.now) }
    ensures rows { IfOk result (λ text. HasRows text.items (λ graph row. IsLinksRow graph terms.now rules.now row)) }
{
    let room = terms.len() as usize * LINE_ROOM + REST_ROOM;
    let mut out = Vec::with_capacity(alloc, room)?;
    out.extend_from_slice(b"WITH RECURSIVE\n")?;
    put_tables(&mut out, terms)?;
    out.extend_from_slice(b"\n")?;
    put_rules(alloc, &mut out, rules)?;
    out.extend_from_slice(b"\n")?;
    Ok(out)
}
