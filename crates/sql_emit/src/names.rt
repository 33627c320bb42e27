//! Names with numbers, and what stands between the items of a list.

ghost use Rattle.std.specs.Prelude.{◌≡◌, ◌++◌, ◌∷◌, decimal, OnOk};
ghost use Rattle.sql_emit.specs.Reading.{table_name, alias_name};
ghost use Rattle.sql_emit.specs.Writing.{lead};

use gm_text::write_decimal;
use query_terms::TermId;
use std::alloc::{AllocError, Global};

/// Appends the name of the table of a term.
pub(crate) fn put_table_name(
    alloc: Global,
    out: &mut Vec<u8>,
    term: TermId,
) -> Result<(), AllocError>
    ensures { OnOk result (out.new.items ≡ out.old.items ++ table_name term) }
{
    out.push(b't')?;
    write_decimal(alloc, out, u64::from(term.number()))
}

/// Appends the alias of the table of a rule's link, by the number of the link.
pub(crate) fn put_alias(alloc: Global, out: &mut Vec<u8>, link: usize) -> Result<(), AllocError>
    ensures { OnOk result (out.new.items ≡ out.old.items ++ alias_name link) }
{
    out.push(b'c')?;
    write_decimal(alloc, out, link as u64)
}

/// Appends what stands before an item of a list, by the number of the item.
pub(crate) fn put_lead(out: &mut Vec<u8>, i: usize, separator: &[u8]) -> Result<(), AllocError>
    ensures { OnOk result (out.new.items ≡ out.old.items ++ lead i separator.now) }
{
    if i == 0 {
        return Ok(());
    }
    out.extend_from_slice(separator)
}
