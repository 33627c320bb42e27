//! The lines of a summary, written.

ghost use Rattle.std.specs.Prelude.{◌≡◌, ◌∷◌, [], ◌++◌, decimal, OnOk, OnErr};
ghost use Rattle.graph_text.specs.EdgesText.{AppendsPart};
ghost use Rattle.summary_text.specs.Summary.{queries_in, class_word, constraint_line, constraint_lines, class_line, summary_text_of};

use crate::summary::Summary;
use gm_text::write_decimal;
use sel_algebra::Class;
use std::alloc::{AllocError, Global};

/// Appends the text of a summary: a line for each constraint, in order, and then one for each class.
///
/// # Errors
///
/// `AllocError` where memory runs out, and then a prefix of the text has been appended.
pub fn write_summary(alloc: Global, out: &mut Vec<u8>, summary: &Summary) -> Result<(), AllocError>
    ensures ok { OnOk result (out.new.items ≡ out.old.items ++ summary_text_of summary.now) }
    ensures err { OnErr result (AppendsPart out.old.items out.new.items (summary_text_of summary.now)) }
{
    write_constraints(alloc, out, summary.edges())?;
    write_class(alloc, out, summary, Class::Constant)?;
    write_class(alloc, out, summary, Class::Linear)?;
    write_class(alloc, out, summary, Class::Quadratic)
}

/// Appends the lines of constraints with so many edges each.
fn write_constraints(alloc: Global, out: &mut Vec<u8>, counts: &[u64]) -> Result<(), AllocError>
    ensures ok { OnOk result (out.new.items ≡ out.old.items ++ constraint_lines 0 counts.now) }
    ensures err { OnErr result (AppendsPart out.old.items out.new.items (constraint_lines 0 counts.now)) }
{
    for c in 0..counts.len() {
        write_constraint(alloc, out, c as u64, counts[c])?;
    }
    Ok(())
}

/// Appends the line of a constraint with so many edges.
fn write_constraint(
    alloc: Global,
    out: &mut Vec<u8>,
    constraint: u64,
    edges: u64,
) -> Result<(), AllocError>
    ensures ok { OnOk result (out.new.items ≡ out.old.items ++ constraint_line constraint edges) }
    ensures err { OnErr result (AppendsPart out.old.items out.new.items (constraint_line constraint edges)) }
{
    out.extend_from_slice(b"constraint ")?;
    write_decimal(alloc, out, constraint)?;
    write_last(alloc, out, edges)
}

/// Appends the line of a class of a summary.
fn write_class(
    alloc: Global,
    out: &mut Vec<u8>,
    summary: &Summary,
    class: Class,
) -> Result<(), AllocError>
    ensures ok { OnOk result (out.new.items ≡ out.old.items ++ class_line class (queries_in summary.now class)) }
    ensures err { OnErr result (AppendsPart out.old.items out.new.items (class_line class (queries_in summary.now class))) }
{
    out.extend_from_slice(b"class ")?;
    out.extend_from_slice(class_word(class))?;
    write_last(alloc, out, summary.queries(class))
}

/// The word of a class.
fn class_word(class: Class) -> &'static [u8]
    ensures { result.now ≡ class_word class }
{
    match class {
        Class::Constant => b"constant",
        Class::Linear => b"linear",
        Class::Quadratic => b"quadratic",
    }
}

/// Appends the last word of a line, a number, and ends the line.
fn write_last(alloc: Global, out: &mut Vec<u8>, n: u64) -> Result<(), AllocError>
    ensures ok { OnOk result (out.new.items ≡ out.old.items ++ (32 ∷ (decimal n ++ 10 ∷ []))) }
    ensures err { OnErr result (AppendsPart out.old.items out.new.items (32 ∷ (decimal n ++ 10 ∷ []))) }
{
    out.push(b' ')?;
    write_decimal(alloc, out, n)?;
    out.push(b'\n')?;
    Ok(())
}
