//! The reader of workload texts.

ghost use Rattle.std.specs.Prelude.{◌≡◌, ℕ, true, IfOk, IsErrOf, Ok};
ghost use Rattle.workload_text.specs.Sofar.{after_conjunct, value_of};
ghost use Rattle.workload_text.specs.Rules.{TextLine, follows, sort_of_line, after_end, heads_occur, verdict_of, IsFirstBroken};
ghost use Rattle.workload_text.specs.State.{sofar_of, IsUsable, IsAccepted};
ghost use Rattle.workload_text.specs.Reader.{broken_early, may_close, IsTaken};
ghost use Rattle.workload_text.specs.View.{line_view, sort_view, IsOfSort};

use crate::sorts::{Sort, first_word, follows, is_after_conjunct, sort_of};
use crate::state::Reading;
use crate::written::{Written, read_line};
use gm_text::{Arena, Line, Scan};
use std::alloc::{AllocError, Global};
use thiserror::Error;

/// Why a text is no workload.
#[derive(Debug, Drop, Error)]
pub enum WorkloadError {
    /// This line, counted from 1, is the first that breaks a rule, and this is the least that it breaks, from 1 to 9.
    #[error("line {line} breaks rule F{rule}")]
    BadWorkload {
        /// The number of the line. A line that is missing has the number after the last.
        line: u64,
        /// The number of the rule.
        rule: u8,
    },
    /// Memory ran out.
    #[error("out of memory")]
    NoMemory,
}

impl From<AllocError> for WorkloadError {
    ghost use Rattle.workload_text.specs.declared.reader.WorkloadError.TheVariants.{NoMemory};

    ghost from_gives = { λ _ error. error ≡ NoMemory };

    fn from(_: AllocError) -> Self {
        WorkloadError::NoMemory
    }
}

/// Reads all lines.
pub(crate) fn read_lines<'a>(
    alloc: Global,
    bytes: &[u8],
    arena: &'a Arena,
) -> Result<Reading<'a>, WorkloadError>
    ensures value { IfOk result (λ reading. verdict_of bytes.now ≡ Ok (value_of (sofar_of reading))) }
    ensures bad { (line rule : ℕ) → IsErrOf result (WorkloadError.BadWorkload line rule) → IsFirstBroken bytes.now line rule }
{
    let mut reading = Reading::new(alloc, arena)?;
    let mut number = 1u64;
    let mut scan = Scan::new(bytes);
    while let Some(line) = scan.next_line() {
        if let Some(rule) = take(&mut reading, alloc, arena, &line)? {
            return Err(WorkloadError::BadWorkload { line: number, rule });
        }
        number += 1;
    }
    if !is_after_end(reading.last) {
        return Err(WorkloadError::BadWorkload {
            line: number,
            rule: 1,
        });
    }
    Ok(reading)
}

/// Takes a line, or gives the least rule that it breaks.
fn take<'a>(
    reading: &mut Reading<'a>,
    alloc: Global,
    arena: &'a Arena,
    line: &Line<'_>,
) -> Result<Option<u8>, AllocError>
    requires usable { IsUsable reading.old }
    ensures { IfOk result (λ rule. IsTaken (sofar_of reading.old) (line.now.bytes.now, line.now.ended) rule reading.new) }
{
    if let Some(rule) = early(reading, line) {
        return Ok(Some(rule));
    }
    let Some(sort) = sort_of(first_word(line.bytes)) else {
        return Ok(Some(2));
    };
    let Some(written) = read_line(line.bytes, reading.front.format, sort) else {
        return Ok(Some(4));
    };
    accept(reading, alloc, arena, written)
}

/// The least of the rules 9, 1, 2 and 3 that a line breaks, in this order.
fn early(reading: &Reading<'_>, line: &Line<'_>) -> Option<u8>
    requires usable { IsUsable reading.now }
    ensures { result ≡ broken_early (sofar_of reading.now) (line.now.bytes.now, line.now.ended) }
{
    if is_after_end(reading.last) {
        return Some(9);
    }
    if !line.ended {
        return Some(1);
    }
    let Some(sort) = sort_of(first_word(line.bytes)) else {
        return Some(2);
    };
    if !follows(reading.last, sort) {
        return Some(2);
    }
    if !may_close(reading, sort) {
        return Some(3);
    }
    None
}

/// Whether a line of this sort goes on with the conjuncts of the rule, or the rule may end before it.
fn may_close(reading: &Reading<'_>, sort: Sort) -> bool
    requires usable { IsUsable reading.now }
    ensures { result ≡ may_close (sofar_of reading.now) sort }
{
    !is_after_conjunct(reading.last) || is_after_conjunct(Some(sort)) || reading.heads_occur()
}

/// Whether the last line is `end`.
fn is_after_end(last: Option<Sort>) -> bool
    ensures { result ≡ after_end last }
{
    match last {
        Some(Sort::End) => true,
        _ => false,
    }
}

/// Takes a line that has its form and may stand here, or gives the least of the rules 5 to 8 that it breaks.
fn accept<'a>(
    reading: &mut Reading<'a>,
    alloc: Global,
    arena: &'a Arena,
    written: Written<'_>,
) -> Result<Option<u8>, AllocError>
    requires usable { IsUsable reading.old }
    requires form { IsOfSort (sort_view written) written }
    requires stands { follows reading.old.last (sort_view written) ≡ true }
    requires closes { may_close (sofar_of reading.old) (sort_view written) ≡ true }
    ensures { IfOk result (λ rule. IsAccepted (sofar_of reading.old) (line_view written.entry) rule reading.new) }
{
    match written {
        Written::First(format) => Ok(reading.first(format)),
        Written::Label(name) => reading.label(alloc, name),
        Written::NodeType(name, kind) => reading.node_type(alloc, name, kind),
        Written::Edge(source, label, target, op) => reading.edge(source, label, target, op),
        Written::Query(number, asked) => reading.query(alloc, arena, number, asked),
        Written::Rule(mut words) => reading.rule(&mut words),
        Written::Conjunct(src, trg, star, words) => reading.conjunct(src, trg, star, words),
        Written::End => reading.end(alloc, arena),
    }
}
