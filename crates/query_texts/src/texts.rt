//! The texts of queries.

ghost use Rattle.std.specs.Prelude.{◌≡◌, IfOk};
ghost use Rattle.query_terms.specs.View.{query_value};
ghost use Rattle.workload_text.specs.Values.{IsQuery};
ghost use Rattle.query_texts.specs.Texts.{text_of};

use gm_files::QueryFile;
use query_terms::Query;
use sparql_emit::sparql_text;
use sql_emit::sql_text;
use std::alloc::{AllocError, Global};
use workload_text::WorkHead;

/// The text of a query of a workload with this head, in one of the two languages.
///
/// The query keeps the rules on queries under the head. It fails only where memory runs out.
pub fn query_text(
    alloc: Global,
    kind: QueryFile,
    head: &WorkHead,
    query: &Query<'_>,
) -> Result<Vec<u8>, AllocError>
    requires { IsQuery head.now (query_value query.now) }
    ensures { IfOk result (λ text. text.items ≡ text_of kind head.now.labels (query_value query.now)) }
{
    match kind {
        QueryFile::Sparql => sparql_text(alloc, query, head.labels()),
        QueryFile::Sql => sql_text(alloc, query),
    }
}
