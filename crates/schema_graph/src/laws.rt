//! The laws of schemas. Each is the contract of a function that does nothing.
ghost use Rattle.std.specs.Prelude.{◌≡◌};
ghost use Rattle.sel_algebra.specs.Table.{types_most};
ghost use Rattle.gm_config.specs.Limits.{labels_most};
ghost use Rattle.schema_graph.specs.Schema.{edges_most};

use crate::{EDGES_MOST, LABELS_MOST, TYPES_MOST};

/// [`TYPES_MOST`] is the most types of a schema, [`EDGES_MOST`] the most edges and [`LABELS_MOST`] the most labels.
pub fn limits_are_exact()
    ensures types { TYPES_MOST ≡ types_most }
    ensures edges { EDGES_MOST ≡ edges_most }
    ensures labels { LABELS_MOST ≡ labels_most }
{}
