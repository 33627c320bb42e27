//! The configuration model for the constraints of a schema: stubs by degree, in the order of random keys, and
//! the edges that join them.
#![tactic(auto)]

mod config_edges;
mod config_sides;
mod drawing;
mod edge_stream;
mod errors;
mod free_side;
pub mod laws;
mod sides;
mod stubs;

pub use config_sides::{Side, is_free};
pub use drawing::{Degrees, first_over, side_degrees, side_total};
pub use edge_stream::{EdgeStream, match_edges};
pub use errors::{MatchError, TooManyStubs};
