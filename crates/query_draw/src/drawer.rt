//! What a rule is drawn from.

ghost use Rattle.std.specs.Prelude.{◌≡◌, ◌<◌};
ghost use Rattle.seeded_draw.specs.Draw.{word};
ghost use Rattle.gm_config.specs.WorkloadRules.{IsWorkload};
ghost use Rattle.sel_graph.specs.Moves.{IsReach};
ghost use Rattle.query_draw.specs.Drawn.{conjunct_place, word_place, wants_star, word_count};

use crate::drawing::draw_from;
use gm_config::Workload;
use schema_graph::Schema;
use seeded_draw::{Draws, pick, word_at};
use sel_graph::Reach;

/// What a rule is drawn from.
#[derive(Drop)]
pub(crate) struct Drawer<'a> {
    /// What is asked of the queries.
    pub workload: &'a Workload,
    /// The schema.
    pub schema: &'a Schema,
    /// What can be reached in it.
    pub reach: &'a Reach,
    /// The seed.
    pub seed: u64,
    /// The stream of the rule's random words.
    pub stream: u128,
    pub ghost workload_is: { IsWorkload workload.now },
    pub ghost reach_is: { IsReach reach.now },
    pub ghost schema_is: { reach.now.schema ≡ schema.now },
    pub ghost lengths_are: { reach.now.lengths ≡ workload.now.length },
}

impl<'a> Drawer<'a> {
    /// The random word at a place.
    pub fn random_word(&self, place: u64) -> u64
        ensures { result ≡ word self.now.seed self.now.stream place }
    {
        word_at(self.seed, self.stream, place)
    }

    /// The random words from a place on.
    pub fn words_from(&self, place: u64) -> Draws
        ensures { result ≡ record { seed = self.now.seed; stream = self.now.stream; taken = place } }
    {
        Draws::after(self.seed, self.stream, place)
    }

    /// Whether a starred move is wanted for conjunct `i`.
    pub fn wants_star(&self, i: u8) -> bool
        ensures { result ≡ wants_star self.now.workload.now (word self.now.seed self.now.stream) i }
    {
        pick(self.random_word(conjunct_place(i)), 1000) < u64::from(self.workload.star)
    }

    /// The number of words of conjunct `i`.
    pub fn word_count(&self, i: u8) -> u8
        ensures count { result ≡ word_count self.now.workload.now (word self.now.seed self.now.stream) i }
        ensures some { 0 < result }
        ensures few { result < 9 }
    {
        draw_from(
            self.workload.disjuncts,
            self.random_word(conjunct_place(i) + 2),
        )
    }
}

/// The first place of conjunct `i`.
pub(crate) fn conjunct_place(i: u8) -> u64
    ensures place { result ≡ conjunct_place i }
    ensures small { result < 262144 }
{
    16 + 1024 * u64::from(i)
}

/// The place of word `j` of conjunct `i`. Behind it are those of its symbols.
pub(crate) fn word_place(i: u8, j: u8) -> u64
    ensures place { result ≡ word_place i j }
    ensures small { result < 2097152 }
{
    conjunct_place(i) + 16 + 64 * u64::from(j)
}
