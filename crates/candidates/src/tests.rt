ghost use Rattle.std.specs.Prelude.{◌≤◌, ◌%◌, ◌==◌};
ghost use Rattle.candidates.specs.Picked.{candidates_most};

use super::*;

/// The numbers below `count`, of which those that leave `rest` by `step` are live.
#[derive(Drop)]
struct Spaced {
    step: u32,
    rest: u32,
    count: u32,
    ghost positive: { 1 ≤ step },
    ghost few: { count ≤ candidates_most },
}

impl Candidates for Spaced {
    ghost live = { λ s i. i % s.step == s.rest };

    ghost range = { λ s. s.count };

    fn numbers(&self) -> u32 {
        self.count
    }

    fn is_live(&self, i: u32) -> bool {
        i % self.step == self.rest
    }
}

#[test]
fn each_word_picks_a_live_candidate(rt: HostRuntime) {
    let multiples = Spaced {
        step: 3,
        rest: 0,
        count: 10,
    };
    for (word, picked) in [
        (0, 0),
        ((1 << 62) - 1, 0),
        (1 << 62, 3),
        (1 << 63, 6),
        (3 << 62, 9),
        (u64::MAX, 9),
    ] {
        assert_eq!(rt; pick_among(&multiples, word), Some(picked));
    }
}

#[test]
fn none_is_picked_where_none_is_live(rt: HostRuntime) {
    let none_live = Spaced {
        step: 3,
        rest: 3,
        count: 10,
    };
    let no_candidates = Spaced {
        step: 3,
        rest: 0,
        count: 0,
    };
    for word in [0, 1 << 63, u64::MAX] {
        assert_eq!(rt; pick_among(&none_live, word), None);
        assert_eq!(rt; pick_among(&no_candidates, word), None);
    }
}
