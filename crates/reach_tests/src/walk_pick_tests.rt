ghost use Rattle.std.specs.Prelude.{◌≡◌, length};

use crate::samples::{between_two_types, one_type, reach_of, within_one_type};
use gm_config::Range;
use schema_graph::Schema;
use sel_algebra::Class::{self, Constant, Linear, Quadratic};
use sel_algebra::Op::{Cross, Equal, Less};
use sel_algebra::Shape::{self, Chain, Cycle, Star, StarChain};
use sel_algebra::Symbol;
use sel_graph::{Goal, Reach, State};
use std::alloc::Global;
use walk_pick::*;

/// The least word, one of the middle, and the greatest.
const WORDS: [u64; 3] = [0, 1 << 63, u64::MAX];

/// The plain move over the edge from one type to the other.
const OVER: Move = Move {
    star: false,
    to: 1,
    value: Less,
};

/// The numbers of conjuncts that the words pick from 1 to the most that is asked, at most 8.
fn counts_in(reach: &Reach, asked: (Shape, Class, u8)) -> [Option<u8>; 3] {
    let (shape, class, most) = asked;
    let range = Range {
        least: 1,
        most: most.min(8),
    };
    [
        pick_count(reach, shape, class, range, WORDS[0]),
        pick_count(reach, shape, class, range, WORDS[1]),
        pick_count(reach, shape, class, range, WORDS[2]),
    ]
}

/// The numbers of conjuncts that the words pick, by words of so many symbols between two types, and `None` where no
/// word has so many.
fn counts_of(alloc: Global, len: u8, asked: (Shape, Class, u8)) -> Option<[Option<u8>; 3]> {
    if 1 <= len && len <= 32 {
        let Ok(reach) = between_two_types(alloc, len, false) else {
            return None;
        };
        Some(counts_in(&reach, asked))
    } else {
        None
    }
}

#[test]
fn numbers_of_conjuncts(rt: HostRuntime) {
    for (len, asked, picked) in [
        (2, (Chain, Linear, 1), [None, None, None]),
        (1, (Chain, Linear, 1), [Some(1), Some(1), Some(1)]),
        // odd numbers of moves lead from one type to the other
        (1, (Chain, Linear, 8), [Some(1), Some(5), Some(7)]),
        (1, (Chain, Constant, 8), [Some(2), Some(6), Some(8)]),
        // a spine of one move, and then of half of the conjuncts
        (1, (Star, Linear, 8), [Some(1), Some(5), Some(8)]),
        (1, (StarChain, Constant, 8), [Some(3), Some(7), Some(8)]),
        (1, (Cycle, Linear, 8), [Some(2), Some(6), Some(6)]),
        (1, (Cycle, Linear, 1), [None, None, None]),
    ] {
        assert_eq!(rt; counts_of(rt.alloc(), len, asked), Some(picked));
    }
}

/// The numbers of conjuncts that the words pick, where one edge joins the nodes of one type by `=`.
fn counts_by_stars(alloc: Global, asked: (Shape, Class, u8)) -> Option<[Option<u8>; 3]> {
    let Ok(reach) = within_one_type(alloc, 32, true) else {
        return None;
    };
    Some(counts_in(&reach, asked))
}

#[test]
fn a_star_of_an_equal_value_is_equal(rt: HostRuntime) {
    assert_eq!(rt;
        counts_by_stars(rt.alloc(), (Chain, Quadratic, 8)),
        Some([None, None, None])
    );
}

/// The type that a word picks for the start of one move that meets a goal of a class.
fn start_of(alloc: Global, class: Class, w: u64) -> Option<Option<u8>> {
    let goal = Goal { class, second: 0 };
    let Ok(reach) = between_two_types(alloc, 1, true) else {
        return None;
    };
    Some(pick_start(&reach, 1, goal, w))
}

#[test]
fn starts(rt: HostRuntime) {
    for (w, class, start) in [
        (WORDS[0], Linear, Some(0)),
        (WORDS[1], Linear, Some(1)),
        (WORDS[2], Linear, Some(1)),
        (WORDS[0], Quadratic, None),
    ] {
        assert_eq!(rt; start_of(rt.alloc(), class, w), Some(start));
    }
}

/// The moves that a word picks from one type to the other, as the last one and with one more to come: two that meet
/// a goal, and two of a second path.
fn moves_of(alloc: Global, star: bool, w: u64) -> Option<[Option<Move>; 4]> {
    let goal = Goal {
        class: Linear,
        second: 0,
    };
    let Ok(reach) = between_two_types(alloc, 1, true) else {
        return None;
    };
    Some([
        pick_move(&reach, State::begun(0), 0, goal, star, w),
        pick_move(&reach, State::begun(0), 1, goal, star, w),
        pick_link(&reach, 0, 1, 0, star, w),
        pick_link(&reach, 0, 1, 1, star, w),
    ])
}

#[test]
fn moves_of_either_kind(rt: HostRuntime) {
    // no word of one symbol leads from a type to itself, so none may be starred
    for (star, w) in [(false, 0), (true, 0), (false, u64::MAX), (true, u64::MAX)] {
        assert_eq!(rt;
            moves_of(rt.alloc(), star, w),
            Some([Some(OVER), None, Some(OVER), None])
        );
    }
}

/// The move of an arm that a word picks, where words may be starred or not and a starred move is wanted or not.
fn arm_of(alloc: Global, stars: bool, wanted: bool) -> Option<Option<Move>> {
    let Ok(reach) = within_one_type(alloc, 16, stars) else {
        return None;
    };
    Some(pick_arm(&reach, 0, wanted, 7))
}

#[test]
fn arms_of_the_wanted_kind(rt: HostRuntime) {
    for (stars, wanted, star) in [
        (true, true, true),
        (true, false, false),
        (false, true, false),
        (false, false, false),
    ] {
        let picked = Move {
            star,
            to: 0,
            value: Equal,
        };
        assert_eq!(rt; arm_of(rt.alloc(), stars, wanted), Some(Some(picked)));
    }
}

/// The length in a range that `w` picks for a word from one type to the other, and `None` where no word may have all
/// lengths of the range.
fn length_of(alloc: Global, least: u8, most: u8, w: u64) -> Option<Option<u8>> {
    if least >= 1 && most <= 32 {
        let Ok(reach) = between_two_types(alloc, 1, false) else {
            return None;
        };
        Some(pick_length(&reach, 0, OVER, Range { least, most }, w))
    } else {
        None
    }
}

#[test]
fn lengths(rt: HostRuntime) {
    // words of an odd length lead from one type to the other, whatever lengths are permitted
    for (w, least, most, length) in [
        (WORDS[0], 1, 16, Some(1)),
        (WORDS[1], 1, 16, Some(9)),
        (WORDS[2], 1, 16, Some(15)),
        (WORDS[0], 1, 32, Some(1)),
        (WORDS[1], 1, 32, Some(17)),
        (WORDS[2], 1, 32, Some(31)),
        (WORDS[2], 2, 4, Some(3)),
        (WORDS[0], 2, 2, None),
        (WORDS[0], 5, 4, None),
    ] {
        assert_eq!(rt; length_of(rt.alloc(), least, most, w), Some(length));
    }
}

/// The first of 32 symbols that a word picks in a schema of one type: to the state at the start, and to one that no
/// word reaches.
fn symbols_in(alloc: Global, schema: &Schema, w: u64) -> Option<[Option<Symbol>; 2]>
    requires { length schema.now.kinds ≡ 1 }
{
    let begun = State::begun(0);
    let never = State {
        start: 0,
        at: 0,
        op: Cross,
    };
    let Ok(reach) = reach_of(alloc, schema, 1, 1, false) else {
        return None;
    };
    Some([
        pick_symbol(&reach, schema, begun, begun, 31, w),
        pick_symbol(&reach, schema, begun, never, 31, w),
    ])
}

/// The first symbols that a word picks, where one edge joins the nodes of one type by `=`.
fn symbols_of(alloc: Global, w: u64) -> Option<[Option<Symbol>; 2]> {
    let Ok(schema) = one_type(alloc) else {
        return None;
    };
    symbols_in(alloc, &schema, w)
}

#[test]
fn symbols(rt: HostRuntime) {
    for (w, back) in [(WORDS[0], false), (WORDS[1], true), (WORDS[2], true)] {
        let symbol = Symbol { edge: 0, back };
        assert_eq!(rt; symbols_of(rt.alloc(), w), Some([Some(symbol), None]));
    }
}
