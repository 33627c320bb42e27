use crate::samples::{between_two_types, within_one_type};
use bit_rows::BitRow;
use sel_algebra::Class::{self, Constant, Linear, Quadratic};
use sel_algebra::Op::{self, Cross, Diamond, Equal, Greater, Less};
use sel_graph::{Goal, Move, State};
use std::alloc::Global;

/// The state of a path: the type where it starts, the one to which it has come, and its operator.
fn state(path: (u8, u8, Op)) -> State {
    let (start, at, op) = path;
    State { start, at, op }
}

/// Whether so many symbols carry a state to a state, and `None` where there are no such states.
fn reaches(alloc: Global, from: State, to: State, len: u8) -> Option<bool> {
    if from.start < 2 && from.at < 2 && to.at < 2 && len <= 32 {
        let Ok(reach) = between_two_types(alloc, 1, false) else {
            return None;
        };
        Some(reach.reaches(from, to, len))
    } else {
        None
    }
}

#[test]
fn walks_of_exactly_so_many_symbols(rt: HostRuntime) {
    for row in [
        ((0, 0, Equal), (0, 1, Less), 1, true),
        ((0, 0, Equal), (0, 1, Less), 2, false),
        ((0, 0, Equal), (0, 0, Equal), 0, true),
        ((0, 0, Equal), (0, 0, Equal), 2, true),
        ((0, 0, Equal), (0, 1, Less), 15, true),
        ((0, 0, Equal), (0, 1, Less), 16, false),
        ((0, 0, Equal), (0, 1, Less), 31, true),
        ((0, 0, Equal), (0, 1, Less), 32, false),
        ((0, 0, Equal), (0, 0, Equal), 32, true),
        ((1, 1, Equal), (1, 1, Cross), 32, true),
        // the start stays
        ((0, 0, Equal), (1, 1, Equal), 1, false),
        // states whose operators aren't normal count too
        ((0, 0, Cross), (0, 0, Cross), 0, true),
        ((0, 0, Cross), (0, 0, Equal), 0, false),
        ((0, 0, Cross), (0, 1, Less), 1, true),
        // from growing to fixed, and back to growing: by way of few nodes
        ((1, 1, Equal), (1, 0, Greater), 1, true),
        ((1, 1, Equal), (1, 1, Cross), 2, true),
        ((1, 1, Equal), (1, 1, Equal), 2, false),
    ] {
        let (from, to, len, expected) = row;
        let found = reaches(rt.alloc(), state(from), state(to), len);
        assert!(rt; found == Some(expected), "{row:?}");
    }
}

/// Whether a row has one number alone.
fn has_alone(row: &BitRow<10>, number: u32) -> bool {
    for n in 0..320 {
        if row.get(n) != (n == number) {
            return false;
        }
    }
    true
}

/// Whether so many symbols carry a state to the state at one place alone, and `None` where there is no such state.
fn carries_to(alloc: Global, from: State, len: u8, place: u32) -> Option<bool> {
    if from.start < 2 && from.at < 2 && len <= 32 {
        let Ok(reach) = between_two_types(alloc, 1, false) else {
            return None;
        };
        Some(has_alone(reach.states_after(from, len), place))
    } else {
        None
    }
}

#[test]
fn states_after_so_many_symbols(rt: HostRuntime) {
    for row in [
        ((0, 0, Equal), 0, 0),
        ((0, 0, Equal), 1, 6),
        ((0, 0, Equal), 32, 0),
        // from growing to fixed, and back
        ((1, 1, Equal), 0, 5),
        ((1, 1, Equal), 1, 2),
        ((1, 1, Equal), 2, 9),
        // a state whose operator isn't normal
        ((0, 0, Cross), 0, 4),
        ((0, 0, Cross), 1, 6),
    ] {
        let (from, len, place) = row;
        let alone = carries_to(rt.alloc(), state(from), len, place);
        assert!(rt; alone == Some(true), "{row:?}");
    }
}

/// Whether a word of so many symbols leads from a type to a type with a value, and `None` where there are no such
/// types or no such word.
fn is_word(alloc: Global, len: u8, from: u8, to: u8, value: Op) -> Option<bool> {
    if 1 <= len && len <= 32 && from < 2 && to < 2 {
        let Ok(reach) = between_two_types(alloc, len, false) else {
            return None;
        };
        Some(reach.word(from, to, value))
    } else {
        None
    }
}

#[test]
fn moves_of_permitted_lengths(rt: HostRuntime) {
    for row in [
        (1, 0, 1, Less, true),
        (2, 0, 1, Less, false),
        (1, 0, 0, Equal, false),
        (2, 0, 0, Equal, true),
        (1, 1, 0, Greater, true),
        (2, 1, 0, Greater, false),
        (1, 1, 1, Cross, false),
        (2, 1, 1, Cross, true),
        (1, 1, 1, Equal, false),
        (2, 1, 1, Equal, false),
        (1, 0, 1, Diamond, false),
        (2, 0, 1, Diamond, false),
    ] {
        let (len, from, to, value, expected) = row;
        let found = is_word(rt.alloc(), len, from, to, value);
        assert!(rt; found == Some(expected), "{row:?}");
    }
}

/// Whether so many moves of so many symbols lead from a type to a type, and `None` where there are no such types or
/// moves.
fn joins(alloc: Global, len: u8, from: u8, to: u8, moves: u8) -> Option<bool> {
    if 1 <= len && len <= 32 && from < 2 && to < 2 && moves <= 8 {
        let Ok(reach) = between_two_types(alloc, len, false) else {
            return None;
        };
        Some(reach.joins(from, to, moves))
    } else {
        None
    }
}

#[test]
fn types_joined_by_moves(rt: HostRuntime) {
    for row in [
        (1, 0, 0, 2, true),
        (2, 0, 0, 2, true),
        (1, 0, 0, 1, false),
        (2, 0, 0, 1, true),
        (1, 0, 1, 1, true),
        (2, 0, 1, 1, false),
        (1, 1, 0, 8, false),
        (2, 1, 0, 8, false),
        (1, 1, 1, 0, true),
        (2, 1, 1, 0, true),
    ] {
        let (len, from, to, moves, expected) = row;
        let found = joins(rt.alloc(), len, from, to, moves);
        assert!(rt; found == Some(expected), "{row:?}");
    }
}

/// Whether one move of so many symbols carries the state at the start of type 0 to a state, and `None` where there is
/// no such state or move.
fn steps(alloc: Global, len: u8, to: State) -> Option<bool> {
    if 1 <= len && len <= 32 && to.at < 2 {
        let Ok(reach) = between_two_types(alloc, len, false) else {
            return None;
        };
        Some(reach.step(State::begun(0), to))
    } else {
        None
    }
}

#[test]
fn steps_of_one_move(rt: HostRuntime) {
    for row in [
        (1, Less, true),
        (2, Less, false),
        (1, Cross, false),
        (2, Cross, false),
    ] {
        let (len, op, expected) = row;
        let found = steps(rt.alloc(), len, state((0, 1, op)));
        assert!(rt; found == Some(expected), "{row:?}");
    }
}

/// Whether so many moves of so many symbols from a type can meet a goal, and `None` where there is no such type, move
/// or goal.
fn is_feasible(alloc: Global, len: u8, start: u8, moves: u8, goal: Goal) -> Option<bool> {
    if 1 <= len && len <= 32 && start < 2 && moves <= 8 && goal.second <= 4 {
        let Ok(reach) = between_two_types(alloc, len, false) else {
            return None;
        };
        Some(reach.feasible(State::begun(start), moves, goal))
    } else {
        None
    }
}

#[test]
fn goals_that_can_be_met(rt: HostRuntime) {
    for row in [
        (1, 0, 1, Linear, 0, true),
        (2, 0, 1, Linear, 0, false),
        (1, 1, 1, Linear, 0, true),
        (2, 1, 1, Linear, 0, false),
        (1, 0, 1, Constant, 0, false),
        (2, 0, 1, Constant, 0, true),
        (1, 0, 2, Constant, 0, true),
        (2, 0, 2, Constant, 0, true),
        (1, 1, 1, Quadratic, 0, false),
        (2, 1, 1, Quadratic, 0, true),
        (1, 0, 1, Linear, 1, true),
        (2, 0, 1, Linear, 1, false),
        (1, 0, 1, Linear, 2, false),
        (2, 0, 1, Linear, 2, false),
        (1, 0, 1, Constant, 4, false),
        (2, 0, 1, Constant, 4, true),
    ] {
        let (len, start, moves, class, second, expected) = row;
        let found = is_feasible(rt.alloc(), len, start, moves, Goal { class, second });
        assert!(rt; found == Some(expected), "{row:?}");
    }
}

/// The number of types, whether words are starred, whether a starred move of `=` is a move, and to which state it
/// leads from the start.
fn by_a_star(alloc: Global) -> Option<(u8, bool, bool, State)> {
    let starred = Move {
        star: true,
        to: 0,
        value: Equal,
    };
    let Ok(reach) = within_one_type(alloc, 32, true) else {
        return None;
    };
    Some((
        reach.type_count(),
        reach.stars(),
        reach.is_move(0, starred),
        reach.moved(State::begun(0), starred),
    ))
}

#[test]
fn a_starred_move_of_equal(rt: HostRuntime) {
    let found = by_a_star(rt.alloc());
    assert_eq!(rt; found, Some((1, true, true, State::begun(0))));
}

/// Whether so many moves can meet a goal of this class, starred or not, and `None` where moves aren't so many.
fn is_feasible_by_stars(alloc: Global, moves: u8, class: Class) -> Option<bool> {
    if moves <= 8 {
        let goal = Goal { class, second: 0 };
        let Ok(reach) = within_one_type(alloc, 32, true) else {
            return None;
        };
        Some(reach.feasible(State::begun(0), moves, goal))
    } else {
        None
    }
}

/// Whether each number of moves from 1 to 8 can meet a goal of this class, and `None` where only some can.
fn all_feasible_by_stars(alloc: Global, class: Class) -> Option<bool> {
    let first = is_feasible_by_stars(alloc, 1, class);
    for moves in 2..=8 {
        if is_feasible_by_stars(alloc, moves, class) != first {
            return None;
        }
    }
    first
}

#[test]
fn stars_of_equal_stay_equal(rt: HostRuntime) {
    for (class, expected) in [(Constant, false), (Linear, true), (Quadratic, false)] {
        assert_eq!(rt; all_feasible_by_stars(rt.alloc(), class), Some(expected));
    }
}
