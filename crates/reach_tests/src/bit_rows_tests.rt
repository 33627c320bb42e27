use bit_rows::{BitRow, Grid};
use std::alloc::Global;

/// The row with one number alone.
fn alone(n: u32) -> BitRow<5> {
    let mut row = BitRow::empty();
    if n < 160 {
        row.set(n);
    }
    row
}

/// The row with the least and the greatest number alone.
fn both_ends() -> BitRow<5> {
    let mut row = BitRow::empty();
    row.set(0);
    row.set(159);
    row
}

/// Whether the row of both ends has a number, and `None` where rows have no such number.
fn has_number(n: u32) -> Option<bool> {
    if n < 160 {
        Some(both_ends().get(n))
    } else {
        None
    }
}

#[test]
fn numbers_of_a_row(rt: HostRuntime) {
    for (n, is) in [
        (0, true),
        (1, false),
        (31, false),
        (32, false),
        (158, false),
        (159, true),
    ] {
        assert!(rt; has_number(n) == Some(is), "{n}");
    }
}

/// Whether the row of both ends meets the row with one number alone.
fn meets_alone(n: u32) -> bool {
    both_ends().meets(&alone(n))
}

#[test]
fn rows_that_meet(rt: HostRuntime) {
    for (n, expected) in [(0, true), (158, false), (159, true)] {
        assert!(rt; meets_alone(n) == expected, "{n}");
    }
}

/// The least number from `n` on that the row of both ends has.
fn next_from(n: u32) -> Option<u32> {
    both_ends().next(n)
}

#[test]
fn the_next_number(rt: HostRuntime) {
    for (n, expected) in [
        (0, Some(0)),
        (1, Some(159)),
        (159, Some(159)),
        (160, None),
        (1000, None),
    ] {
        assert!(rt; next_from(n) == expected, "{n}");
    }
}

/// The first five numbers of the union of three rows, as far as there are so many.
fn numbers_of_either() -> [Option<u32>; 5] {
    let mut row = both_ends();
    row.or_row(&alone(31));
    row.or_row(&alone(32));
    let mut numbers = row.numbers();
    [
        numbers.next(),
        numbers.next(),
        numbers.next(),
        numbers.next(),
        numbers.next(),
    ]
}

#[test]
fn rows_of_either(rt: HostRuntime) {
    let expected = [Some(0), Some(31), Some(32), Some(159), None];
    assert_eq!(rt; numbers_of_either(), expected);
}

/// Whether a grid of no rows can be made.
fn none_is_made(alloc: Global) -> bool {
    Grid::<5>::new(alloc, 0).is_ok()
}

/// Whether each of two rows has a number that was set in the second.
fn set_in_the_second(alloc: Global) -> Option<(bool, bool)> {
    let Ok(mut grid) = Grid::<5>::new(alloc, 2) else {
        return None;
    };
    grid.row_mut(1).set(100);
    Some((grid.row(0).get(100), grid.row(1).get(100)))
}

#[test]
fn grids_of_rows(rt: HostRuntime) {
    assert!(rt; none_is_made(rt.alloc()));
    assert_eq!(rt; set_in_the_second(rt.alloc()), Some((false, true)));
}
