ghost use Rattle.std.specs.Prelude.{◌≡◌, ◌<◌, length, IfOk};

use crate::samples::{Entries, entries};
use sel_algebra::Class::{self, Constant, Linear, Quadratic};
use sel_algebra::Kind::{self, Fixed, Growing};
use sel_algebra::Op::{self, Cross, Diamond, Equal, Greater, Less};
use sel_algebra::{Matrix, class_of, compose, join, mirror, normal, star};
use std::alloc::{AllocError, Global};

#[test]
fn compositions(rt: HostRuntime) {
    for (first, second, from, to, path, class) in [
        (Greater, Less, Growing, Growing, Cross, Quadratic),
        (Less, Greater, Growing, Growing, Diamond, Linear),
        (Less, Greater, Fixed, Fixed, Equal, Constant),
        (Cross, Equal, Fixed, Growing, Less, Linear),
        (Equal, Diamond, Growing, Fixed, Greater, Linear),
    ] {
        let whole = normal(compose(first, second), from, to);
        assert_eq!(rt; (whole, class_of(whole, from, to)), (path, class));
    }
}

#[test]
fn unions(rt: HostRuntime) {
    for (a, b, union) in [
        (Less, Greater, Diamond),
        (Equal, Greater, Greater),
        (Cross, Diamond, Cross),
    ] {
        assert_eq!(rt; join(a, b), union);
    }
}

#[test]
fn repetitions_and_mirrors(rt: HostRuntime) {
    for (op, repeated, back) in [
        (Equal, Equal, Equal),
        (Less, Less, Greater),
        (Greater, Greater, Less),
        (Diamond, Cross, Diamond),
        (Cross, Cross, Cross),
    ] {
        assert_eq!(rt; (star(op), mirror(op)), (repeated, back));
    }
}

/// The matrix over two types of these kinds with the normal forms of these entries, row by row.
fn matrix(alloc: Global, kinds: &[Kind], entries: Entries) -> Result<Matrix, AllocError>
    requires { length kinds.now ≡ 2 }
    ensures { IfOk result (λ matrix. matrix.kinds ≡ kinds.now) }
{
    let [first, second, third, fourth] = entries;
    let mut matrix = Matrix::zero(alloc, kinds)?;
    set_if(&mut matrix, 0, 0, first);
    set_if(&mut matrix, 0, 1, second);
    set_if(&mut matrix, 1, 0, third);
    set_if(&mut matrix, 1, 1, fourth);
    Ok(matrix)
}

/// Sets an entry of a matrix to that of an operator, if there is one.
fn set_if(matrix: &mut Matrix, from: u8, to: u8, op: Option<Op>)
    requires from { from < length matrix.old.kinds }
    requires to { to < length matrix.old.kinds }
    ensures { matrix.new.kinds ≡ matrix.old.kinds }
{
    if let Some(op) = op {
        matrix.set(from, to, op);
    }
}

/// The entries of the closure of a matrix, and whether it is over types of these kinds.
fn closed(alloc: Global, steps: &Matrix, kinds: &[Kind]) -> Option<(Option<Entries>, bool)> {
    let Ok(closure) = steps.closure(alloc) else {
        return None;
    };
    Some((entries(&closure), closure.kinds() == kinds))
}

/// The closure of the matrix over two types of these kinds with the normal forms of these entries.
fn closure_of(alloc: Global, kinds: [Kind; 2], steps: Entries) -> Option<(Option<Entries>, bool)> {
    let Ok(steps) = matrix(alloc, &kinds, steps) else {
        return None;
    };
    closed(alloc, &steps, &kinds)
}

#[test]
fn closures(rt: HostRuntime) {
    let diagonal = [Some(Equal), None, None, Some(Equal)];
    for (kinds, steps, expected) in [
        (
            [Growing, Growing],
            [None, Some(Equal), None, None],
            [Some(Equal), Some(Equal), None, Some(Equal)],
        ),
        (
            [Growing, Fixed],
            [Some(Diamond), None, None, None],
            [Some(Cross), None, None, Some(Equal)],
        ),
        ([Fixed, Growing], diagonal, diagonal),
        ([Fixed, Growing], [None, None, None, None], diagonal),
    ] {
        let found = closure_of(rt.alloc(), kinds, steps);
        assert_eq!(rt; found, Some((Some(expected), true)));
    }
}

/// The entries of the product of two matrices over the same types, and its greatest class.
fn product_of(
    alloc: Global,
    first: &Matrix,
    second: &Matrix,
) -> Option<(Option<Entries>, Option<Class>)>
    requires { second.now.kinds ≡ first.now.kinds }
{
    let Ok(path) = first.times(alloc, second) else {
        return None;
    };
    Some((entries(&path), path.greatest_class()))
}

/// The entries of the union of two matrices over the same types.
fn union_of(alloc: Global, first: &Matrix, second: &Matrix) -> Option<Entries>
    requires { second.now.kinds ≡ first.now.kinds }
{
    let Ok(union) = first.plus(alloc, second) else {
        return None;
    };
    entries(&union)
}

/// The product of two matrices over a fixed and a growing type with its greatest class, and the union of the two.
fn product_and_union(
    alloc: Global,
    first: Entries,
    second: Entries,
) -> Option<(Option<(Option<Entries>, Option<Class>)>, Option<Entries>)> {
    let kinds = [Fixed, Growing];
    let Ok(first) = matrix(alloc, &kinds, first) else {
        return None;
    };
    let Ok(second) = matrix(alloc, &kinds, second) else {
        return None;
    };
    Some((
        product_of(alloc, &first, &second),
        union_of(alloc, &first, &second),
    ))
}

#[test]
fn products_and_joins(rt: HostRuntime) {
    let along = [None, Some(Less), None, Some(Equal)];
    let back = [None, None, Some(Greater), Some(Equal)];
    let none = [None, None, None, None];
    for (first, second, path, class, sum) in [
        (
            back,
            along,
            [None, None, None, Some(Cross)],
            Some(Quadratic),
            [None, Some(Less), Some(Greater), Some(Equal)],
        ),
        (
            along,
            back,
            [Some(Equal), Some(Less), Some(Greater), Some(Equal)],
            Some(Linear),
            [None, Some(Less), Some(Greater), Some(Equal)],
        ),
        (none, along, none, None, along),
    ] {
        let found = product_and_union(rt.alloc(), first, second);
        assert_eq!(rt; found, Some((Some((Some(path), class)), Some(sum))));
    }
}

/// The matrix over 64 growing types with no entries.
fn zero_of_sixty_four(alloc: Global) -> Result<Matrix, AllocError>
    ensures { IfOk result (λ matrix. length matrix.kinds ≡ 64) }
{
    Matrix::zero(alloc, &[Growing; 64])
}

/// Entries between the first, the second and the last of 64 types, and the greatest class of all entries.
fn corners(matrix: &Matrix) -> Option<(Entries, Option<Class>)> {
    if matrix.kinds().len() != 64 {
        return None;
    }
    let entries = [
        matrix.get(0, 0),
        matrix.get(63, 63),
        matrix.get(1, 1),
        matrix.get(1, 63),
    ];
    Some((entries, matrix.greatest_class()))
}

/// The corners of the closure of a matrix.
fn closed_corners(alloc: Global, steps: &Matrix) -> Option<(Entries, Option<Class>)> {
    let Ok(closure) = steps.closure(alloc) else {
        return None;
    };
    corners(&closure)
}

/// The corners of the closure, where steps lead from the first of 64 types to the last and back.
fn corners_of_sixty_four(alloc: Global) -> Option<(Entries, Option<Class>)> {
    let Ok(mut steps) = zero_of_sixty_four(alloc) else {
        return None;
    };
    steps.set(0, 63, Diamond);
    steps.set(63, 0, Less);
    closed_corners(alloc, &steps)
}

#[test]
fn sixty_four_types(rt: HostRuntime) {
    let entries = [Some(Cross), Some(Cross), Some(Equal), None];
    assert_eq!(rt;
        corners_of_sixty_four(rt.alloc()),
        Some((entries, Some(Quadratic)))
    );
}
