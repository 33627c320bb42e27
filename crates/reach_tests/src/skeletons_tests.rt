ghost use Rattle.std.specs.Prelude.{◌≡◌};

use sel_algebra::Shape::{self, Chain, Cycle, Star, StarChain};
use skeletons::{CONJUNCTS_MOST, Skeleton};

/// The skeleton of a shape with `k` conjuncts, and `None` where the shape can't have so many.
fn skeleton(shape: Shape, k: u8) -> Option<Skeleton> {
    let least = if matches!(shape, Cycle) { 2 } else { 1 };
    if least <= k && k <= CONJUNCTS_MOST {
        Some(Skeleton::of(shape, k))
    } else {
        None
    }
}

/// The numbers of a skeleton: spine, second path, arms and variables.
fn parts(skeleton: Skeleton) -> (u8, u8, u8, u8) {
    (
        skeleton.spine(),
        skeleton.second(),
        skeleton.arms(),
        skeleton.variables(),
    )
}

/// Whether the conjuncts of a skeleton have these ends.
fn has_ends(skeleton: Skeleton, ends: &[(u8, u8)]) -> bool {
    let count = skeleton.spine() + skeleton.second() + skeleton.arms();
    if count as usize != ends.len() {
        return false;
    }
    for i in 0..count {
        if skeleton.ends(i) != ends[i as usize] {
            return false;
        }
    }
    true
}

/// The numbers of the skeleton of a shape with `k` conjuncts, and whether its conjuncts have these ends.
fn parts_with(shape: Shape, k: u8, ends: &[(u8, u8)]) -> Option<((u8, u8, u8, u8), bool)> {
    match skeleton(shape, k) {
        Some(skeleton) => Some((parts(skeleton), has_ends(skeleton, ends))),
        None => None,
    }
}

#[test]
fn skeletons_of_each_shape(rt: HostRuntime) {
    for (shape, k, numbers, ends) in [
        (Chain, 1, (1, 0, 0, 2), [(0, 1)].as_slice()),
        (Chain, 3, (3, 0, 0, 4), &[(0, 1), (1, 2), (2, 3)]),
        (Star, 4, (1, 0, 3, 5), &[(0, 1), (0, 2), (0, 3), (0, 4)]),
        (Cycle, 2, (1, 1, 0, 2), &[(0, 1), (0, 1)]),
        (
            Cycle,
            5,
            (3, 2, 0, 5),
            &[(0, 1), (1, 2), (2, 3), (0, 4), (4, 3)],
        ),
        (
            StarChain,
            5,
            (3, 0, 2, 6),
            &[(0, 1), (1, 2), (2, 3), (0, 4), (1, 5)],
        ),
        (
            Cycle,
            8,
            (4, 4, 0, 8),
            &[
                (0, 1),
                (1, 2),
                (2, 3),
                (3, 4),
                (0, 5),
                (5, 6),
                (6, 7),
                (7, 4),
            ],
        ),
    ] {
        assert_eq!(rt; parts_with(shape, k, ends), Some((numbers, true)));
    }
    assert!(rt; skeleton(Cycle, 1).is_none());
    assert!(rt; skeleton(Chain, 9).is_none());
}
