ghost use Rattle.std.specs.Prelude.{◌≡◌, ◌+◌, ◌<◌};
ghost use Rattle.skeletons.specs.Skeleton.{SkeletonValue, HasSkeleton, spine_of, second_of, arms_of, variables_of, second_ends, ends_of};

use sel_algebra::Shape::{self, Chain, Cycle, Star, StarChain};
use std::marker::Model;

/// The parts of a rule of a query: a shape and a number of conjuncts, and so the variables at the two
/// ends of each conjunct.
///
/// The spine comes first, a path from variable 0 through variables 1, 2 and so on. After it comes the
/// second path of a cycle, from variable 0 through new variables to the end of the spine, or else
/// the arms, each to a new variable.
#[derive(Clone, Copy, Debug, PartialEq, Eq)]
pub struct Skeleton {
    shape: Shape,
    count: u8,
}

impl Model for Skeleton {
    ghost use Rattle.skeletons.specs.Skeleton.{SkeletonValue, HasSkeleton};

    ghost Value = { SkeletonValue };

    ghost view = { λ s. record { shape = s.shape; count = s.count } };

    ghost inverse = { λ v. record { shape = v.shape; count = v.count } };

    ghost invariant = { λ s. HasSkeleton s.shape s.count };
}

impl Skeleton {
    /// The skeleton of a shape with `k` conjuncts: from 1 to
    /// [`CONJUNCTS_MOST`](crate::CONJUNCTS_MOST), and at least 2 for a cycle.
    pub fn of(shape: Shape, k: u8) -> Skeleton
        requires { HasSkeleton shape k }
        ensures value { result ≡ record { shape = shape; count = k } }
    {
        Skeleton { shape, count: k }
    }

    /// The number of conjuncts of the spine.
    pub fn spine(&self) -> u8
        ensures spine { result ≡ spine_of self.now.shape self.now.count }
        ensures skeleton { HasSkeleton self.now.shape self.now.count }
    {
        match self.shape {
            Chain => self.count,
            Star => 1,
            Cycle | StarChain => self.count.div_ceil(2),
        }
    }

    /// The number of conjuncts of the second path of a cycle; other shapes have none.
    pub fn second(&self) -> u8
        ensures second { result ≡ second_of self.now.shape self.now.count }
        ensures skeleton { HasSkeleton self.now.shape self.now.count }
    {
        match self.shape {
            Cycle => self.count / 2,
            Chain | Star | StarChain => 0,
        }
    }

    /// The number of arms, each of one conjunct; chains and cycles have none.
    pub fn arms(&self) -> u8
        ensures arms { result ≡ arms_of self.now.shape self.now.count }
        ensures skeleton { HasSkeleton self.now.shape self.now.count }
    {
        match self.shape {
            Chain | Cycle => 0,
            Star => self.count - 1,
            StarChain => self.count / 2,
        }
    }

    /// The number of variables.
    pub fn variables(&self) -> u8
        ensures variables { result ≡ variables_of self.now.shape self.now.count }
        ensures skeleton { HasSkeleton self.now.shape self.now.count }
    {
        match self.shape {
            Cycle => self.count,
            Chain | Star | StarChain => self.count + 1,
        }
    }

    /// The variables at which conjunct `i` starts and ends.
    pub fn ends(&self, i: u8) -> (u8, u8)
        requires { i < self.now.count }
        ensures ends { result ≡ ends_of self.now.shape self.now.count i }
        ensures start_within { result.0 < variables_of self.now.shape self.now.count }
        ensures end_within { result.1 < variables_of self.now.shape self.now.count }
        ensures skeleton { HasSkeleton self.now.shape self.now.count }
    {
        let spine = self.spine();
        if i < spine {
            return (i, i + 1);
        }
        let later = i - spine;
        match self.shape {
            Cycle => second_path_ends(spine, self.second(), later),
            StarChain => (later % (spine + 1), spine + 1 + later),
            Chain | Star => (0, spine + 1 + later),
        }
    }
}

/// The ends of conjunct `j` of the `count` of the second path, which goes from variable 0 through new
/// variables to the end of the spine.
fn second_path_ends(spine: u8, count: u8, j: u8) -> (u8, u8)
    requires { spine + j < 255 }
    ensures { result ≡ second_ends spine count j }
{
    let start = if j == 0 { 0 } else { spine + j };
    let end = if j + 1 == count { spine } else { spine + j + 1 };
    (start, end)
}
