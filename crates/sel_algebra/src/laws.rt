//! The laws of the growth operators and of matrices. Each is the contract of a function that does nothing.
ghost use Rattle.std.specs.Prelude.{◌≡◌};
ghost use Rattle.sel_algebra.specs.Laws.{OrderIsReflexive, OrderIsTransitive, OrderIsAntisymmetric, JoinIsLeastUpperBound, NormalFormsAreKept, TypedCompositionIsAssociative, EqualIsUnit, TypedCompositionDistributesAfterJoin, TypedCompositionDistributesBeforeJoin, TypedCompositionKeepsOrder, MirrorReversesTypedComposition, MirrorKeepsOrder, StarIsLeast, ClassKeepsOrder, ConstantIsOfFixedTypes};
ghost use Rattle.sel_algebra.specs.MatrixLaws.{ClosureExists, ClosureIsUnique, GreatestClassIsUnique, ProductIsAtLeastItsPaths, JoinIsAtLeastItsParts, ClosureIsAtLeastEqual, ClosureIsAtLeastItsPaths, ClosureIsAtLeastStar, GreatestClassIsAtLeastItsEntries};
ghost use Rattle.sel_algebra.specs.Table.{types_most};

use crate::TYPES_MOST;

/// [`TYPES_MOST`] is the most types of a matrix.
pub fn limit_is_exact()
    ensures { TYPES_MOST ≡ types_most }
{}

/// Each operator is at most itself.
pub fn order_is_reflexive()
    ensures { OrderIsReflexive }
{}

/// What is at most an operator is at most all above it.
pub fn order_is_transitive()
    ensures { OrderIsTransitive }
{}

/// Two operators that are at most each other are the same.
pub fn order_is_antisymmetric()
    ensures { OrderIsAntisymmetric }
{}

/// The join of two operators is at most just those operators that both are at most.
pub fn join_is_least_upper_bound()
    ensures { JoinIsLeastUpperBound }
{}

/// A normal form is its own normal form, and so is the join of two.
pub fn normal_forms_are_kept()
    ensures { NormalFormsAreKept }
{}

/// Three parts of a path may be composed in either order.
pub fn typed_composition_is_associative()
    ensures { TypedCompositionIsAssociative }
{}

/// An operator composed with `Equal` of the kind at either end is the same.
pub fn equal_is_unit()
    ensures { EqualIsUnit }
{}

/// Composing after a join is joining the compositions.
pub fn typed_composition_distributes_after_join()
    ensures { TypedCompositionDistributesAfterJoin }
{}

/// Composing before a join is joining the compositions.
pub fn typed_composition_distributes_before_join()
    ensures { TypedCompositionDistributesBeforeJoin }
{}

/// What is composed of greater operators is greater.
pub fn typed_composition_keeps_order()
    ensures { TypedCompositionKeepsOrder }
{}

/// A path taken backwards is its parts taken backwards, the last part first.
pub fn mirror_reverses_typed_composition()
    ensures { MirrorReversesTypedComposition }
{}

/// The mirrors of two operators are in the order of the two.
pub fn mirror_keeps_order()
    ensures { MirrorKeepsOrder }
{}

/// The star of `a` is the least normal `x` from a kind to itself for which `Equal` joined with the
/// composition of `a` and `x` is at most `x`.
pub fn star_is_least()
    ensures { StarIsLeast }
{}

/// The classes of two operators between the same types are in the order of the two.
pub fn class_keeps_order()
    ensures { ClassKeepsOrder }
{}

/// Only between fixed types is the class constant.
pub fn constant_is_of_fixed_types()
    ensures { ConstantIsOfFixedTypes }
{}

/// Each matrix has a least closure, which is a matrix.
#[tactic(auto, using(crate::proofs::ClosureLemmas::closure_exists))]
pub fn closure_exists()
    ensures { ClosureExists }
{}

/// A matrix has no other least closure.
#[tactic(auto, using(crate::proofs::ClosureLemmas::closure_is_unique))]
pub fn closure_is_unique()
    ensures { ClosureIsUnique }
{}

/// A matrix has one greatest class, which is none where it has no entry.
pub fn greatest_class_is_unique()
    ensures { GreatestClassIsUnique }
{}

/// A product is at least the composition of what its entries to and from a type between are at least.
pub fn product_is_at_least_its_paths()
    ensures { ProductIsAtLeastItsPaths }
{}

/// A join is at least its parts.
pub fn join_is_at_least_its_parts()
    ensures { JoinIsAtLeastItsParts }
{}

/// From each type to itself a closure is at least `Equal`.
#[tactic(auto, using(crate::proofs::PathLemmas::closure_equal))]
pub fn closure_is_at_least_equal()
    ensures { ClosureIsAtLeastEqual }
{}

/// A closure is at least the composition of a step of its matrix and of what it is itself at least after it.
pub fn closure_is_at_least_its_paths()
    ensures { ClosureIsAtLeastItsPaths }
{}

/// From each type to itself a closure is at least the star of what its matrix is at least.
#[tactic(auto, using(crate::proofs::PathLemmas::closure_star))]
pub fn closure_is_at_least_star()
    ensures { ClosureIsAtLeastStar }
{}

/// The greatest class is at least the class of what an entry is at least.
#[tactic(auto, using(crate::proofs::PathLemmas::greatest_entries))]
pub fn greatest_class_is_at_least_its_entries()
    ensures { GreatestClassIsAtLeastItsEntries }
{}
