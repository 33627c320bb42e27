//! Relations that are made of lists of pairs.

ghost use Rattle.std.specs.Prelude.{◌≡◌};
ghost use Rattle.node_tables.specs.Tables.{is_pair, has, passes_by, joins, has_either, has_or_same, further};

use crate::nodes::Relation;

/// Whether a list has a pair.
pub fn has(pairs: &[(u32, u32)], a: u32, b: u32) -> bool
    ensures { result ≡ has pairs.now a b }
{
    pairs.iter().any(|pair| is_pair(pair, a, b))
}

fn is_pair(pair: &(u32, u32), a: u32, b: u32) -> bool
    ensures { result ≡ is_pair a b pair.now }
{
    pair.0 == a && pair.1 == b
}

/// Two numbers that two lists join by way of a node.
#[derive(Drop)]
pub struct Joined<'a> {
    pub nodes: &'a [u32],
    pub first: &'a [(u32, u32)],
    pub second: &'a [(u32, u32)],
}

impl<'a> Relation for Joined<'a> {
    ghost relates = { λ s. joins s.nodes.now s.first.now s.second.now };

    fn relates(&self, a: u32, b: u32) -> bool {
        joins(self.nodes, self.first, self.second, a, b)
    }
}

fn joins(nodes: &[u32], first: &[(u32, u32)], second: &[(u32, u32)], a: u32, c: u32) -> bool
    ensures { result ≡ joins nodes.now first.now second.now a c }
{
    nodes.iter().any(|b| passes_by(first, second, a, c, *b))
}

fn passes_by(first: &[(u32, u32)], second: &[(u32, u32)], a: u32, c: u32, b: u32) -> bool
    ensures { result ≡ passes_by first.now second.now a c b }
{
    has(first, a, b) && has(second, b, c)
}

/// A pair of either of two lists.
#[derive(Drop)]
pub struct Either<'a> {
    pub left: &'a [(u32, u32)],
    pub right: &'a [(u32, u32)],
}

impl<'a> Relation for Either<'a> {
    ghost relates = { λ s. has_either s.left.now s.right.now };

    fn relates(&self, a: u32, b: u32) -> bool {
        has(self.left, a, b) || has(self.right, a, b)
    }
}

/// A pair of a list, or a number with itself.
#[derive(Drop)]
pub struct OrSame<'a> {
    pub pairs: &'a [(u32, u32)],
}

impl<'a> Relation for OrSame<'a> {
    ghost relates = { λ s. has_or_same s.pairs.now };

    fn relates(&self, a: u32, b: u32) -> bool {
        has(self.pairs, a, b) || a == b
    }
}

/// A pair of a list, or one that goes a step further.
#[derive(Drop)]
pub struct Further<'a> {
    pub nodes: &'a [u32],
    pub pairs: &'a [(u32, u32)],
    pub step: &'a [(u32, u32)],
}

impl<'a> Relation for Further<'a> {
    ghost relates = { λ s. further s.nodes.now s.pairs.now s.step.now };

    fn relates(&self, a: u32, b: u32) -> bool {
        has(self.pairs, a, b) || joins(self.nodes, self.pairs, self.step, a, b)
    }
}
