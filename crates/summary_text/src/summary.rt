//! A summary, counted step by step.

ghost use Rattle.std.specs.Prelude.{◌≡◌, OnOk, OnErr};
ghost use Rattle.summary_text.specs.Summary.{nothing_counted, with_constraint, with_class, queries_in, HasRoom};

use sel_algebra::Class;
use std::alloc::{AllocError, Global};
use std::marker::Model;

/// How many edges each constraint has, and how many queries each class.
#[derive(Drop)]
pub struct Summary {
    edges: Vec<u64>,
    constant: u64,
    linear: u64,
    quadratic: u64,
}

impl Model for Summary {
    ghost use Rattle.summary_text.specs.Summary.{SummaryValue};

    ghost Value = { SummaryValue };

    ghost view = { λ s. record { edges = s.edges.items; constant = s.constant; linear = s.linear; quadratic = s.quadratic } };
}

impl Summary {
    /// A summary in which nothing is counted yet. It takes no memory.
    pub fn new(alloc: Global) -> Summary
        ensures { result ≡ nothing_counted }
    {
        Summary {
            edges: Vec::new(alloc),
            constant: 0,
            linear: 0,
            quadratic: 0,
        }
    }

    /// Adds the next constraint, which has so many edges.
    ///
    /// # Errors
    ///
    /// `AllocError` where memory runs out, and then the summary is as before.
    pub fn add_constraint(&mut self, _alloc: Global, edges: u64) -> Result<(), AllocError>
        ensures ok { OnOk result (self.new ≡ with_constraint edges self.old) }
        ensures err { OnErr result (self.new ≡ self.old) }
    {
        self.edges.push(edges)?;
        Ok(())
    }

    /// Counts one query more of a class. A query without a class is not counted.
    pub fn add_class(&mut self, class: Class)
        requires { HasRoom self.old }
        ensures { self.new ≡ with_class class self.old }
    {
        match class {
            Class::Constant => self.constant += 1,
            Class::Linear => self.linear += 1,
            Class::Quadratic => self.quadratic += 1,
        }
    }

    /// The number of edges of each constraint, in order.
    pub(crate) fn edges(&self) -> &[u64]
        ensures { result.now ≡ self.now.edges }
    {
        self.edges.as_slice()
    }

    /// The number of queries of a class.
    pub(crate) fn queries(&self, class: Class) -> u64
        ensures { result ≡ queries_in self.now class }
    {
        match class {
            Class::Constant => self.constant,
            Class::Linear => self.linear,
            Class::Quadratic => self.quadratic,
        }
    }
}
