//! The head of a workload text.

ghost use Rattle.std.specs.Prelude.{◌≡◌, map, length, IfOk};
ghost use Rattle.gm_config.specs.Config.{IsConfig};
ghost use Rattle.workload_text.specs.Values.{IsHead};
ghost use Rattle.workload_text.specs.Head.{head_of};

use gm_config::Config;
use gm_text::{Items, Name, Names};
use schema_graph::{Schema, SchemaEdge};
use sel_algebra::Kind;
use std::alloc::{AllocError, Global};
use std::marker::Model;

/// What the queries of a text are about: a format, the names of labels and of types, and a schema over them.
///
/// The format is 1 or 2. There are from 1 to 64 names of labels, and as many of types, no two of either equal; and the
/// schema has these types and from 1 to 128 edges, whose labels are among the names.
#[derive(Drop)]
pub struct WorkHead {
    format: u8,
    labels: Names,
    types: Names,
    schema: Schema,
}

impl Model for WorkHead {
    ghost use Rattle.workload_text.specs.Values.{HeadValue, IsHead};

    ghost Value = { HeadValue };

    ghost view = { λ h. record { format = h.format; labels = h.labels; types = h.types; schema = h.schema } };

    ghost invariant = { λ h. IsHead record { format = h.format; labels = h.labels; types = h.types; schema = h.schema } };
}

impl WorkHead {
    /// The head of these parts.
    pub(crate) fn new(
        alloc: Global,
        format: u8,
        labels: Vec<Name>,
        types: Vec<Name>,
        kinds: Vec<Kind>,
        edges: Vec<SchemaEdge>,
    ) -> Result<WorkHead, AllocError>
        requires { IsHead record { format = format; labels = labels.items; types = types.items; schema = record { kinds = kinds.items; edges = edges.items } } }
        ensures { IfOk result (λ head.
            head ≡ record { format = format; labels = labels.items; types = types.items; schema = record { kinds = kinds.items; edges = edges.items } }) }
    {
        Ok(WorkHead {
            format,
            labels: Items::of(labels),
            types: Items::of(types),
            schema: Schema::new(alloc, kinds, edges)?,
        })
    }

    /// The head of a configuration: its format, its names, and its schema.
    pub fn of(alloc: Global, config: &Config) -> Result<WorkHead, AllocError>
        ensures value { IfOk result (λ head. head ≡ head_of config.now) }
        ensures head { IfOk result IsHead }
    {
        let labels = label_names(alloc, config)?;
        let types = type_names(alloc, config)?;
        let schema = Schema::of(alloc, config)?;
        Ok(WorkHead {
            format: config.workload().format,
            labels: Items::of(labels),
            types: Items::of(types),
            schema,
        })
    }

    /// The names of the labels, by their numbers.
    pub fn labels(&self) -> &Names
        ensures labels { result.now ≡ self.now.labels }
        ensures head { IsHead self.now }
    {
        &self.labels
    }

    /// The names of the types, by their numbers.
    pub fn types(&self) -> &Names
        ensures types { result.now ≡ self.now.types }
        ensures head { IsHead self.now }
    {
        &self.types
    }

    /// The kinds of the types, and the edges.
    pub fn schema(&self) -> &Schema
        ensures schema { result.now ≡ self.now.schema }
        ensures head { IsHead self.now }
    {
        &self.schema
    }

    /// The format: 1, or 2, in which a query may have other than two heads.
    pub fn format(&self) -> u8
        ensures format { result ≡ self.now.format }
        ensures head { IsHead self.now }
    {
        self.format
    }
}

/// The names of the labels of a configuration.
fn label_names(alloc: Global, config: &Config) -> Result<Vec<Name>, AllocError>
    ensures names { IfOk result (λ names. names.items ≡ config.now.labels) }
{
    let mut names = Vec::new(alloc);
    for l in 0..config.label_count() {
        names.push(copy(alloc, config.label(l))?)?;
    }
    Ok(names)
}

/// The names of the types of a configuration.
fn type_names(alloc: Global, config: &Config) -> Result<Vec<Name>, AllocError>
    ensures names { IfOk result (λ names. names.items ≡ map (λ t. t.name) config.now.types) }
    ensures config { IsConfig config.now }
{
    let mut names = Vec::new(alloc);
    for t in 0..config.type_count() {
        names.push(copy(alloc, &config.node_type(t).name)?)?;
    }
    Ok(names)
}

/// The same name again.
fn copy(alloc: Global, name: &Name) -> Result<Name, AllocError>
    ensures { IfOk result (λ copy. copy ≡ name.now) }
{
    Ok(Name::of(name.as_slice().to_vec(alloc)?))
}
