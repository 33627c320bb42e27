//! The sample: a configuration of researchers, papers, journals, conferences and cities.

ghost use Rattle.std.specs.Prelude.{◌≡◌, ◌≤◌, IfOk};
ghost use Rattle.gm_config.specs.Config.{IsConfig};
ghost use Rattle.gm_config.specs.Sample.{sample_of};

use crate::config::Config;
use crate::errors::ConfigError;
use crate::reading::read_config;
use std::alloc::{AllocError, Global};

/// The sample's text, which asks for 1000 nodes.
const SAMPLE: &str = r#"{"nodes":1000,
"types":[{"name":"researcher","share":500},{"name":"paper","share":300},{"name":"journal","share":100},{"name":"conference","share":100},{"name":"city","count":100}],
"labels":["authors","publishedIn","extendedTo","heldIn"],
"constraints":[
{"source":"researcher","label":"authors","target":"paper","out":{"kind":"zipf","exponent":2,"max":50},"in":{"kind":"bell","center":3,"width":2}},
{"source":"paper","label":"publishedIn","target":"conference","out":{"kind":"uniform","min":1,"max":1},"in":{"kind":"free"}},
{"source":"paper","label":"extendedTo","target":"journal","out":{"kind":"uniform","min":0,"max":1},"in":{"kind":"free"}},
{"source":"conference","label":"heldIn","target":"city","out":{"kind":"uniform","min":1,"max":1},"in":{"kind":"zipf","exponent":1}}],
"workload":{"queries":10,"shapes":["chain","star","cycle","starchain"],"classes":["constant","linear","quadratic"],"star":300,"rules":[1,2],"conjuncts":[1,3],"disjuncts":[1,2],"length":[1,4]}}
"#;

/// The sample with `1000 * k` nodes asked for, for a k from 1 to 100. It has five types, four labels and
/// four constraints, and asks for ten queries.
pub fn sample_config(alloc: Global, k: u32) -> Result<Config, AllocError>
    requires some { 1 ≤ k }
    requires few { k ≤ 100 }
    ensures sample { IfOk result (λ config. config ≡ sample_of k) }
    ensures rules { IfOk result (λ config. IsConfig config) }
{
    match read_config(alloc, SAMPLE.as_bytes()) {
        Ok(config) => Ok(config.with_nodes(1000 * k)),
        Err(ConfigError::NoMemory) => Err(AllocError),
        Err(ConfigError::Fault(_)) => unreachable!(),
    }
}
