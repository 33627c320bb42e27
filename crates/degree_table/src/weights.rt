//! The weights that a specification gives its degrees, and their sums.

ghost use Rattle.std.specs.Prelude.{◌≡◌, ℕ, ◌+◌, ◌-◌, ◌/◌, ◌^◌, ◌<◌, ◌≤◌, sum, IfOk};
ghost use Rattle.std.specs.Int.{abs_diff};
ghost use Rattle.gm_config.specs.Limits.{degree_most, exponent_most};
ghost use Rattle.gm_config.specs.DegreeSpec.{IsDegreeSpec};
ghost use Rattle.degree_table.specs.DegreeTable.{zipf_scale, zipf_most, weight_of, least_of, end_of, weights_of, cumulative};

use gm_config::{DEGREE_MOST, DegreeSpec};
use std::alloc::{AllocError, Global};

/// The weight of the degree 1 of a Zipfian specification.
const ZIPF_SCALE: u64 = 1_000_000_000;

/// The weights of all degrees of a specification, from the least on.
pub(crate) fn weights_of(
    alloc: Global,
    spec: &DegreeSpec,
    opposite: u32,
) -> Result<Vec<u64>, AllocError>
    requires { IsDegreeSpec spec.now }
    ensures { IfOk result (λ weights. weights.items ≡ weights_of spec.now opposite) }
{
    let mut weights = Vec::new(alloc);
    for degree in least_of(spec)..end_of(spec, opposite) {
        weights.push(weight_of(spec, degree))?;
    }
    Ok(weights)
}

/// The sums of the first weight, of the first two, and so on to all.
pub(crate) fn cumulative(alloc: Global, weights: &[u64]) -> Result<Vec<u64>, AllocError>
    requires { sum weights.now < 2 ^ 64 }
    ensures { IfOk result (λ sums. sums.items ≡ cumulative weights.now) }
{
    let mut sums = Vec::new(alloc);
    let mut sum = 0;
    for weight in weights {
        sum += *weight;
        sums.push(sum)?;
    }
    Ok(sums)
}

/// The least degree of a specification.
pub(crate) fn least_of(spec: &DegreeSpec) -> u32
    ensures { result ≡ least_of spec.now }
{
    match spec {
        DegreeSpec::Uniform { min, .. } => *min,
        DegreeSpec::Bell { center, width } => center.saturating_sub(*width),
        DegreeSpec::Zipf { .. } => 1,
        DegreeSpec::Table { .. } | DegreeSpec::Free => 0,
    }
}

/// The number after the greatest degree of a specification.
fn end_of(spec: &DegreeSpec, opposite: u32) -> u32
    requires { IsDegreeSpec spec.now }
    ensures { result ≡ end_of spec.now opposite }
{
    match spec {
        DegreeSpec::Uniform { max, .. } => *max + 1,
        DegreeSpec::Bell { center, width } => *center + *width + 1,
        DegreeSpec::Zipf { max, .. } => zipf_most(*max, opposite) + 1,
        DegreeSpec::Table { weights } => weights.len() as u32,
        DegreeSpec::Free => 0,
    }
}

fn zipf_most(given: Option<u32>, opposite: u32) -> u32
    ensures { result ≡ zipf_most given opposite }
{
    given.unwrap_or(opposite.clamp(1, DEGREE_MOST))
}

/// The weight of a degree that a specification allows.
fn weight_of(spec: &DegreeSpec, degree: u32) -> u64
    requires limits { IsDegreeSpec spec.now }
    requires least { least_of spec.now ≤ degree }
    requires most { (opposite : ℕ) × (degree < end_of spec.now opposite) }
    ensures { result ≡ weight_of spec.now degree }
{
    match spec {
        DegreeSpec::Uniform { .. } => 1,
        DegreeSpec::Bell { center, width } => bell_weight(*center, *width, degree),
        DegreeSpec::Zipf { exponent, .. } => zipf_weight(*exponent, degree),
        DegreeSpec::Table { weights } => u64::from(weights.as_slice()[degree as usize]),
        DegreeSpec::Free => 0,
    }
}

fn bell_weight(center: u32, width: u32, degree: u32) -> u64
    requires { width ≤ degree_most }
    ensures { result ≡ (width + 1 - abs_diff degree center) ^ 2 }
{
    let nearness = (width + 1).saturating_sub(degree.abs_diff(center));
    u64::from(nearness).pow(2)
}

fn zipf_weight(exponent: u8, degree: u32) -> u64
    requires exponent { exponent ≤ exponent_most }
    requires some { 1 ≤ degree }
    requires few { degree ≤ degree_most }
    ensures { result ≡ zipf_scale / degree ^ exponent }
{
    ZIPF_SCALE / u64::from(degree).pow(u32::from(exponent))
}
