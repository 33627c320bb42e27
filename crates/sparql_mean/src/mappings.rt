//! Mappings of the variables of a group to numbers.

ghost use Rattle.std.specs.Prelude.{◌≡◌, ◌++◌, List, [], Option, Some, None, IfOk, OnOk};
ghost use Rattle.std.specs.List.{flat_map, list_all};
ghost use Rattle.sparql_mean.specs.Joins.{entry_of, mapping_of, agrees, fits, fits_pair, with_pair, grown, value};

use std::alloc::{AllocError, Global};
use std::marker::Model;

/// Variables with their numbers.
#[derive(Drop)]
pub(crate) struct Mapping<'a> {
    entries: Vec<(&'a [u8], u32)>,
}

impl<'a> Model for Mapping<'a> {
    ghost use Rattle.sparql_mean.specs.Mappings.{Mapping};
    ghost use Rattle.sparql_mean.specs.Joins.{mapping_of};

    ghost Value = { Mapping };

    ghost view = { λ m. mapping_of m.entries.items };
}

impl<'a> Mapping<'a> {
    /// The mapping of no variable.
    pub(crate) fn empty(alloc: Global) -> Mapping<'a>
        ensures { result ≡ [] }
    {
        Mapping {
            entries: Vec::new(alloc),
        }
    }

    /// The number of a variable, if it has one.
    pub(crate) fn value(&self, variable: &[u8]) -> Option<u32>
        ensures { result ≡ value self.now variable.now }
    {
        value(&self.entries, variable)
    }

    /// Whether two variables can have the numbers of a pair.
    fn fits_pair(&self, u: &[u8], v: &[u8], pair: &(u32, u32)) -> bool
        ensures { result ≡ fits_pair u.now v.now self.now pair.now }
    {
        self.fits(u, pair.0) && self.fits(v, pair.1) && agrees(&(u, pair.0), v, pair.1)
    }

    /// Whether a variable has no other number.
    fn fits(&self, variable: &[u8], number: u32) -> bool
        ensures { result ≡ fits self.now variable.now number }
    {
        fits(&self.entries, variable, number)
    }

    /// The mapping, with the numbers of a pair for two variables more.
    fn with_pair(
        &self,
        alloc: Global,
        u: &'a [u8],
        v: &'a [u8],
        pair: &(u32, u32),
    ) -> Result<Mapping<'a>, AllocError>
        ensures { IfOk result (λ k. k ≡ with_pair u.now v.now self.now pair.now) }
    {
        let mut entries = self.entries.to_vec(alloc)?;
        entries.push((u, pair.0))?;
        entries.push((v, pair.1))?;
        Ok(Mapping { entries })
    }
}

fn value(entries: &[(&[u8], u32)], variable: &[u8]) -> Option<u32>
    ensures { result ≡ value (mapping_of entries.now) variable.now }
{
    for entry in entries {
        if entry.0 == variable {
            return Some(entry.1);
        }
    }
    None
}

fn fits(entries: &[(&[u8], u32)], variable: &[u8], number: u32) -> bool
    ensures { result ≡ list_all (λ entry. agrees variable.now number (entry_of entry)) entries.now }
{
    entries.iter().all(|entry| agrees(entry, variable, number))
}

fn agrees(entry: &(&[u8], u32), variable: &[u8], number: u32) -> bool
    ensures { result ≡ agrees variable.now number (entry_of entry.now) }
{
    entry.0 != variable || entry.1 == number
}

/// Adds the mapping with each pair that fits.
fn push_grown<'a>(
    alloc: Global,
    out: &mut Vec<Mapping<'a>>,
    m: &Mapping<'a>,
    u: &'a [u8],
    v: &'a [u8],
    pairs: &[(u32, u32)],
) -> Result<(), AllocError>
    ensures { OnOk result (out.new.items ≡ out.old.items ++ grown u.now v.now pairs.now m.now) }
{
    for pair in pairs {
        if m.fits_pair(u, v, pair) {
            out.push(m.with_pair(alloc, u, v, pair)?)?;
        }
    }
    Ok(())
}

/// Each mapping with each pair that fits.
pub(crate) fn grow<'a>(
    alloc: Global,
    all: &[Mapping<'a>],
    u: &'a [u8],
    v: &'a [u8],
    pairs: &[(u32, u32)],
) -> Result<Vec<Mapping<'a>>, AllocError>
    ensures { IfOk result (λ out. out.items ≡ flat_map (grown u.now v.now pairs.now) all.now) }
{
    let mut out = Vec::new(alloc);
    for m in all {
        push_grown(alloc, &mut out, m, u, v, pairs)?;
    }
    Ok(out)
}
