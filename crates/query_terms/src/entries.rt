//! Entries of a map, which are found or put with one look.

ghost use Rattle.std.specs.Prelude.{◌≡◌, IfOk, IfNone, IfSome, OnErr};
ghost use Rattle.indexmap.specs.IndexMap.{get, insert_entry};

use indexmap::IndexMap;
use indexmap::map::Entry;
use std::alloc::AllocError;
use std::hash::Hash;

/// The value that a key has. A key that has none is given the value, last.
#[inline]
pub(crate) fn find_or_put<K: Eq + Hash + Drop, V: Copy + Drop>(
    map: &mut IndexMap<K, V>,
    key: K,
    value: V,
) -> Result<Option<V>, AllocError>
    ensures found { IfOk result (λ before. before ≡ get K.eq map.old key) }
    ensures put { IfOk result (λ before. IfNone before (map.new.entries ≡ insert_entry K.eq map.old.entries key value)) }
    ensures kept { IfOk result (λ before. IfSome before (λ _. map.new.entries ≡ map.old.entries)) }
    ensures refused { OnErr result (map.new.entries ≡ map.old.entries) }
{
    match map.entry(key)? {
        Entry::Occupied(entry) => Ok(Some(*entry.get())),
        Entry::Vacant(entry) => {
            entry.insert(value);
            Ok(None)
        }
    }
}
