//! Names of types and labels.

ghost use Rattle.std.specs.Prelude.{◌≡◌, ◌<◌, length, slice_index};
ghost use Rattle.gm_text.specs.Name.{IsName, is_name, is_name_byte};
ghost use Rattle.std.specs.List.{list_all};
ghost use Rattle.std.specs.Char.{is_ascii_alphabetic};

use crate::lists::Items;
use std::marker::Model;

/// The most bytes of a name.
pub const NAME_MOST: usize = 32;

/// Whether the bytes are a name: an ASCII letter, then ASCII letters, digits or `_`, at most 32 bytes in all.
pub fn is_name(bytes: &[u8]) -> bool
    ensures { result ≡ is_name bytes.now }
{
    bytes.len() <= NAME_MOST && begins_with_letter(bytes) && are_name_bytes(bytes)
}

/// The bytes of one name.
#[derive(Drop)]
pub struct Name {
    items: Vec<u8>,
}

impl Model for Name {
    ghost use Rattle.std.specs.Prelude.{List, ℕ};
    ghost use Rattle.gm_text.specs.Name.{IsName};

    ghost Value = { List ℕ };

    ghost view = { λ name. name.items.items };

    ghost invariant = { λ name. IsName name.items.items };
}

/// A list of names.
pub type Names = Items<Name>;

impl Name {
    /// The name of these bytes.
    pub fn of(items: Vec<u8>) -> Name
        requires { IsName items.items }
        ensures { result ≡ items.items }
    {
        Name { items }
    }

    /// The number of its bytes.
    pub fn len(&self) -> usize
        ensures bytes { result ≡ length self.now }
        ensures name { IsName self.now }
    {
        self.items.len()
    }

    /// The byte at a place, counted from 0.
    pub fn at(&self, i: usize) -> &u8
        requires { i < length self.now }
        ensures { result.now ≡ slice_index self.now i }
    {
        &self.items[i]
    }

    /// Its bytes.
    pub fn as_slice(&self) -> &[u8]
        ensures bytes { result.now ≡ self.now }
        ensures name { IsName self.now }
    {
        &self.items
    }

    /// Its bytes, with no new memory.
    pub fn into_items(self) -> Vec<u8>
        ensures bytes { result.items ≡ self }
        ensures name { IsName self }
    {
        self.items
    }
}

fn begins_with_letter(bytes: &[u8]) -> bool
    ensures { result ≡ is_ascii_alphabetic (slice_index bytes.now 0) }
{
    match bytes.first() {
        Some(byte) => byte.is_ascii_alphabetic(),
        None => false,
    }
}

/// Whether each byte may stand in a name: an ASCII letter, a digit or `_`.
pub fn are_name_bytes(bytes: &[u8]) -> bool
    ensures { result ≡ list_all is_name_byte bytes.now }
{
    bytes.iter().all(|byte| is_name_byte(*byte))
}

/// Whether a byte may stand in a name: an ASCII letter, a digit or `_`.
pub fn is_name_byte(byte: u8) -> bool
    ensures { result ≡ is_name_byte byte }
{
    byte.is_ascii_alphanumeric() || byte == b'_'
}
