//! Files that are to be written, and the names of those that hold a query.

ghost use Rattle.std.specs.Prelude.{◌≡◌, string_bytes, IfOk};
ghost use Rattle.gm_files.specs.QueryName.{ending_of, query_name_of};

use gm_text::Items;
use std::alloc::{AllocError, Global};
use std::marker::Model;

/// The name of a file.
#[derive(Drop)]
pub struct FileName {
    name: String,
}

impl Model for FileName {
    ghost use Rattle.std.specs.Prelude.{List, ℕ, string_bytes};

    ghost Value = { List ℕ };

    ghost view = { λ file. string_bytes file.name };
}

impl FileName {
    /// This name.
    pub fn of(name: String) -> FileName
        ensures { result ≡ string_bytes name }
    {
        FileName { name }
    }

    /// Its text.
    pub fn as_str(&self) -> &str
        ensures { result.now ≡ self.now }
    {
        &self.name
    }
}

/// The bytes of a file.
pub type FileBytes = Items<u8>;

/// The name and the bytes of one file.
#[derive(Drop)]
pub struct FileText {
    /// Its name in the folder.
    pub name: FileName,
    /// All its bytes.
    pub bytes: FileBytes,
}

/// Files in the order in which they are to be created.
pub type FileList = Items<FileText>;

/// The two languages in which a query is written, each into a file of its own.
#[derive(Clone, Copy, Debug, PartialEq, Eq)]
pub enum QueryFile {
    /// SPARQL.
    Sparql,
    /// SQL.
    Sql,
}

/// The name of the file that holds the query of this number: `query-12.sparql`, `query-12.sql`.
pub fn query_name(alloc: Global, number: u32, kind: QueryFile) -> Result<String, AllocError>
    ensures { IfOk result (λ name. string_bytes name ≡ query_name_of number kind) }
{
    let ending = ending_of(kind);
    format!(in alloc; "query-{number}{ending}")
}

fn ending_of(kind: QueryFile) -> &'static str
    ensures { result.now ≡ ending_of kind }
{
    match kind {
        QueryFile::Sparql => ".sparql",
        QueryFile::Sql => ".sql",
    }
}
