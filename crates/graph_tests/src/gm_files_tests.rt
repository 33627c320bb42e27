ghost use Rattle.std.specs.Prelude.{◌≡◌, ◌≤◌, true, false, length, IfOk, IfSome};

use gm_files::{
    FileBytes, FileList, FileName, FileText, Pieces, QueryFile, WriteFault, put_all, put_file,
    query_name,
};
use gm_io::{CountFolder, DirFolder, Folder, MemFolder};
use gm_text::Items;
use std::alloc::{AllocError, Global};
use std::fs;
use std::test::Fail;

/// The calls of one `put_file` with so many bytes, and none where it failed.
fn calls_of(alloc: Global, length: usize) -> Result<Option<u64>, AllocError> {
    let bytes = vec![in alloc; b'a'; length]?;
    let mut folder = CountFolder::new();
    let put = put_file(&mut folder, "a", &bytes);
    Ok(put.ok().map(|_| folder.calls()))
}

#[test]
fn one_write_for_each_started_piece(rt: HostRuntime) -> Result<(), Fail> {
    let alloc = rt.alloc();
    for (length, calls) in [(0, 2), (1, 3), (65_536, 3), (65_537, 4)] {
        assert_eq!(rt; calls_of(alloc, length)?, Some(calls));
    }
    Ok(())
}

fn text(alloc: Global, name: &str, bytes: &[u8]) -> Result<FileText, AllocError> {
    Ok(FileText {
        name: FileName::of(String::from_str(alloc, name)?),
        bytes: FileBytes::of(bytes.to_vec(alloc)?),
    })
}

/// A file of three bytes, and one of none.
fn two_files(alloc: Global) -> Result<FileList, AllocError> {
    let first = text(alloc, "a", b"abc")?;
    let second = text(alloc, "b", b"")?;
    Ok(Items::of(vec![in alloc; first, second]?))
}

/// What `put_all` answers for the two files, and the files, the bytes and the calls that the folder counts.
fn counts_of_two(alloc: Global) -> Result<(Result<(), WriteFault>, [u64; 3]), AllocError> {
    let list = two_files(alloc)?;
    let mut folder = CountFolder::new();
    let put = put_all(&mut folder, &list);
    Ok((put, [folder.files(), folder.bytes(), folder.calls()]))
}

#[test]
fn all_files_are_put(rt: HostRuntime) -> Result<(), Fail> {
    assert_eq!(rt; counts_of_two(rt.alloc())?, (Ok(()), [2, 3, 5]));
    Ok(())
}

#[test]
fn queries_have_names(rt: HostRuntime) -> Result<(), Fail> {
    let alloc = rt.alloc();
    for (number, kind, name) in [
        (0, QueryFile::Sparql, "query-0.sparql"),
        (12, QueryFile::Sql, "query-12.sql"),
    ] {
        assert_eq!(rt; query_name(alloc, number, kind)?.as_str(), name);
    }
    Ok(())
}

/// So many bytes, or those of one piece where they would be more.
fn part(alloc: Global, count: usize) -> Result<Vec<u8>, AllocError>
    ensures { IfOk result (λ bytes. length bytes.items ≤ 65536) }
{
    vec![in alloc; b'a'; count.min(65_536)]
}

/// Puts two parts into the last file, and flushes.
fn put_parts<F: Folder>(
    folder: &mut F,
    pieces: &mut Pieces,
    first: &[u8],
    second: &[u8],
) -> Result<(), WriteFault>
    requires unfinished { F.unfinished folder.old ≡ true }
    requires first { length first.now ≤ 65536 }
    requires second { length second.now ≤ 65536 }
    ensures { F.unfinished folder.new ≡ true }
{
    pieces.put(folder, first)?;
    pieces.put(folder, second)?;
    pieces.flush(folder)
}

/// Creates a file, puts two parts of so many bytes into it, and flushes. `None`: it was not created.
fn put_two<F: Folder>(
    alloc: Global,
    folder: &mut F,
    first: usize,
    second: usize,
) -> Result<Option<Result<(), WriteFault>>, AllocError>
    requires { F.unfinished folder.old ≡ false }
    ensures { IfOk result (λ put. IfSome put (λ _. F.unfinished folder.new ≡ true)) }
{
    let first = part(alloc, first)?;
    let second = part(alloc, second)?;
    let mut pieces = Pieces::new(alloc)?;
    let Ok(()) = folder.create("a") else {
        return Ok(None);
    };
    Ok(Some(put_parts(folder, &mut pieces, &first, &second)))
}

/// The calls of one file that two parts of so many bytes are put into, and none where one failed.
fn calls_of_parts(alloc: Global, first: usize, second: usize) -> Result<Option<u64>, AllocError> {
    let mut folder = CountFolder::new();
    let Some(put) = put_two(alloc, &mut folder, first, second)? else {
        return Ok(None);
    };
    let finished = folder.finish();
    Ok(put.ok().and(finished.ok()).map(|_| folder.calls()))
}

#[test]
fn parts_make_the_writes_of_their_text(rt: HostRuntime) -> Result<(), Fail> {
    let alloc = rt.alloc();
    for (first, second, calls) in [
        (0, 0, 2),
        (0, 1, 3),
        (65_535, 0, 3),
        (65_535, 1, 3),
        (65_536, 0, 3),
        (65_536, 1, 4),
        (40_000, 30_000, 4),
        (65_536, 65_536, 4),
    ] {
        assert_eq!(rt; calls_of_parts(alloc, first, second)?, Some(calls));
    }
    Ok(())
}

/// A folder for one file, whose third call fails and keeps nothing.
fn faulty_folder(alloc: Global) -> Result<MemFolder, AllocError>
    ensures { IfOk result (λ folder. folder.unfinished ≡ false) }
{
    MemFolder::new(alloc, vec![in alloc; 3]?, 0, 1, 100_000)
}

/// How many files a folder has, and how many bytes the first of them.
fn lengths(folder: &MemFolder) -> (usize, usize) {
    let count = folder.file_count();
    if count == 0 {
        (0, 0)
    } else {
        (count, folder.bytes(0).len())
    }
}

/// What `put_file` answers where its third call fails, and what the folder has then.
fn failed_put(alloc: Global) -> Result<(Result<(), WriteFault>, (usize, usize)), AllocError> {
    let bytes = vec![in alloc; b'a'; 70_000]?;
    let mut folder = faulty_folder(alloc)?;
    let put = put_file(&mut folder, "a", &bytes);
    Ok((put, lengths(&folder)))
}

#[test]
fn a_failed_third_call_leaves_the_first_piece(rt: HostRuntime) -> Result<(), Fail> {
    assert_eq!(rt; failed_put(rt.alloc())?, (Err(WriteFault), (1, 65_536)));
    Ok(())
}

/// What two parts answer where the third call fails, and what the folder has then.
fn failed_flush(
    alloc: Global,
) -> Result<(Option<Result<(), WriteFault>>, (usize, usize)), AllocError> {
    let mut folder = faulty_folder(alloc)?;
    let put = put_two(alloc, &mut folder, 40_000, 30_000)?;
    Ok((put, lengths(&folder)))
}

#[test]
fn a_failed_flush_leaves_the_first_piece(rt: HostRuntime) -> Result<(), Fail> {
    assert_eq!(rt;
        failed_flush(rt.alloc())?,
        (Some(Err(WriteFault)), (1, 65_536))
    );
    Ok(())
}

/// The bytes of a file that is written in two pieces.
fn long_bytes(alloc: Global) -> Result<Vec<u8>, AllocError> {
    let mut bytes = vec![in alloc; b'a'; 70_000]?;
    bytes.extend_from_slice(b"end")?;
    Ok(bytes)
}

/// Puts a file into the current folder, reads it back and removes it: what `put_file` answers, and whether it was
/// removed, and all its bytes were read.
fn read_back(rt: &HostRuntime, bytes: &[u8]) -> (Result<(), WriteFault>, bool, bool) {
    let mut folder = DirFolder::new(rt);
    let put = put_file(&mut folder, "acceptance.txt", bytes);
    let read = fs::read(rt, "acceptance.txt");
    let removed = fs::remove_file(rt, "acceptance.txt").is_ok();
    let same = match &read {
        Ok(read) => read.as_slice() == bytes,
        Err(_) => false,
    };
    (put, removed, same)
}

/// The current folder has all bytes of a file that was put into it in two pieces.
#[test]
fn a_file_in_the_current_folder(rt: HostRuntime) -> Result<(), Fail> {
    let bytes = long_bytes(rt.alloc())?;
    assert_eq!(rt; read_back(&rt, &bytes), (Ok(()), true, true));
    Ok(())
}
