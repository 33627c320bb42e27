ghost use Rattle.std.specs.Prelude.{◌≡◌, false};

use gm_io::{
    CountFolder, Failed, Folder, MemFolder, MemSource, ReadError, SliceSource, Source, read_all,
};
use std::alloc::{AllocError, Global};
use std::test::Fail;

/// What a source answers four times in a row, and the piece after the first and after the third of them.
fn four_reads(source: &mut MemSource) -> ([Result<usize, Failed>; 4], [[u8; 3]; 2]) {
    let mut piece = [0u8; 3];
    let first = source.read(&mut piece);
    let first_piece = piece;
    let second = source.read(&mut piece);
    let third = source.read(&mut piece);
    let third_piece = piece;
    let fourth = source.read(&mut piece);
    ([first, second, third, fourth], [first_piece, third_piece])
}

#[test]
fn a_source_fails_at_call_2(rt: HostRuntime) -> Result<(), Fail> {
    let alloc = rt.alloc();
    let mut source = MemSource::new(b"abcde".to_vec(alloc)?, vec![in alloc; 2]?);
    assert_eq!(rt;
        four_reads(&mut source),
        ([Ok(3), Err(Failed), Ok(2), Ok(0)], [*b"abc", *b"dec"])
    );
    Ok(())
}

#[test]
fn an_input_is_read_whole(rt: HostRuntime) -> Result<(), Fail> {
    let alloc = rt.alloc();
    let mut source = MemSource::new(b"abcde".to_vec(alloc)?, Vec::new(alloc));
    assert_eq!(rt;
        read_all(alloc, &mut source)?.as_slice(),
        b"abcde".as_slice()
    );
    Ok(())
}

#[test]
fn a_slice_is_read_whole(rt: HostRuntime) -> Result<(), Fail> {
    let mut source = SliceSource::new(b"abcde");
    assert_eq!(rt;
        read_all(rt.alloc(), &mut source)?.as_slice(),
        b"abcde".as_slice()
    );
    Ok(())
}

#[test]
fn an_input_with_a_fault_is_not_read(rt: HostRuntime) -> Result<(), Fail> {
    let alloc = rt.alloc();
    let mut source = MemSource::new(b"abcde".to_vec(alloc)?, vec![in alloc; 1]?);
    assert!(rt; matches!(&read_all(alloc, &mut source), Err(ReadError::ReadFault)));
    Ok(())
}

/// Makes a file of one piece, and says whether all three calls were done.
fn put<F: Folder>(folder: &mut F, name: &str, piece: &[u8]) -> Result<(), Failed>
    requires { F.unfinished folder.old ≡ false }
    ensures { F.unfinished folder.new ≡ false }
{
    folder.create(name)?;
    let written = folder.write(piece);
    folder.finish()?;
    written
}

/// The name and the bytes of a file, and `None` where the folder has no such file.
fn told(folder: &MemFolder, n: usize) -> Option<(&str, &[u8])> {
    if n < folder.file_count() {
        Some((folder.name(n), folder.bytes(n)))
    } else {
        None
    }
}

/// The answers to three files that are put into a folder.
fn put_three(folder: &mut MemFolder) -> [Result<(), Failed>; 3]
    requires { folder.old.unfinished ≡ false }
{
    [
        put(folder, "one", b"first"),
        put(folder, "two", b"second"),
        put(folder, "three", b"third"),
    ]
}

/// What a folder with room for two files answers to three, and whether it tells the two and no third.
fn told_of_three(alloc: Global) -> Result<([Result<(), Failed>; 3], [bool; 3]), AllocError> {
    let mut folder = MemFolder::new(alloc, Vec::new(alloc), 0, 2, 100)?;
    let answers = put_three(&mut folder);
    let are_told = [
        told(&folder, 0) == Some(("one", b"first".as_slice())),
        told(&folder, 1) == Some(("two", b"second".as_slice())),
        told(&folder, 2) == None,
    ];
    Ok((answers, are_told))
}

#[test]
fn a_folder_tells_its_files(rt: HostRuntime) -> Result<(), Fail> {
    assert_eq!(rt;
        told_of_three(rt.alloc())?,
        ([Ok(()), Ok(()), Err(Failed)], [true, true, true])
    );
    Ok(())
}

const PIECE: &[u8] = b"0123456789abcdef";

/// What a folder leaves of a file: the answer, how many files it has, and whether the first has these bytes.
type Left = (Result<(), Failed>, usize, bool);

/// What is left of `PIECE` in a folder with so much room, whose call of this number fails and keeps so many bytes.
fn left(
    alloc: Global,
    failing: u64,
    keep: usize,
    room: usize,
    bytes: &[u8],
) -> Result<Left, AllocError> {
    let mut folder = MemFolder::new(alloc, vec![in alloc; failing]?, keep, 1, room)?;
    let answer = put(&mut folder, "a", PIECE);
    let same = told(&folder, 0) == Some(("a", bytes));
    Ok((answer, folder.file_count(), same))
}

#[test]
fn a_failed_write_leaves_a_part(rt: HostRuntime) -> Result<(), Fail> {
    // The number of the call that fails, the bytes kept, the room, and the bytes of the file.
    for (failing, keep, room, answer, bytes) in [
        (2, 10, 100, Err(Failed), b"0123456789".as_slice()),
        (2, 20, 100, Err(Failed), PIECE),
        (9, 10, 8, Err(Failed), b"0123456".as_slice()),
        (9, 0, 17, Ok(()), PIECE),
        (3, 0, 17, Err(Failed), PIECE),
    ] {
        assert_eq!(rt;
            left(rt.alloc(), failing, keep, room, bytes)?,
            (answer, 1, true)
        );
    }
    Ok(())
}

#[test]
fn a_folder_counts(rt: HostRuntime) {
    let mut folder = CountFolder::new();
    let answer = put(&mut folder, "one", b"first");
    assert_eq!(rt;
        (answer, folder.files(), folder.bytes(), folder.calls()),
        (Ok(()), 1, 5, 3)
    );
}
