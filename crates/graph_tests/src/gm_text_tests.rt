use gm_text::*;
use std::alloc::{AllocError, Global};
use std::test::Fail;

/// How many names a list of two has, and whether the second is the one that was put there.
fn list_of_two(alloc: Global) -> Result<(usize, bool), AllocError> {
    let first = Name::of(b"knows".to_vec(alloc)?);
    let second = Name::of(b"Person".to_vec(alloc)?);
    let names: Names = Items::of(vec![in alloc; first, second]?);
    let same = names.at(1).as_slice() == b"Person".as_slice();
    Ok((names.len(), same))
}

#[test]
fn names(rt: HostRuntime) -> Result<(), Fail> {
    for (bytes, is) in [
        (b"a_B9".as_slice(), true),
        (b"abcdefghijklmnopqrstuvwxyz_12345", true),
        (b"abcdefghijklmnopqrstuvwxyz_123456", false),
        (b"", false),
        (b"9a", false),
        (b"_a", false),
        (b"a-b", false),
        (b"\xc3\xa9", false),
    ] {
        assert_eq!(rt; is_name(bytes), is);
    }
    assert_eq!(rt; list_of_two(rt.alloc())?, (2, true));
    Ok(())
}

/// Whether a number that is written after these bytes makes this text.
fn makes(alloc: Global, before: &[u8], n: u64, text: &[u8]) -> Result<bool, AllocError> {
    let mut out = before.to_vec(alloc)?;
    write_decimal(alloc, &mut out, n)?;
    Ok(out.as_slice() == text)
}

#[test]
fn written_decimals(rt: HostRuntime) -> Result<(), Fail> {
    for (n, text) in [
        (0, b"n=0".as_slice()),
        (10, b"n=10"),
        (u64::MAX, b"n=18446744073709551615"),
    ] {
        assert!(rt; makes(rt.alloc(), b"n=", n, text)?);
    }
    Ok(())
}

#[test]
fn read_decimals(rt: HostRuntime) {
    for (word, read) in [
        (b"0".as_slice(), Decimal::Value(0)),
        (b"10", Decimal::Value(10)),
        (b"18446744073709551615", Decimal::Value(u64::MAX)),
        (b"18446744073709551616", Decimal::Big),
        (b"99999999999999999999999", Decimal::Big),
        (b"", Decimal::No),
        (b"01", Decimal::No),
        (b"00", Decimal::No),
        (b"+1", Decimal::No),
        (b"1a", Decimal::No),
        (b" 1", Decimal::No),
    ] {
        assert_eq!(rt; read_decimal(word), read);
    }
}

/// Whether the lines of a text are these: `$` stands after each that is ended, and `!` after one that isn't.
fn has_lines(alloc: Global, text: &[u8], lines: &[u8]) -> Result<bool, AllocError> {
    let mut shown = Vec::new(alloc);
    let mut scan = Scan::new(text);
    for _ in 0..5 {
        if let Some(line) = scan.next_line() {
            shown.extend_from_slice(line.bytes)?;
            shown.extend_from_slice(if line.ended { b"$" } else { b"!" })?;
        }
    }
    Ok(shown.as_slice() == lines)
}

#[test]
fn lines(rt: HostRuntime) -> Result<(), Fail> {
    for (text, lines) in [
        (b"".as_slice(), b"".as_slice()),
        (b"a", b"a!"),
        (b"a\n", b"a$"),
        (b"\n", b"$"),
        (b"a\n\nb\r\nc", b"a$$b\r$c!"),
    ] {
        assert!(rt; has_lines(rt.alloc(), text, lines)?);
    }
    Ok(())
}

/// Whether the words of a line are these, with `|` after each.
fn has_words(alloc: Global, line: &[u8], words: &[u8]) -> Result<bool, AllocError> {
    let mut shown = Vec::new(alloc);
    let mut scan = Words::new(line);
    for _ in 0..5 {
        if let Some(word) = scan.next_word() {
            shown.extend_from_slice(word)?;
            shown.extend_from_slice(b"|")?;
        }
    }
    Ok(shown.as_slice() == words)
}

#[test]
fn words(rt: HostRuntime) -> Result<(), Fail> {
    for (line, words) in [
        (b"".as_slice(), b"|".as_slice()),
        (b"label", b"label|"),
        (b"edge 0 12", b"edge|0|12|"),
        (b"a  b", b"a||b|"),
        (b" a ", b"|a||"),
        (b"a\tb", b"a\tb|"),
    ] {
        assert!(rt; has_words(rt.alloc(), line, words)?);
    }
    Ok(())
}

/// Whether two numbers with a space between and LF behind, put together from the end in just the room of the longest such
/// line, are these bytes.
fn is_put_together(first: u32, second: u32, line: &[u8]) -> bool {
    let mut text: BackwardText<22> = BackwardText::new();
    text.end_with(b"\n");
    text.put_number(second);
    text.put(b" ");
    text.put_number(first);
    text.as_slice() == line
}

#[test]
fn texts_from_their_ends(rt: HostRuntime) -> Result<(), Fail> {
    for (first, second, line) in [
        (0, 0, b"0 0\n".as_slice()),
        (7, 1234567890, b"7 1234567890\n"),
        (999999, 63, b"999999 63\n"),
        (4294967295, 4294967295, b"4294967295 4294967295\n"),
    ] {
        assert!(rt; is_put_together(first, second, line));
    }
    Ok(())
}
