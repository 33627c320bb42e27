//! The lines of a text, and the words of a line, one after another.

ghost use Rattle.std.specs.Prelude.{◌≡◌, ◌↔◌, [], ◌∷◌, false, true, IsNone, IfNone, MatchOption, position};
ghost use Rattle.std.specs.List.{slice_split};
ghost use Rattle.gm_text.specs.Lines.{is_byte, lines_of, words_of};

use std::marker::Model;

const LINE_END: u8 = b'\n';

const SPACE: u8 = b' ';

/// One line of a text.
#[derive(Clone, Copy)]
pub struct Line<'t> {
    /// Its bytes, without the LF that ends it.
    pub bytes: &'t [u8],
    /// Whether an LF ends it. Only the last line of a text may have none.
    pub ended: bool,
}

/// The lines of a text, each taken once.
#[derive(Drop)]
pub struct Scan<'t> {
    rest: &'t [u8],
}

impl<'t> Model for Scan<'t> {
    ghost use Rattle.std.specs.Prelude.{List, ℕ};

    ghost Value = { List ℕ };

    ghost view = { λ scan. scan.rest.now };
}

impl<'t> Scan<'t> {
    /// All lines of a text.
    pub fn new(text: &'t [u8]) -> Scan<'t>
        ensures { result ≡ text.now }
    {
        Scan { rest: text }
    }

    /// Takes the next line, or `None` where no byte is left.
    pub fn next_line(&mut self) -> Option<Line<'t>>
        ensures line { MatchOption result
            (lines_of self.old ≡ [])
            (λ line. lines_of self.old ≡ (line.bytes.now, line.ended) ∷ lines_of self.new) }
        ensures none { IsNone result ↔ (self.old ≡ []) }
        ensures at_the_end { IfNone result (self.new ≡ []) }
    {
        if self.rest.is_empty() {
            return None;
        }
        match cut_at(self.rest, LINE_END) {
            Some((bytes, rest)) => {
                self.rest = rest;
                Some(Line { bytes, ended: true })
            }
            None => {
                let bytes = self.rest;
                self.rest = &[];
                Some(Line {
                    bytes,
                    ended: false,
                })
            }
        }
    }
}

/// The words of a line, each taken once. A single space stands between two words.
#[derive(Drop)]
pub struct Words<'t> {
    rest: Option<&'t [u8]>,
}

impl<'t> Model for Words<'t> {
    ghost use Rattle.std.specs.Prelude.{List, ℕ, option_copied};
    ghost use Rattle.gm_text.specs.Lines.{words_left};

    ghost Value = { List (List ℕ) };

    ghost view = { λ words. words_left (option_copied words.rest) };
}

impl<'t> Words<'t> {
    /// All words of a line. Two spaces have an empty word between them, and the empty line is one empty word.
    pub fn new(line: &'t [u8]) -> Words<'t>
        ensures { result ≡ words_of line.now }
    {
        Words { rest: Some(line) }
    }

    /// Takes the next word, or `None` after the last one.
    pub fn next_word(&mut self) -> Option<&'t [u8]>
        ensures word { MatchOption result (self.old ≡ []) (λ word. self.old ≡ word.now ∷ self.new) }
        ensures at_the_end { IfNone result (self.new ≡ []) }
    {
        let Some(line) = self.rest else {
            return None;
        };
        match cut_at(line, SPACE) {
            Some((word, rest)) => {
                self.rest = Some(rest);
                Some(word)
            }
            None => {
                self.rest = None;
                Some(line)
            }
        }
    }
}

/// What stands before the first such byte, and what stands after it, or `None` exactly where there is none.
pub fn cut_at(bytes: &[u8], end: u8) -> Option<(&[u8], &[u8])>
    ensures { MatchOption result
        (slice_split (is_byte end) bytes.now ≡ bytes.now ∷ [])
        (λ cut. slice_split (is_byte end) bytes.now ≡ cut.0.now ∷ slice_split (is_byte end) cut.1.now) }
{
    let Some(place) = first_place(bytes, end) else {
        return None;
    };
    Some((&bytes[..place], &bytes[place + 1..]))
}

/// The place of the first such byte.
fn first_place(bytes: &[u8], sought: u8) -> Option<usize>
    ensures { result ≡ position (is_byte sought) bytes.now }
{
    bytes.iter().position(|byte| *byte == sought)
}
