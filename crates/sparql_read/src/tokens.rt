//! The tokens of a text.

/// A word of the language, which a text may write in any case.
#[derive(Clone, Copy, PartialEq, Eq)]
pub(crate) enum Keyword {
    Prefix,
    Select,
    Distinct,
    Ask,
    Where,
    Union,
}

/// A token, whose names are parts of the text.
#[derive(Clone, Copy)]
pub(crate) enum Token<'a> {
    Word(Keyword),
    /// A name before `:`, which may be empty.
    Mark(&'a [u8]),
    /// The bytes of an IRI, without `<` and `>`.
    IriRef(&'a [u8]),
    /// A mark, and the local name behind its `:`.
    Predicate(&'a [u8], &'a [u8]),
    /// A name behind `?`.
    Variable(&'a [u8]),
    LeftBrace,
    RightBrace,
    Open,
    Close,
    Dot,
    Slash,
    Bar,
    Caret,
    Asterisk,
    PlusSign,
    Question,
}
