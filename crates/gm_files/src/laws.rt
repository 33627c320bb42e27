//! Laws of texts that are written in pieces: each is a function that does nothing, and ensures it.

ghost use Rattle.std.specs.Prelude.{ℕ, List};
ghost use Rattle.gm_files.specs.PieceLaws.{PiecesAddUp, PiecesEnd};

/// Bytes that are put after a text are written, and kept, as if both had been put at once.
pub fn pieces_add_up()
    ensures { (text bytes : List ℕ) → PiecesAddUp text bytes }
{}

/// A text that is put into a file and flushed is written whole, in as many pieces as by [`put_file`](crate::put_file),
/// each but the last of [`PIECE_MOST`](crate::PIECE_MOST) bytes.
pub fn pieces_end()
    ensures { (text : List ℕ) → PiecesEnd text }
{}
