//! How deep the parentheses of a text nest.

ghost use Rattle.std.specs.Prelude.{◌≡◌, nat_lt};
ghost use Rattle.sql_read.specs.Text.{deepest};

/// The deepest that parentheses may nest.
const DEPTH_MOST: u32 = 64;

/// Whether parentheses nest above 64 somewhere.
pub(crate) fn is_too_deep(text: &[u8]) -> bool
    ensures { result ≡ nat_lt 64 (deepest text.now) }
{
    let mut depth: u32 = 0;
    let mut rest = text;
    while let [byte, more @ ..] = rest {
        match *byte {
            b'(' => {
                if depth == DEPTH_MOST {
                    return true;
                }
                depth += 1;
            }
            b')' => depth = depth.saturating_sub(1),
            _ => {}
        }
        rest = more;
    }
    false
}
