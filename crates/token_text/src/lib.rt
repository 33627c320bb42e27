//! Tokens of texts: laws that hold for every way to cut a token off a text. What a reader's own tokens are, its crate says.
#![tactic(auto)]

ghost use Rattle.token_text.specs.Tokens.{TokensAreOne};
ghost use Rattle.token_text.specs.Spelled.{SpelledIsRead};

/// No text has two lists of tokens.
pub fn tokens_are_one<T>()
    ensures { TokensAreOne T }
{}

/// A text that is spelled of pieces, with each token before what may follow it, has the tokens that were spelled.
pub fn spelled_is_read<T>()
    ensures { SpelledIsRead T }
{}
