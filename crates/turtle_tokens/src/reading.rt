ghost use Rattle.std.specs.Prelude.{◌≡◌};
ghost use Rattle.std.specs.Str.{chars};
ghost use Rattle.regular_forms.specs.Longest.{IsLongest};
ghost use Rattle.turtle_tokens.specs.Reading.{token_view};
ghost use Rattle.turtle_tokens.specs.States.{token_at};
ghost use Rattle.turtle_tokens.specs.Tokens.{form};

use crate::TokenKind;
use crate::states::{State, kind_of_state};
use crate::steps::next_state;
use rdf_grammar::first_char;

/// As `next_token`, by the machine.
fn read_token(text: &str) -> Option<(TokenKind, &str)>
    ensures { token_view result ≡ token_at (chars text.now) }
{
    let mut state = State::Start;
    let mut rest = text;
    let mut longest: Option<(TokenKind, &str)> = None;
    'characters: while let Some((c, after)) = first_char(rest) {
        match next_state(state, c) {
            Some(further) => state = further,
            None => return longest,
        }
        rest = after;
        if let Some(kind) = kind_of_state(state) {
            longest = Some((kind, rest));
        }
    }
    longest
}

/// The kind of the longest token at the front of the text, and the rest behind it. `None` where no token is there, as
/// before white space, at a comment, and at a string or an IRI that does not end.
///
/// What a keyword is, and which character a UCHAR names, is left to the grammar of statements.
pub fn next_token(text: &str) -> Option<(TokenKind, &str)>
    ensures { IsLongest form (chars text.now) (token_view result) }
{
    read_token(text)
}
