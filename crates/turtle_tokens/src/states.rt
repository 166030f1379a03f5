ghost use Rattle.std.specs.Prelude.{◌≡◌};
ghost use Rattle.turtle_tokens.specs.States.{number_out, name_out, out};

use crate::TokenKind;
use crate::filling::FillingState;

/// What has been read of a number, or of a `.` that may begin one.
#[derive(Clone, Copy)]
pub enum NumberState {
    /// `+` or `-`.
    Sign,
    /// A `.` with no sign, which may be the token `.` too.
    Dot,
    /// A sign and a `.`.
    SignDot,
    /// Digits.
    Integer,
    /// Digits and a `.`: a digit or an exponent has to follow.
    IntegerDot,
    /// Digits behind a `.`.
    Decimal,
    /// `e` or `E` behind a number.
    Exponent,
    /// And its sign.
    ExponentSign,
    /// And its digits.
    Double,
}

/// What has been read of a word or a prefixed name. `first` says whether a local name begins with what is escaped: the
/// reader goes on alike, and only the proof tells the two apart.
#[derive(Clone, Copy)]
pub enum NameState {
    /// ASCII letters: a word, or the beginning of a prefix.
    Word,
    /// The beginning of a prefix that is no word.
    Prefix,
    /// Dots behind it: more of the prefix has to follow.
    PrefixDots,
    /// A colon, behind a prefix or none.
    Colon,
    /// A local name.
    Local,
    /// Dots behind it: more of the local name has to follow.
    LocalDots,
    /// `%`: two hexadecimal digits have to follow.
    Percent { first: bool },
    /// `%` and one of them.
    PercentHex { first: bool },
    /// `\`: a character that a local name escapes has to follow.
    Backslash { first: bool },
}

/// What has been read of a blank node label.
#[derive(Clone, Copy)]
pub enum LabelState {
    /// `_`
    Underscore,
    /// `_:`
    Colon,
    /// And a label.
    Label,
    /// And dots: more of the label has to follow.
    Dots,
}

/// What has been read of a language tag.
#[derive(Clone, Copy)]
pub enum TagState {
    /// `@`
    At,
    /// And letters.
    Language,
    /// `-` behind the tag so far: a subtag has to follow.
    Hyphen,
    /// Letters and digits of a subtag.
    Subtag,
}

/// What has been read of a `[` that may become an ANON.
#[derive(Clone, Copy)]
pub enum BracketState {
    /// `[`
    Open,
    /// And filling behind it, or the beginning of it.
    Filling(FillingState),
}

/// A quotation mark.
#[derive(Clone, Copy)]
pub enum Quote {
    /// `"`
    Double,
    /// `'`
    Single,
}

/// Between what marks the characters and escapes stand.
#[derive(Clone, Copy)]
pub enum Within {
    /// `<` and `>`.
    Iri,
    /// One quotation mark and another.
    Short(Quote),
    /// Three of them and three more.
    Long(Quote),
}

/// What has been read of an IRIREF or a string.
#[derive(Clone, Copy)]
pub enum DelimitedState {
    /// A quotation mark: of a short string, or the first of a long one.
    Open(Quote),
    /// Two of them: an empty string, or the beginning of a long one.
    Empty(Quote),
    /// The opening mark, and whole characters and escapes, if any.
    Inside(Within),
    /// A quotation mark in a long string: another character has to follow, or the end.
    OneQuote(Quote),
    /// Two of them.
    TwoQuotes(Quote),
    /// `\`: the rest of an escape has to follow.
    Backslash(Within),
    /// `\u` or `\U` and some of its digits: another has to follow, and behind that so many more.
    Hex { within: Within, more: u8 },
}

/// What has been read of a token.
#[derive(Clone, Copy)]
pub enum State {
    /// Nothing.
    Start,
    /// All of a token with which no longer one begins.
    Complete(TokenKind),
    /// A number, or `.`.
    Number(NumberState),
    /// A word or a prefixed name.
    Name(NameState),
    /// A blank node label.
    Label(LabelState),
    /// A language tag.
    Tag(TagState),
    /// `[` or ANON.
    Bracket(BracketState),
    /// `^`: another has to follow.
    Caret,
    /// An IRIREF or a string.
    Delimited(DelimitedState),
}

fn kind_of_number(state: NumberState) -> Option<TokenKind>
    ensures { result ≡ number_out state }
{
    match state {
        NumberState::Dot => Some(TokenKind::Dot),
        NumberState::Integer => Some(TokenKind::Integer),
        NumberState::Decimal => Some(TokenKind::Decimal),
        NumberState::Double => Some(TokenKind::Double),
        _ => None,
    }
}

fn kind_of_name(state: NameState) -> Option<TokenKind>
    ensures { result ≡ name_out state }
{
    match state {
        NameState::Word => Some(TokenKind::Word),
        NameState::Colon => Some(TokenKind::PnameNs),
        NameState::Local => Some(TokenKind::PnameLn),
        _ => None,
    }
}

/// The kind of the token that was read, if it may end here.
#[tactic(auto, unfolding(crate::specs::States::out))]
pub fn kind_of_state(state: State) -> Option<TokenKind>
    ensures { out state ≡ result }
{
    match state {
        State::Complete(kind) => Some(kind),
        State::Number(state) => kind_of_number(state),
        State::Name(state) => kind_of_name(state),
        State::Label(LabelState::Label) => Some(TokenKind::BlankNodeLabel),
        State::Tag(TagState::Language | TagState::Subtag) => Some(TokenKind::LangTag),
        State::Bracket(BracketState::Open) => Some(TokenKind::OpenBracket),
        State::Delimited(DelimitedState::Empty(_)) => Some(TokenKind::String),
        _ => None,
    }
}
