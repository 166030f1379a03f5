ghost use Rattle.std.specs.Prelude.{◌≡◌};
ghost use Rattle.turtle_tokens.specs.States.{first_step, number_step, to_prefix, after_prefix, to_local, after_local};
ghost use Rattle.turtle_tokens.specs.States.{name_step, label_step, tag_step, in_bracket, bracket_step, closes};
ghost use Rattle.turtle_tokens.specs.States.{iri_step, short_char, long_char, inside_step, escape_step, after_hex};
ghost use Rattle.turtle_tokens.specs.States.{delimited_step, step, step_char};

use crate::TokenKind;
use crate::filling::{FillingState, filling_step};
use crate::groups::{CharGroup, LetterRole, group_of};
use crate::states::{
    BracketState, DelimitedState, LabelState, NameState, NumberState, Quote, State, TagState,
    Within,
};

#[tactic(auto, unfolding(crate::specs::States::first_step))]
fn first_step(group: CharGroup) -> Option<State>
    ensures { result ≡ first_step group }
{
    match group {
        CharGroup::DoubleQuote => Some(State::Delimited(DelimitedState::Open(Quote::Double))),
        CharGroup::SingleQuote => Some(State::Delimited(DelimitedState::Open(Quote::Single))),
        CharGroup::Less => Some(State::Delimited(DelimitedState::Inside(Within::Iri))),
        CharGroup::Plus | CharGroup::Minus => Some(State::Number(NumberState::Sign)),
        CharGroup::Dot => Some(State::Number(NumberState::Dot)),
        CharGroup::Digit => Some(State::Number(NumberState::Integer)),
        CharGroup::Letter(_) => Some(State::Name(NameState::Word)),
        CharGroup::NameStart => Some(State::Name(NameState::Prefix)),
        CharGroup::Colon => Some(State::Name(NameState::Colon)),
        CharGroup::Underscore => Some(State::Label(LabelState::Underscore)),
        CharGroup::At => Some(State::Tag(TagState::At)),
        CharGroup::OpenBracket => Some(State::Bracket(BracketState::Open)),
        CharGroup::CloseBracket => Some(State::Complete(TokenKind::CloseBracket)),
        CharGroup::OpenParen => Some(State::Complete(TokenKind::OpenParen)),
        CharGroup::CloseParen => Some(State::Complete(TokenKind::CloseParen)),
        CharGroup::Comma => Some(State::Complete(TokenKind::Comma)),
        CharGroup::Semicolon => Some(State::Complete(TokenKind::Semicolon)),
        CharGroup::Caret => Some(State::Caret),
        _ => None,
    }
}

/// As through `-1.5e+3`.
#[tactic(auto, unfolding(crate::specs::States::number_step))]
fn number_step(state: NumberState, group: CharGroup) -> Option<NumberState>
    ensures { result ≡ number_step state group }
{
    match state {
        NumberState::Sign => match group {
            CharGroup::Digit => Some(NumberState::Integer),
            CharGroup::Dot => Some(NumberState::SignDot),
            _ => None,
        },
        NumberState::Dot | NumberState::SignDot => match group {
            CharGroup::Digit => Some(NumberState::Decimal),
            _ => None,
        },
        NumberState::Integer => match group {
            CharGroup::Digit => Some(NumberState::Integer),
            CharGroup::Dot => Some(NumberState::IntegerDot),
            CharGroup::Letter(LetterRole::HexExponent) => Some(NumberState::Exponent),
            _ => None,
        },
        NumberState::IntegerDot | NumberState::Decimal => match group {
            CharGroup::Digit => Some(NumberState::Decimal),
            CharGroup::Letter(LetterRole::HexExponent) => Some(NumberState::Exponent),
            _ => None,
        },
        NumberState::Exponent => match group {
            CharGroup::Plus | CharGroup::Minus => Some(NumberState::ExponentSign),
            CharGroup::Digit => Some(NumberState::Double),
            _ => None,
        },
        NumberState::ExponentSign | NumberState::Double => match group {
            CharGroup::Digit => Some(NumberState::Double),
            _ => None,
        },
    }
}

fn to_prefix(group: CharGroup) -> Option<NameState>
    ensures { result ≡ to_prefix group }
{
    match group {
        CharGroup::Dot => Some(NameState::PrefixDots),
        _ if group.is_in_name() => Some(NameState::Prefix),
        _ => None,
    }
}

fn after_prefix(group: CharGroup) -> Option<NameState>
    ensures { result ≡ after_prefix group }
{
    match group {
        CharGroup::Colon => Some(NameState::Colon),
        _ => to_prefix(group),
    }
}

fn to_local(group: CharGroup) -> Option<NameState>
    ensures { result ≡ to_local group }
{
    match group {
        CharGroup::Colon | CharGroup::Digit => Some(NameState::Local),
        CharGroup::Percent => Some(NameState::Percent { first: true }),
        CharGroup::Backslash => Some(NameState::Backslash { first: true }),
        _ if group.begins_name() => Some(NameState::Local),
        _ => None,
    }
}

fn after_local(group: CharGroup) -> Option<NameState>
    ensures { result ≡ after_local group }
{
    match group {
        CharGroup::Colon => Some(NameState::Local),
        CharGroup::Dot => Some(NameState::LocalDots),
        CharGroup::Percent => Some(NameState::Percent { first: false }),
        CharGroup::Backslash => Some(NameState::Backslash { first: false }),
        _ if group.is_in_name() => Some(NameState::Local),
        _ => None,
    }
}

/// As through `ex.ample:a..%41\.`.
#[tactic(auto, unfolding(crate::specs::States::name_step))]
fn name_step(state: NameState, group: CharGroup) -> Option<NameState>
    ensures { result ≡ name_step state group }
{
    match state {
        NameState::Word => match group {
            CharGroup::Letter(_) => Some(NameState::Word),
            _ => after_prefix(group),
        },
        NameState::Prefix => after_prefix(group),
        NameState::PrefixDots => to_prefix(group),
        NameState::Colon => to_local(group),
        NameState::Local | NameState::LocalDots => after_local(group),
        NameState::Percent { first } if group.is_hex() => Some(NameState::PercentHex { first }),
        NameState::PercentHex { .. } if group.is_hex() => Some(NameState::Local),
        NameState::Backslash { .. } if group.is_local_escape() => Some(NameState::Local),
        _ => None,
    }
}

/// As through `_:b.1`.
#[tactic(auto, unfolding(crate::specs::States::label_step))]
fn label_step(state: LabelState, group: CharGroup) -> Option<LabelState>
    ensures { result ≡ label_step state group }
{
    match state {
        LabelState::Underscore => match group {
            CharGroup::Colon => Some(LabelState::Colon),
            _ => None,
        },
        LabelState::Colon => match group {
            CharGroup::Digit => Some(LabelState::Label),
            _ if group.begins_name() => Some(LabelState::Label),
            _ => None,
        },
        LabelState::Label | LabelState::Dots => match group {
            CharGroup::Dot => Some(LabelState::Dots),
            _ if group.is_in_name() => Some(LabelState::Label),
            _ => None,
        },
    }
}

/// As through `@en-GB`.
#[tactic(auto, unfolding(crate::specs::States::tag_step))]
fn tag_step(state: TagState, group: CharGroup) -> Option<TagState>
    ensures { result ≡ tag_step state group }
{
    match state {
        TagState::At => match group {
            CharGroup::Letter(_) => Some(TagState::Language),
            _ => None,
        },
        TagState::Language => match group {
            CharGroup::Letter(_) => Some(TagState::Language),
            CharGroup::Minus => Some(TagState::Hyphen),
            _ => None,
        },
        TagState::Hyphen => match group {
            CharGroup::Letter(_) | CharGroup::Digit => Some(TagState::Subtag),
            _ => None,
        },
        TagState::Subtag => match group {
            CharGroup::Letter(_) | CharGroup::Digit => Some(TagState::Subtag),
            CharGroup::Minus => Some(TagState::Hyphen),
            _ => None,
        },
    }
}

/// Behind a `[` and what has been read of filling: more of it, or the `]` of an ANON.
fn in_bracket(filling: FillingState, group: CharGroup) -> Option<State>
    ensures { result ≡ in_bracket filling group }
{
    match filling_step(filling, group) {
        Some(further) => Some(State::Bracket(BracketState::Filling(further))),
        None => match group {
            CharGroup::CloseBracket => Some(State::Complete(TokenKind::Anon)),
            _ => None,
        },
    }
}

/// As through `[ ]`.
#[tactic(auto, unfolding(crate::specs::States::bracket_step))]
fn bracket_step(state: BracketState, group: CharGroup) -> Option<State>
    ensures { result ≡ bracket_step state group }
{
    match state {
        BracketState::Open => in_bracket(FillingState::Between, group),
        BracketState::Filling(filling) => in_bracket(filling, group),
    }
}

/// Whether the character is the quotation mark.
fn closes(quote: Quote, group: CharGroup) -> bool
    ensures { result ≡ closes quote group }
{
    match quote {
        Quote::Double => matches!(group, CharGroup::DoubleQuote),
        Quote::Single => matches!(group, CharGroup::SingleQuote),
    }
}

fn iri_step(group: CharGroup) -> Option<State>
    ensures { result ≡ iri_step group }
{
    match group {
        CharGroup::Greater => Some(State::Complete(TokenKind::IriRef)),
        CharGroup::Backslash => Some(State::Delimited(DelimitedState::Backslash(Within::Iri))),
        _ if group.is_in_iri() => Some(State::Delimited(DelimitedState::Inside(Within::Iri))),
        _ => None,
    }
}

/// After a character of a short string that is not its quotation mark.
fn short_char(quote: Quote, group: CharGroup) -> Option<State>
    ensures { result ≡ short_char quote group }
{
    match group {
        CharGroup::LineEnd => None,
        CharGroup::Backslash => Some(State::Delimited(DelimitedState::Backslash(Within::Short(
            quote,
        )))),
        _ => Some(State::Delimited(DelimitedState::Inside(Within::Short(quote)))),
    }
}

/// After a character of a long string that is not its quotation mark.
fn long_char(quote: Quote, group: CharGroup) -> State
    ensures { result ≡ long_char quote group }
{
    match group {
        CharGroup::Backslash => State::Delimited(DelimitedState::Backslash(Within::Long(quote))),
        _ => State::Delimited(DelimitedState::Inside(Within::Long(quote))),
    }
}

#[tactic(auto, unfolding(crate::specs::States::inside_step))]
fn inside_step(within: Within, group: CharGroup) -> Option<State>
    ensures { result ≡ inside_step within group }
{
    match within {
        Within::Iri => iri_step(group),
        Within::Short(quote) if closes(quote, group) => Some(State::Complete(TokenKind::String)),
        Within::Short(quote) => short_char(quote, group),
        Within::Long(quote) if closes(quote, group) => Some(State::Delimited(
            DelimitedState::OneQuote(quote),
        )),
        Within::Long(quote) => Some(long_char(quote, group)),
    }
}

#[tactic(auto, unfolding(crate::specs::States::escape_step))]
fn escape_step(within: Within, group: CharGroup) -> Option<DelimitedState>
    ensures { result ≡ escape_step within group }
{
    match group {
        CharGroup::Letter(LetterRole::LowerU) => Some(DelimitedState::Hex { within, more: 3 }),
        CharGroup::Letter(LetterRole::UpperU) => Some(DelimitedState::Hex { within, more: 7 }),
        _ if group.is_string_escape() => match within {
            Within::Iri => None,
            _ => Some(DelimitedState::Inside(within)),
        },
        _ => None,
    }
}

/// After a hexadecimal digit behind which so many more have to follow.
fn after_hex(within: Within, more: u8) -> DelimitedState
    ensures { result ≡ after_hex within more }
{
    if more == 0 {
        DelimitedState::Inside(within)
    } else {
        DelimitedState::Hex {
            within,
            more: more - 1,
        }
    }
}

/// As through `<a>`, `"a\n"` and `'''it's'''`.
#[tactic(auto, unfolding(crate::specs::States::delimited_step))]
fn delimited_step(state: DelimitedState, group: CharGroup) -> Option<State>
    ensures { result ≡ delimited_step state group }
{
    match state {
        DelimitedState::Open(quote) if closes(quote, group) => Some(State::Delimited(
            DelimitedState::Empty(quote),
        )),
        DelimitedState::Open(quote) => short_char(quote, group),
        DelimitedState::Empty(quote) if closes(quote, group) => {
            Some(State::Delimited(DelimitedState::Inside(Within::Long(quote))))
        }
        DelimitedState::Empty(_) => None,
        DelimitedState::Inside(within) => inside_step(within, group),
        DelimitedState::OneQuote(quote) if closes(quote, group) => {
            Some(State::Delimited(DelimitedState::TwoQuotes(quote)))
        }
        DelimitedState::OneQuote(quote) => Some(long_char(quote, group)),
        DelimitedState::TwoQuotes(quote) if closes(quote, group) => Some(State::Complete(
            TokenKind::String,
        )),
        DelimitedState::TwoQuotes(quote) => Some(long_char(quote, group)),
        DelimitedState::Backslash(within) => Some(State::Delimited(escape_step(within, group)?)),
        DelimitedState::Hex { within, more } if group.is_hex() => {
            Some(State::Delimited(after_hex(within, more)))
        }
        DelimitedState::Hex { .. } => None,
    }
}

#[tactic(auto, unfolding(crate::specs::States::step))]
fn step(state: State, group: CharGroup) -> Option<State>
    ensures { result ≡ step state group }
{
    match state {
        State::Start => first_step(group),
        State::Complete(_) => None,
        State::Number(number) => Some(State::Number(number_step(number, group)?)),
        State::Name(name) => Some(State::Name(name_step(name, group)?)),
        State::Label(label) => Some(State::Label(label_step(label, group)?)),
        State::Tag(tag) => Some(State::Tag(tag_step(tag, group)?)),
        State::Bracket(bracket) => bracket_step(bracket, group),
        State::Caret => match group {
            CharGroup::Caret => Some(State::Complete(TokenKind::DoubleCaret)),
            _ => None,
        },
        State::Delimited(delimited) => delimited_step(delimited, group),
    }
}

/// The state after one more character, or `None` where no token begins so.
pub fn next_state(state: State, c: char) -> Option<State>
    ensures { step_char state c ≡ result }
{
    step(state, group_of(c))
}
