ghost use Rattle.std.specs.Prelude.{◌<◌, IfSome};
ghost use Rattle.std.specs.Str.{chars};
ghost use Rattle.rdf_grammar.specs.Answers.{Gives};
ghost use Rattle.rdf_grammar.specs.Reading.{hex_at, hex2_at, hex4_at, hex8_at, uchar_at, echar_at};

use crate::characters::{first_char, strip_char};

#[tactic(auto, unfolding(crate::specs::Reading::hex_at))]
fn parse_hex(text: &str) -> Option<(u32, &str)>
    ensures gives { Gives (λ d. d) result (hex_at (chars text.now)) }
    ensures small { IfSome result (λ x. x.0 < 16) }
{
    let (c, rest) = first_char(text)?;
    let digit = c.to_digit(16)?;
    Some((digit, rest))
}

#[tactic(auto, unfolding(crate::specs::Reading::hex2_at))]
fn parse_hex2(text: &str) -> Option<(u32, &str)>
    ensures gives { Gives (λ d. d) result (hex2_at (chars text.now)) }
    ensures small { IfSome result (λ x. x.0 < 256) }
{
    let (a, rest) = parse_hex(text)?;
    let (b, rest) = parse_hex(rest)?;
    Some((a * 16 + b, rest))
}

#[tactic(auto, unfolding(crate::specs::Reading::hex4_at))]
fn parse_hex4(text: &str) -> Option<(u32, &str)>
    ensures gives { Gives (λ d. d) result (hex4_at (chars text.now)) }
    ensures small { IfSome result (λ x. x.0 < 65536) }
{
    let (a, rest) = parse_hex2(text)?;
    let (b, rest) = parse_hex2(rest)?;
    Some((a * 256 + b, rest))
}

#[tactic(auto, unfolding(crate::specs::Reading::hex8_at))]
fn parse_hex8(text: &str) -> Option<(u32, &str)>
    ensures gives { Gives (λ d. d) result (hex8_at (chars text.now)) }
{
    let (a, rest) = parse_hex4(text)?;
    let (b, rest) = parse_hex4(rest)?;
    Some((a * 65536 + b, rest))
}

/// UCHAR: `\u` with four or `\U` with eight hexadecimal digits, which name a scalar value.
#[tactic(auto, unfolding(crate::specs::Reading::uchar_at))]
pub fn parse_uchar(text: &str) -> Option<(char, &str)>
    ensures { Gives (λ c. c) result (uchar_at (chars text.now)) }
{
    let (first, rest) = first_char(text)?;
    if first != '\\' {
        return None;
    }
    let (kind, rest) = first_char(rest)?;
    let (code, rest) = match kind {
        'u' => parse_hex4(rest)?,
        'U' => parse_hex8(rest)?,
        _ => return None,
    };
    let named = char::from_u32(code)?;
    Some((named, rest))
}

/// ECHAR: `\` and one of `t b n r f " ' \`.
#[tactic(auto, unfolding(crate::specs::Reading::echar_at))]
pub fn parse_echar(text: &str) -> Option<(char, &str)>
    ensures { Gives (λ c. c) result (echar_at (chars text.now)) }
{
    let rest = strip_char(text, '\\')?;
    let (c, rest) = first_char(rest)?;
    let meant = match c {
        't' => '\t',
        'b' => '\u{8}',
        'n' => '\n',
        'r' => '\r',
        'f' => '\u{c}',
        '"' | '\'' | '\\' => c,
        _ => return None,
    };
    Some((meant, rest))
}
