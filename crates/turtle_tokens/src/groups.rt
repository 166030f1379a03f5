ghost use Rattle.std.specs.Prelude.{◌≡◌};
ghost use Rattle.turtle_tokens.specs.Groups.{letter_role, mark_group, ascii_group, wide_group, group_at, is_hex_digit};
ghost use Rattle.turtle_tokens.specs.Groups.{begins_name, is_in_name, is_local_escape, is_string_escape, is_iri_group};

use rdf_grammar::{Dialect, is_base, is_name_char};

/// What an ASCII letter is besides a letter of a name.
#[derive(Clone, Copy)]
pub enum LetterRole {
    /// A hexadecimal digit: `A` to `D`, `F`, `a`, `c`, `d`.
    Hex,
    /// A hexadecimal digit that begins an exponent too: `E` and `e`.
    HexExponent,
    /// A hexadecimal digit that ends an escape too: `b` and `f`.
    HexEscape,
    /// The end of an escape: `n`, `r`, `t`.
    Escape,
    /// `U`
    UpperU,
    /// `u`
    LowerU,
    /// Nothing else.
    Plain,
}

/// A group of characters that all productions of tokens treat alike.
#[derive(Clone, Copy)]
pub enum CharGroup {
    /// Tab and space.
    Blank,
    /// LF and CR.
    LineEnd,
    /// `"`
    DoubleQuote,
    /// `'`
    SingleQuote,
    /// `#`
    Hash,
    /// `%`
    Percent,
    /// `(`
    OpenParen,
    /// `)`
    CloseParen,
    /// `+`
    Plus,
    /// `,`
    Comma,
    /// `-`
    Minus,
    /// `.`
    Dot,
    /// `:`
    Colon,
    /// `;`
    Semicolon,
    /// `<`
    Less,
    /// `>`
    Greater,
    /// `@`
    At,
    /// `[`
    OpenBracket,
    /// `\`
    Backslash,
    /// `]`
    CloseBracket,
    /// `^`
    Caret,
    /// `_`
    Underscore,
    /// `0` to `9`.
    Digit,
    /// An ASCII letter.
    Letter(LetterRole),
    /// `! $ & * / = ? ~`, which begin no token and which a local name escapes.
    OnlyEscapable,
    /// `` ` ``, `{`, `|`, `}` and the control characters but tab, LF, CR and DEL: in strings and comments alone.
    TextOnly,
    /// PN_CHARS_BASE beyond ASCII.
    NameStart,
    /// PN_CHARS beyond ASCII with which no name begins.
    NameInside,
    /// DEL, and all others beyond ASCII.
    Other,
}

#[tactic(auto, unfolding(crate::specs::Groups::letter_role))]
fn letter_role(c: char) -> LetterRole
    ensures { result ≡ letter_role c }
{
    match c {
        'E' | 'e' => LetterRole::HexExponent,
        'b' | 'f' => LetterRole::HexEscape,
        'A' | 'B' | 'C' | 'D' | 'F' | 'a' | 'c' | 'd' => LetterRole::Hex,
        'n' | 'r' | 't' => LetterRole::Escape,
        'U' => LetterRole::UpperU,
        'u' => LetterRole::LowerU,
        _ => LetterRole::Plain,
    }
}

/// The group of an ASCII character that is no letter and no digit.
#[tactic(auto, unfolding(crate::specs::Groups::mark_group))]
fn mark_group(c: char) -> CharGroup
    ensures { result ≡ mark_group c }
{
    match c {
        '\t' | ' ' => CharGroup::Blank,
        '\n' | '\r' => CharGroup::LineEnd,
        '"' => CharGroup::DoubleQuote,
        '\'' => CharGroup::SingleQuote,
        '#' => CharGroup::Hash,
        '%' => CharGroup::Percent,
        '(' => CharGroup::OpenParen,
        ')' => CharGroup::CloseParen,
        '+' => CharGroup::Plus,
        ',' => CharGroup::Comma,
        '-' => CharGroup::Minus,
        '.' => CharGroup::Dot,
        ':' => CharGroup::Colon,
        ';' => CharGroup::Semicolon,
        '<' => CharGroup::Less,
        '>' => CharGroup::Greater,
        '@' => CharGroup::At,
        '[' => CharGroup::OpenBracket,
        '\\' => CharGroup::Backslash,
        ']' => CharGroup::CloseBracket,
        '^' => CharGroup::Caret,
        '_' => CharGroup::Underscore,
        '!' | '$' | '&' | '*' | '/' | '=' | '?' | '~' => CharGroup::OnlyEscapable,
        '\x7f' => CharGroup::Other,
        _ => CharGroup::TextOnly,
    }
}

#[tactic(auto, unfolding(crate::specs::Groups::ascii_group))]
fn ascii_group(c: char) -> CharGroup
    ensures { result ≡ ascii_group c }
{
    if c.is_ascii_alphabetic() {
        CharGroup::Letter(letter_role(c))
    } else if c.is_ascii_digit() {
        CharGroup::Digit
    } else {
        mark_group(c)
    }
}

/// The group of a character beyond ASCII.
#[tactic(auto, unfolding(crate::specs::Groups::wide_group))]
fn wide_group(c: char) -> CharGroup
    ensures { result ≡ wide_group c }
{
    if is_base(c) {
        CharGroup::NameStart
    } else if is_name_char(Dialect::Turtle, c) {
        CharGroup::NameInside
    } else {
        CharGroup::Other
    }
}

#[tactic(auto, unfolding(crate::specs::Groups::group_at))]
pub fn group_of(c: char) -> CharGroup
    ensures { result ≡ group_at c }
{
    if c < '\u{80}' {
        ascii_group(c)
    } else {
        wide_group(c)
    }
}

impl CharGroup {
    /// HEX.
    pub fn is_hex(self) -> bool
        ensures { result ≡ is_hex_digit self }
    {
        matches!(
            self,
            CharGroup::Digit
                | CharGroup::Letter(
                    LetterRole::Hex | LetterRole::HexExponent | LetterRole::HexEscape
                )
        )
    }

    /// PN_CHARS_U.
    pub fn begins_name(self) -> bool
        ensures { result ≡ begins_name self }
    {
        matches!(
            self,
            CharGroup::Letter(_) | CharGroup::Underscore | CharGroup::NameStart
        )
    }

    /// PN_CHARS.
    pub fn is_in_name(self) -> bool
        ensures { result ≡ is_in_name self }
    {
        self.begins_name()
            || matches!(
                self,
                CharGroup::Digit | CharGroup::Minus | CharGroup::NameInside
            )
    }

    /// What PN_LOCAL_ESC has behind its `\`.
    pub fn is_local_escape(self) -> bool
        ensures { result ≡ is_local_escape self }
    {
        matches!(
            self,
            CharGroup::Underscore
                | CharGroup::Dot
                | CharGroup::Minus
                | CharGroup::SingleQuote
                | CharGroup::OpenParen
                | CharGroup::CloseParen
                | CharGroup::Plus
                | CharGroup::Comma
                | CharGroup::Semicolon
                | CharGroup::Hash
                | CharGroup::At
                | CharGroup::Percent
                | CharGroup::OnlyEscapable
        )
    }

    /// What ECHAR has behind its `\`.
    pub fn is_string_escape(self) -> bool
        ensures { result ≡ is_string_escape self }
    {
        matches!(
            self,
            CharGroup::DoubleQuote
                | CharGroup::SingleQuote
                | CharGroup::Backslash
                | CharGroup::Letter(LetterRole::Escape | LetterRole::HexEscape)
        )
    }

    /// What IRIREF has between its `<` and `>`, but for UCHAR.
    pub fn is_in_iri(self) -> bool
        ensures { result ≡ is_iri_group self }
    {
        !matches!(
            self,
            CharGroup::Blank
                | CharGroup::LineEnd
                | CharGroup::DoubleQuote
                | CharGroup::Less
                | CharGroup::Greater
                | CharGroup::Backslash
                | CharGroup::Caret
                | CharGroup::TextOnly
        )
    }
}
