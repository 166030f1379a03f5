/// What a token is: a terminal of the grammar of Turtle (RDF 1.1 Turtle, section 6.5).
#[derive(Clone, Copy, Debug, PartialEq, Eq)]
pub enum TokenKind {
    /// `.`
    Dot,
    /// `,`
    Comma,
    /// `;`
    Semicolon,
    /// `[` with no ANON.
    OpenBracket,
    /// `]`
    CloseBracket,
    /// `(`
    OpenParen,
    /// `)`
    CloseParen,
    /// `^^`
    DoubleCaret,
    /// ANON: `[` and `]` with nothing but white space and comments between them.
    Anon,
    /// IRIREF
    IriRef,
    /// PNAME_NS: a prefix, or none, and a colon.
    PnameNs,
    /// PNAME_LN: a prefixed name with a local part.
    PnameLn,
    /// BLANK_NODE_LABEL, with its `_:`.
    BlankNodeLabel,
    /// LANGTAG, with its `@`; `@prefix` and `@base` too.
    LangTag,
    /// A string in any of the four ways of quoting it, with its quotation marks.
    String,
    /// INTEGER
    Integer,
    /// DECIMAL
    Decimal,
    /// DOUBLE
    Double,
    /// ASCII letters: `a`, `true`, `false`, `PREFIX` and `BASE` in any case, or what is no keyword.
    Word,
}
