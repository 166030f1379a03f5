ghost use Rattle.std.specs.Prelude.{◌≡◌, ◌-◌, ℕ, Bool, [], ◌∷◌, Some, length, take, encode_utf8_all};
ghost use Rattle.std.specs.Str.{chars};
ghost use Rattle.grammar_forms.specs.Reading.{char_at, one_at, terminal_at, skip_at, skip_some_at, Skips};
ghost use Rattle.rdf_grammar.specs.Answers.{Gives, GivesRest, IsRest, StandBefore};

/// A class of characters, as a production has it between brackets.
pub trait CharClass {
    ghost test: { Self → ℕ → Bool };

    /// Whether the character is of the class.
    fn contains(&self, c: char) -> bool
        ensures { result ≡ test self.now c };
}

/// The first character and the rest, or `None` at the end of the text.
pub fn first_char(text: &str) -> Option<(char, &str)>
    ensures { Gives (λ c. c) result (char_at (chars text.now)) }
{
    let mut rest = text.chars();
    let first = rest.next()?;
    Some((first, rest.as_str()))
}

/// The rest behind this character, or `None` where the text does not begin with it.
pub fn strip_char(text: &str, c: char) -> Option<&str>
    ensures { GivesRest result (terminal_at (c ∷ []) (chars text.now)) }
{
    let (first, rest) = first_char(text)?;
    if first == c { Some(rest) } else { None }
}

/// The first character, where it is of the class, and the rest.
pub fn char_of<'a, C: CharClass>(class: &C, text: &'a str) -> Option<(char, &'a str)>
    ensures gives { Gives (λ c. c) result (one_at (C.test class.now) (chars text.now)) }
{
    let (first, rest) = first_char(text)?;
    if class.contains(first) {
        Some((first, rest))
    } else {
        None
    }
}

/// The rest behind ASCII characters of the class at the front, each of which is one byte.
fn skip_ascii<'a, C: CharClass>(class: &C, text: &'a str) -> &'a str
    ensures { StandBefore (C.test class.now) (chars text.now) (chars result.now) }
{
    let bytes = text.as_bytes();
    let mut end = 0;
    'ascii: while end < bytes.len() && bytes[end] < 128 && class.contains(char::from(bytes[end])) {
        end += 1;
    }
    &text[end..]
}

/// The rest behind all characters of the class at the front.
pub fn skip<'a, C: CharClass>(class: &C, text: &'a str) -> &'a str
    ensures skips { skip_at (C.test class.now) (chars text.now) ≡ Some (tt, chars result.now) }
    ensures run { Skips (C.test class.now) (chars text.now) (chars result.now) }
{
    let mut rest = skip_ascii(class, text);
    'class: while let Some((_c, after)) = char_of(class, rest) {
        rest = after;
    }
    rest
}

/// The rest behind all characters of the class at the front, or `None` where there is none.
pub fn skip_some<'a, C: CharClass>(class: &C, text: &'a str) -> Option<&'a str>
    ensures { GivesRest result (skip_some_at (C.test class.now) (chars text.now)) }
{
    let (_first, rest) = char_of(class, text)?;
    Some(skip(class, rest))
}

/// The text before the rest.
pub fn front<'a>(text: &'a str, rest: &str) -> &'a str
    requires { IsRest (chars rest.now) (chars text.now) }
    ensures { result.now ≡ encode_utf8_all (take (length (chars text.now) - length (chars rest.now)) (chars text.now)) }
{
    &text[..text.len() - rest.len()]
}
