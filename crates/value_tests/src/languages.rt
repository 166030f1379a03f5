ghost use Rattle.std.specs.Prelude.{◌≡◌, ◌++◌, codes, nat_eq};
ghost use Rattle.std.specs.List.{list_any, starts_with};
ghost use Rattle.std.specs.Str.{str_eq_ignore_ascii_case, str_to_ascii_lowercase};
ghost use Rattle.shapes_graph.specs.NodeTests.{matches, has_language};
ghost use Rattle.value_tests.specs.LanguageRanges.{is_in_range_of};

use rdf_terms::Term;

/// Whether two texts are equal but for the case of ASCII letters.
fn are_alike(a: &[u8], b: &[u8]) -> bool
    ensures { result ≡ str_eq_ignore_ascii_case a.now b.now }
{
    a.eq_ignore_ascii_case(b)
}

/// Whether the tag is the range and a `-` and anything more, without regard to the case of ASCII letters.
fn is_narrower(tag: &[u8], range: &[u8]) -> bool
    ensures { result ≡ starts_with nat_eq (str_to_ascii_lowercase tag.now)
        (str_to_ascii_lowercase range.now ++ codes "-") }
{
    if tag.len() <= range.len() {
        return false;
    }
    tag[range.len()] == b'-' && are_alike(&tag[..range.len()], range)
}

/// Whether the language range matches the tag (RFC 4647, section 3.3.1). The empty range matches none.
fn matches(tag: &str, range: &str) -> bool
    ensures { result ≡ matches tag.now range.now }
{
    match range {
        "" => false,
        "*" => true,
        _ => are_alike(tag.as_bytes(), range.as_bytes())
            || is_narrower(tag.as_bytes(), range.as_bytes()),
    }
}

/// Whether the term is a literal whose lexical form is a language range that matches the tag.
fn is_in_range_of(tag: &str, range: &Term) -> bool
    ensures { result ≡ is_in_range_of tag.now range.now }
{
    match range {
        Term::Literal { lexical, .. } => matches(tag, lexical.as_str()),
        Term::Iri(_) | Term::Blank { .. } => false,
    }
}

/// Whether one of the language ranges matches the tag.
fn is_in_any_range(tag: &str, ranges: &[Term]) -> bool
    ensures { result ≡ list_any (is_in_range_of tag.now) ranges.now }
{
    ranges.iter().any(|range| is_in_range_of(tag, range))
}

/// Whether the term is a literal with a language tag that one of the language ranges matches (SHACL
/// 2017, section 4.4.4).
pub fn has_language(ranges: &[Term], term: &Term) -> bool
    ensures { result ≡ has_language ranges.now term.now }
{
    match term {
        Term::Literal { tag: Some(tag), .. } => is_in_any_range(tag.as_str(), ranges),
        _ => false,
    }
}
