ghost use Rattle.std.specs.Prelude.{◌≡◌};
ghost use Rattle.rdf_terms.specs.TermHash.{hash_step, text_hash, term_hash, hashed_cmp};

use crate::Term;
use std::cmp::Ordering;

/// A hash of the term, by its texts. It takes no memory.
pub(crate) fn hash_term(term: &Term) -> u64
    ensures { result ≡ term_hash term.now }
{
    match term {
        Term::Iri(text) => hash_text(0, text.as_str()),
        Term::Blank { label, .. } => hash_text(0, label.as_str()),
        Term::Literal {
            lexical,
            datatype,
            tag,
        } => {
            let hash = hash_text(hash_text(0, lexical.as_str()), datatype.as_str());
            match tag {
                None => hash,
                Some(tag) => hash_text(hash, tag.as_str()),
            }
        }
    }
}

/// The hash of a text behind those that were hashed before.
fn hash_text(hash: u64, text: &str) -> u64
    ensures { result ≡ text_hash hash text.now }
{
    let (words, rest) = text.as_bytes().as_chunks::<8>();
    let hash = words.iter().fold(hash, |hash: u64, word| {
        push_word(hash, u64::from_le_bytes(*word))
    });
    rest.iter()
        .fold(hash, |hash: u64, byte| push_word(hash, u64::from(*byte)))
}

/// The hash behind one more word.
fn push_word(hash: u64, word: u64) -> u64
    ensures { result ≡ hash_step hash word }
{
    hash.wrapping_mul(0x9e37_79b9_7f4a_7c15).wrapping_add(word)
}

/// The order of two terms by their hashes, and then in the order of terms. It takes no memory.
pub(crate) fn compare_hashed(a: &Term, b: &Term) -> Ordering
    ensures { result ≡ hashed_cmp a.now b.now }
{
    match a.compare(b) {
        Ordering::Equal => Ordering::Equal,
        order => hash_term(a).cmp(&hash_term(b)).then(order),
    }
}
