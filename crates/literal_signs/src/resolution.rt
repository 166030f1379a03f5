ghost use Rattle.std.specs.Prelude.{◌≡◌, ◌<◌, ℕ, true, false, length, IfSome, IfNone, IsTrue};
ghost use Rattle.clause_store.specs.Clauses.{has, is_clause, is_within};
ghost use Rattle.clause_store.specs.Chained.{ClashesOnce, union, without};
ghost use Rattle.literal_signs.specs.Marked.{AreApart, marked_set};

use crate::sign::{Sign, is_marked, sign_of};
use clause_store::Lit;

/// The one variable at which the marked set and the clause clash, if there is exactly one.
fn single_clash(signs: &[Sign], clause: &[Lit]) -> Option<usize>
    requires once { IsTrue (is_clause clause.now) }
    requires below { IsTrue (is_within (length signs.now) clause.now) }
    ensures some { IfSome result (λ v. ClashesOnce (marked_set signs.now) (has clause.now) v) }
    ensures within { IfSome result (λ v. v < length signs.now) }
    ensures none { IfNone result (¬ ((v : ℕ) × ClashesOnce (marked_set signs.now) (has clause.now) v)) }
{
    let mut found: Option<usize> = None;
    for lit in clause {
        let clashes = is_marked(signs[lit.var], !lit.positive);
        if clashes {
            match found {
                None => found = Some(lit.var),
                Some(_) => return None,
            }
        }
    }
    found
}

/// Marks the clause's literals, none of which clashes.
pub fn unite(signs: &mut [Sign], clause: &[Lit])
    requires once { IsTrue (is_clause clause.now) }
    requires below { IsTrue (is_within (length signs.old) clause.now) }
    requires apart { AreApart (marked_set signs.old) (has clause.now) }
    ensures length { length signs.new ≡ length signs.old }
    ensures united { marked_set signs.new ≡ union (marked_set signs.old) (has clause.now) }
{
    for lit in clause {
        signs[lit.var] = sign_of(lit.positive);
    }
}

/// Resolves the marked set with the clause, if they clash in exactly one literal, and answers whether they do.
///
/// Once the variable is erased nothing clashes, so the clause's literals can be written over; then it is erased again.
pub fn resolve(signs: &mut [Sign], clause: &[Lit]) -> bool
    requires once { IsTrue (is_clause clause.now) }
    requires below { IsTrue (is_within (length signs.old) clause.now) }
    ensures length { length signs.new ≡ length signs.old }
    ensures yes { result ≡ true → (v : ℕ) × ClashesOnce (marked_set signs.old) (has clause.now) v
        × (marked_set signs.new ≡ without (union (marked_set signs.old) (has clause.now)) v) }
    ensures no { result ≡ false → ¬ ((v : ℕ) × ClashesOnce (marked_set signs.old) (has clause.now) v) }
    ensures kept { result ≡ false → signs.new ≡ signs.old }
{
    match single_clash(signs, clause) {
        None => false,
        Some(v) => {
            signs[v] = Sign::Absent;
            unite(signs, clause);
            signs[v] = Sign::Absent;
            true
        }
    }
}
