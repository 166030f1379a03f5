ghost use Rattle.std.specs.Prelude.{◌≡◌, ℕ, IfSome, IfNone, Some, None, slice_get, nat_lt};
ghost use Rattle.shapes_graph.specs.PathForms.{paths};
ghost use Rattle.path_levels.specs.PathParts.{form_at, has_level, is_start};

use repair_problem::Problem;
use shapes_graph::PathForm;

/// The form of a path by its number, and `None` where there is none.
pub(crate) fn form_at(problem: &Problem, p: u64) -> Option<&PathForm>
    ensures some { IfSome result (λ f. form_at problem.now p ≡ Some f.now) }
    ensures none { IfNone result (form_at problem.now p ≡ None) }
{
    problem.shapes().paths().get(p as usize)
}

/// Whether there is an atom of level `k` of a repeated path that can lead to so many nodes.
pub(crate) fn has_level(problem: &Problem, p: u64, k: u64, count: u64) -> bool
    ensures { result ≡ has_level (form_at problem.now p) k count }
{
    match form_at(problem, p) {
        Some(PathForm::ZeroOrMore(_)) => 0 < k && k < count,
        Some(PathForm::OneOrMore(_)) => k < count,
        _ => false,
    }
}

/// Whether level `k` is that of zero or more steps in which no step is made.
pub(crate) fn is_start(problem: &Problem, p: u64, k: u64) -> bool
    ensures { result ≡ is_start (form_at problem.now p) k }
{
    match form_at(problem, p) {
        Some(PathForm::ZeroOrMore(_)) => k == 0,
        _ => false,
    }
}
