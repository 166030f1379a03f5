ghost use Rattle.std.specs.Prelude.{◌≡◌, ◌++◌, [], ◌∷◌, OnOk, IfOk, IfSome, IfNone, length, slice_get, Some, None};
ghost use Rattle.path_eval.specs.Automaton.{IsGrown, EachWith, IsCompiled, AreForked, IsLoop};

use crate::Direction;
use rdf_terms::OutOfMemory;
use shapes_graph::PathForm;

/// What an automaton that follows a path does in one of its states.
#[derive(Clone, Copy)]
pub(crate) enum State {
    /// The path ends here.
    Found,
    /// Nothing leads on.
    Stuck,
    /// A triple with the predicate of a path leads on: to its object, or backwards to its subject.
    Step {
        path: usize,
        direction: Direction,
        next: usize,
    },
    /// Both states go on from the same term.
    Fork(usize, usize),
}

/// The form of a path by its number, and `None` where there is none.
pub(crate) fn form_at(forms: &[PathForm], path: usize) -> Option<&PathForm>
    ensures some { IfSome result (λ f. slice_get forms.now path ≡ Some f.now) }
    ensures none { IfNone result (slice_get forms.now path ≡ None) }
{
    forms.get(path)
}

/// What the automaton does in a state, by its number, and `None` where there is none.
pub(crate) fn state_at(states: &[State], number: usize) -> Option<State>
    ensures { result ≡ slice_get states.now number }
{
    states.get(number).copied()
}

/// Appends a state, and answers its number.
fn push_state(states: &mut Vec<State>, state: State) -> Result<usize, OutOfMemory>
    ensures number { IfOk result (λ e. e ≡ length states.old.items) }
    ensures pushed { OnOk result (states.new.items ≡ states.old.items ++ state ∷ []) }
{
    let number = states.len();
    states.push(state)?;
    Ok(number)
}

/// Appends the states of a path that nests less than `fuel` deep, and answers the first of them. The
/// path leads from there to the state `next`.
#[cycle(compiling)]
pub(crate) fn compile(
    states: &mut Vec<State>,
    forms: &[PathForm],
    fuel: u64,
    path: usize,
    direction: Direction,
    next: usize,
) -> Result<usize, OutOfMemory>
    ensures grown { OnOk result (IsGrown states.old.items states.new.items) }
    ensures compiled { IfOk result (λ e. EachWith states.old.items states.new.items
        (λ code. IsCompiled fuel forms.now code path direction e next)) }
{
    if fuel == 0 {
        return push_state(states, State::Stuck);
    }
    let inner = fuel - 1;
    match form_at(forms, path) {
        None => push_state(states, State::Stuck),
        Some(PathForm::Predicate(_)) => push_state(
            states,
            State::Step {
                path,
                direction,
                next,
            },
        ),
        Some(PathForm::Inverse(part)) => {
            compile(states, forms, inner, *part, direction.turned(), next)
        }
        Some(PathForm::Sequence(first, second)) => {
            let (near, far) = direction.ordered(*first, *second);
            let middle = compile(states, forms, inner, far, direction, next)?;
            compile(states, forms, inner, near, direction, middle)
        }
        Some(PathForm::Alternative(members)) => {
            compile_members(states, forms, inner, members.as_slice(), direction, next)
        }
        Some(PathForm::ZeroOrMore(part)) => {
            let (fork, _body) = compile_loop(states, forms, inner, *part, direction, next)?;
            Ok(fork)
        }
        Some(PathForm::OneOrMore(part)) => {
            let (_fork, body) = compile_loop(states, forms, inner, *part, direction, next)?;
            Ok(body)
        }
        Some(PathForm::ZeroOrOne(part)) => {
            let body = compile(states, forms, inner, *part, direction, next)?;
            push_state(states, State::Fork(body, next))
        }
    }
}

/// Appends the states of some paths, and a fork to each of them. It answers the first fork.
#[cycle(compiling)]
fn compile_members(
    states: &mut Vec<State>,
    forms: &[PathForm],
    fuel: u64,
    members: &[u64],
    direction: Direction,
    next: usize,
) -> Result<usize, OutOfMemory>
    ensures grown { OnOk result (IsGrown states.old.items states.new.items) }
    ensures compiled { IfOk result (λ e. EachWith states.old.items states.new.items
        (λ code. AreForked (λ q a. IsCompiled fuel forms.now code q direction a next)
        code members.now (length members.now) e)) }
{
    let mut entry = push_state(states, State::Stuck)?;
    'members: for member in members {
        let body = compile(states, forms, fuel, *member as usize, direction, next)?;
        entry = push_state(states, State::Fork(body, entry))?;
    }
    Ok(entry)
}

/// Appends a fork to a path and to the state `next`, and the states of the path, which leads back to the
/// fork. It answers the fork and the first state of the path.
#[cycle(compiling)]
fn compile_loop(
    states: &mut Vec<State>,
    forms: &[PathForm],
    fuel: u64,
    path: usize,
    direction: Direction,
    next: usize,
) -> Result<(usize, usize), OutOfMemory>
    ensures grown { OnOk result (IsGrown states.old.items states.new.items) }
    ensures compiled { IfOk result (λ r. EachWith states.old.items states.new.items
        (λ code. IsLoop (λ q a k. IsCompiled fuel forms.now code q direction a k) code path r.0 r.1 next)) }
{
    let fork = push_state(states, State::Stuck)?;
    let body = compile(states, forms, fuel, path, direction, fork)?;
    states[fork] = State::Fork(body, next);
    Ok((fork, body))
}
