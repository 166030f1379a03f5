ghost use Rattle.std.specs.Prelude.{◌≡◌, ◌++◌, IfOk, decimal};
ghost use Rattle.turtle_statements.specs.Meaning.{scope_of, label_start, anonymous};

use rdf_terms::{OutOfMemory, Scope, Term, Text};
use std::alloc::Global;

/// Which document is read. It decides the scope of blank nodes and the labels of anonymous ones.
#[derive(Clone, Copy, Debug, PartialEq, Eq)]
pub enum Role {
    /// The data.
    Data,
    /// The triples that are offered. They have the scope of the data.
    Offered,
    /// The shapes.
    Shapes,
}

/// The scope of blank nodes in a document of this role.
pub(crate) fn scope_of(role: Role) -> Scope
    ensures { result ≡ scope_of role }
{
    match role {
        Role::Data | Role::Offered => Scope::Data,
        Role::Shapes => Scope::Shapes,
    }
}

/// What the labels of anonymous nodes begin with.
fn label_start(role: Role) -> &'static str
    ensures { result.now ≡ label_start role }
{
    match role {
        Role::Data => "x-anon-d-",
        Role::Offered => "x-anon-o-",
        Role::Shapes => "x-anon-s-",
    }
}

/// The label of the anonymous node with this number, counted from 0.
fn label_of(alloc: Global, role: Role, number: u64) -> Result<Text, OutOfMemory>
    ensures { IfOk result (λ label. label ≡ label_start role ++ decimal number) }
{
    let start = label_start(role);
    Text::from_string(format!(in alloc; "{start}{number}")?)
}

/// The anonymous node with this number, counted from 0.
pub(crate) fn anonymous(alloc: Global, role: Role, number: u64) -> Result<Term, OutOfMemory>
    ensures { IfOk result (λ node. node ≡ anonymous role number) }
{
    Ok(Term::Blank {
        scope: scope_of(role),
        label: label_of(alloc, role, number)?,
    })
}
