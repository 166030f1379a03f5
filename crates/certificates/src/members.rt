ghost use Rattle.std.specs.Prelude.{◌≡◌, ◌↔◌, IfOk, IsTrue, nat_eq};
ghost use Rattle.std.specs.HashSet.{contains, IsFromIterResult};
ghost use Rattle.std.specs.List.{list_all};
ghost use Rattle.certificates.specs.Members.{AreAmong};

use rdf_terms::OutOfMemory;
use std::alloc::{AllocError, Global};
use std::collections::HashSet;

/// The set of these numbers.
fn members_of(alloc: Global, list: &[u64]) -> Result<HashSet<u64>, AllocError>
    ensures { IfOk result (IsFromIterResult nat_eq list.now) }
{
    list.iter().copied().collect(alloc)
}

/// Whether each of the numbers is in the set.
fn are_members(members: &HashSet<u64>, numbers: &[u64]) -> bool
    ensures { result ≡ list_all (λ t. contains nat_eq members.now t) numbers.now }
{
    numbers.iter().all(|t| members.contains(t))
}

/// Whether each number of the first list is in the second. It costs as many steps as they are long.
pub(crate) fn are_among(alloc: Global, less: &[u64], list: &[u64]) -> Result<bool, OutOfMemory>
    ensures { IfOk result (λ b. IsTrue b ↔ AreAmong less.now list.now) }
{
    let members = members_of(alloc, list)?;
    Ok(are_members(&members, less))
}
