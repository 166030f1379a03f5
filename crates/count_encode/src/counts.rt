ghost use Rattle.std.specs.Prelude.{◌≡◌, ℕ, ◌-◌, ◌≤◌, List, Bool, Some, slice_get, IfOk, IsTrue};
ghost use Rattle.repair_problem.specs.declared.atom.Atom.{Atom as Fact};
ghost use Rattle.count_encode.specs.PartTruth.{part_value, is_true};
ghost use Rattle.count_encode.specs.Counts.{counted, count_parts, Counting, Fix};

use crate::negation;
use rdf_terms::OutOfMemory;
use repair_problem::{Atom, Literal, Part, PartList};
use std::alloc::Global;

/// That at least `m` of the first `j` things are to be counted, as a part. At least none always are, and of `j` things
/// never more than `j`.
pub fn counted(i: u64, x: u64, j: u64, m: u64) -> Part
    ensures { result ≡ counted i x j m }
{
    if m == 0 {
        Part::Fixed(true)
    } else if j < m {
        Part::Fixed(false)
    } else {
        Part::Lit(Literal {
            atom: Atom::Count { i, x, j, m },
            positive: true,
        })
    }
}

/// The parts of the clause of a `Count` atom at a place, where `item` says that the j-th thing is to be counted. Each
/// clause is true wherever the counters tell how many of the things are.
pub fn count_clause(
    alloc: Global,
    i: usize,
    x: usize,
    j: u64,
    m: u64,
    item: Part,
    place: usize,
) -> Result<PartList, OutOfMemory>
    requires least { 1 ≤ m }
    requires most { m ≤ j }
    requires place { place ≤ 3 }
    ensures value { IfOk result (λ parts. parts ≡ count_parts i x j m item place) }
    ensures holds { IfOk result (λ parts. (a : Fact → Bool) → (values : List Bool) → Counting a i x values
        → slice_get values (j - 1) ≡ Some (part_value a item) → IsTrue (is_true a parts)) }
{
    clause_parts(alloc, i as u64, x as u64, j, m, item, place)
}

/// The same parts.
fn clause_parts(
    alloc: Global,
    i: u64,
    x: u64,
    j: u64,
    m: u64,
    item: Part,
    place: usize,
) -> Result<PartList, OutOfMemory>
    requires least { 1 ≤ m }
    requires most { m ≤ j }
    requires place { place ≤ 3 }
    ensures { IfOk result (λ parts. parts ≡ count_parts i x j m item place) }
{
    let here = counted(i, x, j, m);
    let same = counted(i, x, j - 1, m);
    let less = counted(i, x, j - 1, m - 1);
    let mut parts = PartList::new(alloc);
    if place == 0 {
        parts.push(here)?;
        parts.push(negation(same))?;
    } else if place == 1 {
        parts.push(here)?;
        parts.push(negation(less))?;
        parts.push(negation(item))?;
    } else if place == 2 {
        parts.push(negation(here))?;
        parts.push(same)?;
        parts.push(less)?;
    } else {
        parts.push(negation(here))?;
        parts.push(same)?;
        parts.push(item)?;
    }
    Ok(parts)
}

/// The four clauses of a counter fix it: where they are true and the two lower counters tell how many of the values are
/// true, this one does too.
pub fn counters_fix(_i: u64, _x: u64, _j: u64, _m: u64, _item: Part)
    requires least { 1 ≤ _m }
    requires most { _m ≤ _j }
    ensures { (a : Fact → Bool) → (values : List Bool) → Fix a _i _x _j _m _item values }
{}
