ghost use Rattle.std.specs.Prelude.{◌≡◌, ◌++◌, [], ◌∷◌, true, false, IfOk, OnOk, length, slice_get};
ghost use Rattle.atom_parts.specs.Sources.{source_list, listed_parts};

use crate::value_parts::literal;
use crate::values::Values;
use rdf_terms::OutOfMemory;
use repair_problem::{Atom, Part, PartList, Parts};
use std::alloc::Global;

/// Where the parts of an atom come from.
#[derive(Drop)]
pub(crate) enum PartSource<'p> {
    /// The parts themselves.
    Listed(PartList),
    /// That the node conforms to each of the shapes, or that it doesn't.
    Conforming {
        shapes: &'p [u64],
        node: u64,
        positive: bool,
    },
    /// That each constraint holds for the node.
    Holding {
        constraints: &'p [usize],
        node: u64,
    },
    /// That no value node counts against the constraint.
    Unmarked {
        constraint: u64,
        node: u64,
        values: Values,
    },
}

impl PartSource<'_> {
    /// How many parts there are.
    pub(crate) fn len(&self) -> usize
        ensures { result ≡ length (source_list self.now) }
    {
        match self {
            PartSource::Listed(list) => list.as_slice().len(),
            PartSource::Conforming { shapes, .. } => shapes.len(),
            PartSource::Holding { constraints, .. } => constraints.len(),
            PartSource::Unmarked { values, .. } => values.as_slice().len(),
        }
    }

    /// The part at a place.
    pub(crate) fn get(&self, place: usize) -> Option<Part>
        ensures { result ≡ slice_get (source_list self.now) place }
    {
        match self {
            PartSource::Listed(list) => Some(*list.as_slice().get(place)?),
            PartSource::Conforming {
                shapes,
                node,
                positive,
            } => {
                let s = *shapes.get(place)?;
                Some(literal(Atom::Conforms { s, x: *node }, *positive))
            }
            PartSource::Holding { constraints, node } => {
                let i = *constraints.get(place)? as u64;
                Some(literal(Atom::Holds { i, x: *node }, true))
            }
            PartSource::Unmarked {
                constraint,
                node,
                values,
            } => {
                let y = *values.as_slice().get(place)?;
                let marked = Atom::Marked {
                    i: *constraint,
                    x: *node,
                    y,
                };
                Some(literal(marked, false))
            }
        }
    }

    /// Appends all parts.
    pub(crate) fn push_onto(&self, list: &mut PartList) -> Result<(), OutOfMemory>
        ensures { OnOk result (list.new ≡ list.old ++ source_list self.now) }
    {
        'places: for place in 0..self.len() {
            if let Some(part) = self.get(place) {
                list.push(part)?;
            }
        }
        Ok(())
    }
}

/// The parts of an atom, all or any of which are meant. Contracts see them by `listed_parts`. Long lists that a problem
/// keeps are not copied for them.
#[derive(Drop)]
pub struct AtomParts<'p> {
    pub(crate) every: bool,
    pub(crate) source: PartSource<'p>,
}

impl AtomParts<'_> {
    /// Whether all parts are meant, or any.
    pub fn every(&self) -> bool
        ensures { result ≡ (listed_parts self.now).every }
    {
        self.every
    }

    /// How many parts there are.
    pub fn len(&self) -> usize
        ensures { result ≡ length ((listed_parts self.now).list) }
    {
        self.source.len()
    }

    /// The part at a place.
    pub fn get(&self, place: usize) -> Option<Part>
        ensures { result ≡ slice_get ((listed_parts self.now).list) place }
    {
        self.source.get(place)
    }

    /// Appends all parts.
    pub fn push_onto(&self, list: &mut PartList) -> Result<(), OutOfMemory>
        ensures { OnOk result (list.new ≡ list.old ++ (listed_parts self.now).list) }
    {
        self.source.push_onto(list)
    }

    /// The parts as a list.
    pub fn to_parts(&self, alloc: Global) -> Result<Parts, OutOfMemory>
        ensures { IfOk result (λ parts. parts ≡ listed_parts self.now) }
    {
        let mut list = PartList::new(alloc);
        self.push_onto(&mut list)?;
        Ok(Parts {
            every: self.every,
            list,
        })
    }
}

/// All parts of a list are meant.
pub(crate) fn all_of<'p>(list: PartList) -> AtomParts<'p>
    ensures { listed_parts result ≡ record { every = true; list = list } }
{
    AtomParts {
        every: true,
        source: PartSource::Listed(list),
    }
}

/// Any part of a list is enough.
pub(crate) fn any_of<'p>(list: PartList) -> AtomParts<'p>
    ensures { listed_parts result ≡ record { every = false; list = list } }
{
    AtomParts {
        every: false,
        source: PartSource::Listed(list),
    }
}

/// The list of one part.
pub fn one_part(alloc: Global, part: Part) -> Result<PartList, OutOfMemory>
    ensures { IfOk result (λ list. list ≡ part ∷ []) }
{
    let mut list = PartList::new(alloc);
    list.push(part)?;
    Ok(list)
}

/// The list of two parts.
pub fn two_parts(alloc: Global, first: Part, second: Part) -> Result<PartList, OutOfMemory>
    ensures { IfOk result (λ list. list ≡ first ∷ second ∷ []) }
{
    let mut list = PartList::new(alloc);
    list.push(first)?;
    list.push(second)?;
    Ok(list)
}
