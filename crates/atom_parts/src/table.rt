ghost use Rattle.std.specs.Prelude.{◌≡◌, ◌≢◌, ◌↔◌, ℕ, IfOk, IfSome, IsTrue};
ghost use Rattle.rdf_terms.specs.Graph.{Graph};
ghost use Rattle.repair_problem.specs.declared.atom.Atom.{Atom as Fact};
ghost use Rattle.repair_problem.specs.declared.atom.Atom.TheVariants as variant;
ghost use Rattle.repair_problem.specs.Setting.{IsEdit};
ghost use Rattle.repair_problem.specs.Meaning.{Means};
ghost use Rattle.repair_problem.specs.PartMeaning.{PartsMean};
ghost use Rattle.atom_parts.specs.PartsTable.{parts_of, is_node, is_shape};
ghost use Rattle.atom_parts.specs.Fixing.{NoAtom, fixing, IsOfAtom, IsOrdered, MeansFixing};
ghost use Rattle.atom_parts.specs.Sources.{listed_fixing};

use crate::fixing::{fixing_of, source_of};
use crate::{Fixing, shape_parts, value_parts};
use path_levels::PossibleNodes;
use rdf_terms::OutOfMemory;
use repair_problem::{Atom, Parts, Problem};
use std::alloc::Global;
use std::marker::Model;

/// The parts of an atom as a list, if it has parts.
fn listed_parts_of(
    alloc: Global,
    nodes: &mut PossibleNodes<'_>,
    atom: &Atom,
) -> Result<Option<Parts>, OutOfMemory>
    ensures value { IfOk result (λ o. o ≡ parts_of nodes.old atom.now) }
    ensures same { nodes.new ≡ nodes.old }
{
    match source_of(alloc, nodes, atom)? {
        Some(parts) => Ok(Some(parts.to_parts(alloc)?)),
        None => Ok(None),
    }
}

/// What the atoms of a repair problem come down to. Contracts see the problem.
///
/// What is found of the paths of the problem is kept, so what asks for many atoms keeps one of these.
#[derive(Drop)]
pub struct AtomTable<'p> {
    alloc: Global,
    nodes: PossibleNodes<'p>,
}

impl<'p> Model for AtomTable<'p> {
    ghost use Rattle.repair_problem.specs.Setting.{Setting, code};

    ghost Value = { Setting };

    ghost coded = { code };

    ghost view = { λ t. t.nodes };
}

impl<'p> AtomTable<'p> {
    /// The table of the problem, none of whose atoms has been asked for yet.
    pub fn new(alloc: Global, problem: &'p Problem) -> Result<AtomTable<'p>, OutOfMemory>
        ensures { IfOk result (λ t. t ≡ problem.now) }
    {
        Ok(AtomTable {
            alloc,
            nodes: PossibleNodes::new(alloc, problem)?,
        })
    }

    /// The problem.
    pub fn problem(&self) -> &'p Problem
        ensures { result.now ≡ self.now }
    {
        self.nodes.problem()
    }

    /// Whether it is the number of a node.
    pub fn is_node(&self, x: u64) -> bool
        ensures { result ≡ is_node self.now x }
    {
        value_parts::is_node(self.problem(), x)
    }

    /// Whether it is the number of a shape.
    pub fn is_shape(&self, s: u64) -> bool
        ensures { result ≡ is_shape self.now s }
    {
        shape_parts::is_shape(self.problem(), s)
    }

    /// What fixes the truth of an atom in each edited graph: its parts, all or any of them, or of a counter two
    /// counters over one item less and the item. The members of a list of shapes, the constraints of a shape and the
    /// value nodes of a node are not copied; all other lists of parts are made whole for each question.
    pub fn fixing(&mut self, atom: &Atom) -> Result<Fixing<'p>, OutOfMemory>
        ensures value { IfOk result (λ f. listed_fixing f ≡ fixing self.old atom.now) }
        ensures own { IfOk result (λ f. IsOfAtom atom.now (listed_fixing f)) }
        ensures same { self.new ≡ self.old }
    {
        fixing_of(self.alloc, &mut self.nodes, atom)
    }

    /// Whether the numbers name an atom.
    pub fn is_atom(&mut self, atom: &Atom) -> Result<bool, OutOfMemory>
        ensures value { IfOk result (λ b. IsTrue b ↔ (fixing self.old atom.now ≢ NoAtom)) }
        ensures same { self.new ≡ self.old }
    {
        match self.fixing(atom)? {
            Fixing::NoAtom => Ok(false),
            Fixing::Free | Fixing::ByParts(_) | Fixing::ByCount { .. } => Ok(true),
        }
    }

    /// The parts of an atom, and `None` exactly where the numbers name no atom, and for `Triple` and `Count` atoms. In
    /// each edited graph the atom is true exactly where all of its parts are, or any of them.
    pub fn parts_of(&mut self, atom: &Atom) -> Result<Option<Parts>, OutOfMemory>
        ensures value { IfOk result (λ o. o ≡ parts_of self.old atom.now) }
        ensures means { IfOk result (λ o. IfSome o (λ parts. (g : Graph) → IsEdit self.old g
            → Means self.old g atom.now ↔ PartsMean (Means self.old g) parts)) }
        ensures same { self.new ≡ self.old }
    {
        let problem = self.problem();
        let shapes = problem.shapes();
        // The clause of this call says that the shapes are in the profile.
        let _triples = shapes.triples();
        listed_parts_of(self.alloc, &mut self.nodes, atom)
    }

    /// In each edited graph an atom means what fixes it. Each atom is founded: what fixes it stands below it, in an
    /// order in which nothing stands below itself. Each part that isn't fixed is an atom, and so are those of a root.
    pub fn atoms_are_founded(&self)
        ensures means { (g : Graph) → IsEdit self.now g → (a : Fact)
            → MeansFixing (Means self.now g) a (fixing self.now a) }
        ensures ordered { IsOrdered (fixing self.now) }
        ensures roots { (n x : ℕ) → IsTrue (is_shape self.now n) → IsTrue (is_node self.now x)
            → (fixing self.now (variant.Target n x) ≢ NoAtom) × (fixing self.now (variant.Conforms n x) ≢ NoAtom) }
    {
        let problem = self.problem();
        let shapes = problem.shapes();
        // The clause of this call says that the shapes are in the profile.
        let _triples = shapes.triples();
    }
}

/// The parts of an atom, and `None` exactly where the numbers name no atom, and for `Triple` and `Count` atoms. In each
/// edited graph the atom is true exactly where all of its parts are, or any of them. It numbers the full graph anew:
/// what asks for many keeps an [`AtomTable`].
pub fn parts_of(alloc: Global, problem: &Problem, atom: &Atom) -> Result<Option<Parts>, OutOfMemory>
    ensures value { IfOk result (λ o. o ≡ parts_of problem.now atom.now) }
    ensures means { IfOk result (λ o. IfSome o (λ parts. (g : Graph) → IsEdit problem.now g
        → Means problem.now g atom.now ↔ PartsMean (Means problem.now g) parts)) }
{
    let mut table = AtomTable::new(alloc, problem)?;
    table.parts_of(atom)
}
