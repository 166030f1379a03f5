ghost use Rattle.std.specs.Prelude.{◌≡◌, ◌<◌, ℕ, All, Contains, length, slice_get, Some, IfOk, IfSome};
ghost use Rattle.std.specs.Prelude.{option_map, option_copied};
ghost use Rattle.rdf_terms.specs.Graph.{triples};
ghost use Rattle.rdf_terms.specs.Answers.{IsMeant};
ghost use Rattle.shapes_profile.specs.Profile.{is_memory, IsInProfile, IsVerdict};
ghost use Rattle.shapes_profile.specs.Shapes.{shape_terms, shape_at};
ghost use Rattle.shapes_graph.specs.Constraints.{constraint_at, constraints_of, is_deactivated, severity_of};
ghost use Rattle.shapes_graph.specs.Constraints.{shapes_of_constraint};
ghost use Rattle.shapes_graph.specs.PathForms.{paths, path_of, parts_of_form};
ghost use Rattle.shapes_graph.specs.Targets.{targets};

use crate::constraints::Constraint;
use crate::paths::PathForm;
use crate::shape_tables::read_tables;
use crate::tables::Tables;
use crate::targets::Target;
use rdf_terms::{Graph, Term};
use shapes_profile::ShapeRefusal;
use std::alloc::Global;
use std::marker::Model;

/// A shapes graph in the profile, with what its triples state in numbered tables. Contracts see the
/// graph. Shapes are numbered in the order of terms, and so are paths, from 4 on. Nothing but reading
/// the graph takes memory.
#[derive(Drop)]
pub struct Shapes {
    graph: Graph,
    tables: Tables,
}

impl Model for Shapes {
    ghost use Rattle.rdf_terms.specs.Graph.{Graph as Triples, code};
    ghost use Rattle.shapes_profile.specs.Profile.{IsInProfile};
    ghost use Rattle.shapes_graph.specs.ShapeTables.{AreTables};

    ghost Value = { Triples };

    ghost coded = { code };

    ghost view = { λ s. s.graph };

    ghost invariant = { λ s. IsInProfile s.graph × AreTables s.graph s.tables };
}

/// Reads a shapes graph (SHACL 2017) that is in the profile of this project. Of any other graph the
/// first cause in the order of the variants of the refusal, at its first place in the order of triples
/// (`Unsupported`) or of terms. `OutOfMemory` says nothing of the graph.
pub fn read_shapes(alloc: Global, graph: Graph) -> Result<Shapes, ShapeRefusal>
    ensures verdict { IsMeant is_memory (IsVerdict graph) result }
    ensures graph { IfOk result (λ s. s ≡ graph) }
{
    let tables = read_tables(alloc, &graph)?;
    Ok(Shapes { graph, tables })
}

impl Shapes {
    /// The graph, which is in the profile.
    pub fn triples(&self) -> &Graph
        ensures graph { result.now ≡ self.now }
        ensures profile { IsInProfile self.now }
    {
        &self.graph
    }

    /// The number of shapes.
    pub fn shape_count(&self) -> usize
        ensures { result ≡ length (shape_terms self.now) }
    {
        self.tables.shapes.as_slice().len()
    }

    /// The shape of this number, counted from 0 in the order of terms.
    pub fn shape_term(&self, shape: usize) -> &Term
        requires { shape < length (shape_terms self.now) }
        ensures { shape_at self.now shape ≡ Some result.now }
    {
        &self.tables.shapes.as_slice()[shape]
    }

    /// The places in the graph of the triples that state constraints of the shape, ascending.
    pub fn constraints_of(&self, shape: usize) -> &[usize]
        requires { shape < length (shape_terms self.now) }
        ensures places { constraints_of self.now shape ≡ Some result.now }
        ensures within { All (λ i. i < length (triples self.now)) result.now }
    {
        self.tables.places.as_slice()[shape].as_slice()
    }

    /// The constraint that the triple at the place states, and `None` exactly where it states none. The
    /// numbers in it are of shapes.
    pub fn constraint(&self, place: usize) -> Option<&Constraint>
        requires { place < length (triples self.now) }
        ensures value { option_copied result ≡ constraint_at self.now place }
        ensures shapes { IfSome result (λ c. (n : ℕ) → Contains (shapes_of_constraint c.now) n
            → n < length (shape_terms self.now)) }
    {
        self.tables.constraints.as_slice()[place].as_ref()
    }

    /// The number of the path of the shape, and `None` exactly for a node shape.
    pub fn path_of(&self, shape: usize) -> Option<usize>
        requires { shape < length (shape_terms self.now) }
        ensures value { result ≡ path_of self.now shape }
        ensures within { IfSome result (λ p. p < length (paths self.now)) }
    {
        self.tables.path_numbers.as_slice()[shape]
    }

    /// The number of paths.
    pub fn path_count(&self) -> usize
        ensures { result ≡ length (paths self.now) }
    {
        self.tables.paths.as_slice().len()
    }

    /// The forms of all paths, by their numbers.
    pub fn paths(&self) -> &[PathForm]
        ensures { result.now ≡ paths self.now }
    {
        self.tables.paths.as_slice()
    }

    /// The form of the path of this number. The numbers in it are of paths too.
    pub fn path(&self, path: usize) -> &PathForm
        requires { path < length (paths self.now) }
        ensures form { slice_get (paths self.now) path ≡ Some result.now }
        ensures parts { (q : ℕ) → Contains (parts_of_form result.now) q → q < length (paths self.now) }
    {
        &self.tables.paths.as_slice()[path]
    }

    /// The targets of the shape, in the order of the graph, and at the end the shape itself where it is an
    /// IRI that is a class and declared as a shape (SHACL 2017, section 2.1.3).
    pub fn targets_of(&self, shape: usize) -> &[Target]
        requires { shape < length (shape_terms self.now) }
        ensures { option_map (targets self.now) (shape_at self.now shape) ≡ Some result.now }
    {
        self.tables.targets.as_slice()[shape].as_slice()
    }

    /// Whether the shape is deactivated (SHACL 2017, section 2.1.6).
    pub fn deactivated(&self, shape: usize) -> bool
        requires { shape < length (shape_terms self.now) }
        ensures { result ≡ is_deactivated self.now shape }
    {
        self.tables.deactivated.as_slice()[shape]
    }

    /// The severity of the results of the shape (SHACL 2017, section 2.1.4).
    pub fn severity(&self, shape: usize) -> &Term
        requires { shape < length (shape_terms self.now) }
        ensures { result.now ≡ severity_of self.now shape }
    {
        &self.tables.severities.as_slice()[shape]
    }
}
