ghost use Rattle.std.specs.Prelude.{◌≡◌, IfOk, IfSome, IfNone, flat_map, min};
ghost use Rattle.std.specs.Option.{option_map};
ghost use Rattle.rdf_terms.specs.Nodes.{terms};
ghost use Rattle.rdf_terms.specs.Vocab.Sh.{path as sh_path};
ghost use Rattle.rdf_navigation.specs.Values.{values};
ghost use Rattle.shapes_profile.specs.Logic.{IsFirst, NoneOf};
ghost use Rattle.shapes_profile.specs.Shapes.{shape_terms};
ghost use Rattle.shapes_profile.specs.PathNodes.{path_nodes};
ghost use Rattle.property_paths.specs.PathTable.{listed_depth};
ghost use Rattle.shapes_profile.specs.RankTable.{is_too_deep};
ghost use Rattle.shapes_profile.specs.Profile.{IsPathTooDeep};

use crate::references::push_values;
use crate::shape_nodes::ShapeNodes;
use property_paths::{DEPTH_CAP, PathDepths};
use rdf_terms::vocab::sh;
use rdf_terms::{Nodes, OutOfMemory, Term, Terms};
use std::alloc::Global;

/// The `sh:path` values of all shapes.
fn path_values(alloc: Global, shapes: &ShapeNodes<'_>) -> Result<Terms, OutOfMemory>
    ensures { IfOk result (λ ts. ts ≡ flat_map (λ x. values shapes.now x sh_path) (shape_terms shapes.now)) }
{
    let mut paths = Terms::new(alloc);
    'shapes: for shape in shapes.as_slice() {
        push_values(alloc, &mut paths, shapes.graph(), shape, sh::PATH)?;
    }
    Ok(paths)
}

/// The path nodes and the list cells of sequences that the `sh:path` values of shapes are made of.
pub fn path_nodes(
    alloc: Global,
    shapes: &ShapeNodes<'_>,
    paths: &PathDepths<'_>,
) -> Result<Nodes, OutOfMemory>
    requires { paths.now ≡ shapes.now }
    ensures { IfOk result (λ n. n ≡ path_nodes shapes.now) }
{
    let starts = path_values(alloc, shapes)?;
    paths.made_of(alloc, starts.as_slice())
}

/// Whether the node has no depth of at most 32 as a path.
fn is_too_deep(paths: &PathDepths<'_>, node: &Term) -> bool
    ensures { result ≡ is_too_deep 33 (option_map (min 33) (listed_depth paths.now node.now)) }
{
    match paths.depth_of(node) {
        Some(depth) => depth >= DEPTH_CAP,
        None => true,
    }
}

/// The first path node of a depth over 32.
pub fn first_deep_path<'n>(paths: &PathDepths<'_>, nodes: &'n Nodes) -> Option<&'n Term>
    requires { nodes.now ≡ path_nodes paths.now }
    ensures some { IfSome result (λ x. IsFirst (IsPathTooDeep paths.now) (terms (path_nodes paths.now)) x.now) }
    ensures none { IfNone result (NoneOf (IsPathTooDeep paths.now) (terms (path_nodes paths.now))) }
{
    'seeking: for node in nodes.as_slice() {
        if is_too_deep(paths, node) {
            return Some(node);
        }
    }
    None
}
