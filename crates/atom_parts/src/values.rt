ghost use Rattle.std.specs.Prelude.{◌≡◌, ◌<◌, [], ◌∷◌, IfOk, length};
ghost use Rattle.shapes_profile.specs.Shapes.{shape_terms};
ghost use Rattle.atom_parts.specs.ValueParts.{values_of};
ghost use Rattle.atom_parts.specs.Sources.{node_list};

use path_levels::{NodeNumbers, PossibleNodes};
use rdf_terms::{OutOfMemory, Places};
use std::alloc::Global;

/// The nodes that are value nodes of a node in some edited graph.
#[derive(Drop)]
pub(crate) enum Values {
    /// For a node shape: the node itself.
    Alone(Places),
    /// For a property shape: those to which its path can lead.
    Led(NodeNumbers),
}

impl Values {
    /// The node itself.
    fn alone(alloc: Global, x: u64) -> Result<Values, OutOfMemory>
        ensures { IfOk result (λ v. node_list v ≡ x ∷ []) }
    {
        let mut one = Places::new(alloc);
        one.push(x)?;
        Ok(Values::Alone(one))
    }

    /// The numbers of the nodes, ascending.
    pub(crate) fn as_slice(&self) -> &[u64]
        ensures { result.now ≡ node_list self.now }
    {
        match self {
            Values::Alone(one) => one.as_slice(),
            Values::Led(numbers) => numbers.as_slice(),
        }
    }

    /// How many there are.
    pub(crate) fn len(&self) -> u64
        ensures { result ≡ length (node_list self.now) }
    {
        self.as_slice().len() as u64
    }
}

/// The nodes that are value nodes of a node for the shape in some edited graph.
pub(crate) fn values_of(
    alloc: Global,
    nodes: &mut PossibleNodes<'_>,
    shape: usize,
    x: u64,
) -> Result<Values, OutOfMemory>
    requires shape { shape < length (shape_terms nodes.old.shapes) }
    ensures value { IfOk result (λ v. node_list v ≡ values_of nodes.old shape x) }
    ensures same { nodes.new ≡ nodes.old }
{
    match nodes.problem().shapes().path_of(shape) {
        None => Values::alone(alloc, x),
        Some(path) => Ok(Values::Led(nodes.numbers(path as u64, x)?)),
    }
}
