ghost use Rattle.std.specs.Prelude.{◌≡◌};
ghost use Rattle.path_eval.specs.Directions.{turned, ordered};

/// Which way a path is followed.
#[derive(Clone, Copy)]
pub enum Direction {
    /// From a term to the terms that the path leads to.
    Forward,
    /// From a term to the terms from which the path leads there.
    Backward,
}

impl Direction {
    /// The other way.
    pub fn turned(self) -> Direction
        ensures { result ≡ turned self }
    {
        match self {
            Direction::Forward => Direction::Backward,
            Direction::Backward => Direction::Forward,
        }
    }

    /// The two members of a sequence, in the order in which they are followed.
    pub(crate) fn ordered(self, first: usize, second: usize) -> (usize, usize)
        ensures { result ≡ ordered self first second }
    {
        match self {
            Direction::Forward => (first, second),
            Direction::Backward => (second, first),
        }
    }
}
