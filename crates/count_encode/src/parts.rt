ghost use Rattle.std.specs.Prelude.{◌≡◌};
ghost use Rattle.count_encode.specs.PartTruth.{opposite, negation};

use repair_problem::{Literal, Part};

/// The same atom in the other sign.
pub fn opposite(literal: Literal) -> Literal
    ensures { result ≡ opposite literal }
{
    Literal {
        atom: literal.atom,
        positive: !literal.positive,
    }
}

/// That the part is false, as a part.
pub fn negation(part: Part) -> Part
    ensures { result ≡ negation part }
{
    match part {
        Part::Fixed(value) => Part::Fixed(!value),
        Part::Lit(literal) => Part::Lit(opposite(literal)),
    }
}
