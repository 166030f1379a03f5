ghost use Rattle.std.specs.Prelude.{◌≡◌};
ghost use Rattle.literal_signs.specs.Marked.{sign_marks, sign_for};

/// Which literal of a variable stands in a set of literals, if one does.
#[derive(Clone, Copy, Debug, PartialEq, Eq)]
pub enum Sign {
    /// Neither.
    Absent,
    /// The variable itself.
    Positive,
    /// Its negation.
    Negative,
}

/// Whether the literal of that polarity stands in the set, by the sign of its variable.
pub fn is_marked(sign: Sign, positive: bool) -> bool
    ensures { result ≡ sign_marks sign positive }
{
    match sign {
        Sign::Absent => false,
        Sign::Positive => positive,
        Sign::Negative => !positive,
    }
}

/// The sign of a variable whose literal of that polarity stands in the set.
pub fn sign_of(positive: bool) -> Sign
    ensures { result ≡ sign_for positive }
{
    if positive {
        Sign::Positive
    } else {
        Sign::Negative
    }
}
