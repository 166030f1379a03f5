/// How a search ended.
#[derive(Clone, Copy, Debug, PartialEq, Eq)]
pub enum Outcome {
    /// The trail makes every clause true, and every variable of a clause is assigned.
    Model,
    /// The last clause is empty.
    Refuted,
    /// The log has as many steps as were allowed, no clause is empty, and one is false.
    Spent,
}
