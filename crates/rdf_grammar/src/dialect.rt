/// The two languages whose blank node labels differ: N-Triples lets a colon into them.
#[derive(Clone, Copy, Debug, PartialEq, Eq)]
pub enum Dialect {
    NTriples,
    Turtle,
}
