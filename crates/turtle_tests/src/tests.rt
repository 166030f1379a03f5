//! What the forms and the contracts leave to the eye: what a reader of RDF 1.1 Turtle expects of some texts.

mod terms;
mod tokens;
