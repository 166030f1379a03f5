//! The resolution of references to IRIs (RFC 3986, sections 3 and 5), as Turtle has them between `<` and `>`. It takes
//! time linear in the two texts.
//!
//! `specs/Components.antt` cuts a text into its components, `specs/DotSegments.antt` takes `.` and `..` out of a path,
//! and `specs/Resolution.antt` makes the target.
#![tactic(auto)]

mod components;
mod cuts;
mod dot_segments;
mod resolve;
mod target;

pub use resolve::resolve_iri;
