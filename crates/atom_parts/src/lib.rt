//! What the atoms of a repair problem come down to.
//!
//! An atom about a path, a constraint or a shape comes down to parts, all or any of which are meant
//! (`specs/PartsTable.antt`), and a counter to two counters over one item less and the item. `specs/Fixing.antt` has
//! these in few kinds: what is made of atoms goes by them, whatever the forms of constraints. An [`AtomTable`] answers
//! what fixes an atom of its problem, and keeps what it finds of the paths.
#![tactic(auto)]

mod candidate_lists;
mod counters;
mod fixing;
mod good;
mod holds;
mod marked;
mod shape_parts;
mod sources;
mod table;
mod twins;
mod value_parts;
mod values;

pub use fixing::Fixing;
pub use sources::{AtomParts, one_part, two_parts};
pub use table::{AtomTable, parts_of};
pub use value_parts::literal;
