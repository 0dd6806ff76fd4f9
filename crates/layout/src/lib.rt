// A message's layout as a table of fields: checking bytes against it, reading fields, writing them.
// An inner crate of the wire: what a function requires, the crates above show.
#![tactic(auto)]

pub mod check;
pub mod fault;
pub mod field;
pub mod framed;
pub mod laws;
mod look;
pub mod put;
pub mod reader;
pub mod sequence;

pub use field::{Field, Form};
pub use framed::{Framed, Layout, Shape};
pub use reader::Reader;
