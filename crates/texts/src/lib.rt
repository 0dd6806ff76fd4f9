// Texts of the protocol's fields, borrowed and kept, identifiers, prices and times.
#![tactic(auto)]

pub mod bytes;
pub mod fixed;
pub mod identifiers;
pub mod names;
pub mod party;
pub mod prices;
pub mod text;
pub mod values;
