// The values that the protocol's fields list, as enums, and their bytes.
#![tactic(auto)]

pub mod code;
pub mod lists;
pub mod order;
pub mod report;
pub mod session;
