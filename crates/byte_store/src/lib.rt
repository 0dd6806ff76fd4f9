// A store that keeps its reports as bytes in one buffer, whatever form a report has as bytes.
#![tactic(auto)]

pub mod buffered;
pub mod codec;
