// Any message: which kinds there are, who reads them, reading and writing; and a stream cut into messages.
#![tactic(auto)]

pub mod kinds;
pub mod laws;
pub mod message;
pub mod stream;
