// Both ends of a gateway over the lit book: what its trades are, said of the gateway's own orders.
#![tactic(auto)]

pub mod laws;
