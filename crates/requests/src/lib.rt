// What a gateway does with each request for orders, over any matcher and any store.
#![tactic(auto)]

pub mod cancel;
mod checks;
pub mod listing;
pub mod mass_cancel;
pub mod naming;
pub mod new_order;
pub mod replace;
pub mod selection;
