// The messages of orders, and of what becomes of them: what each one carries, its table of fields, its reader and its
// writer.
#![tactic(auto, unfolding(layout::specs::Layout::Says, layout::specs::Layout::taken, layout::specs::Holding::HoldsIn))]

pub mod execution_report;
pub mod new_order;
pub mod order_cancel_reject;
pub mod order_cancel_replace_request;
pub mod order_cancel_request;
pub mod order_mass_cancel_report;
pub mod order_mass_cancel_request;
pub mod target;
