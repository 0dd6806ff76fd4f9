// The messages of a session: what each one carries, its table of fields, its reader and its writer.
#![tactic(auto, unfolding(layout::specs::Layout::Says, layout::specs::Holding::HoldsIn))]

pub mod heartbeat;
pub mod logon;
pub mod logon_reply;
pub mod logout;
pub mod missed_message_report;
pub mod missed_message_request;
pub mod missed_message_request_ack;
pub mod reject;
