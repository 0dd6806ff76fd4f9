// The line between a gateway and its desks: any list of calls, each made in turn, with what each answered.
#![tactic(auto)]

pub mod call;
pub mod laws;
pub mod run;
