// What comes of a script of calls on a gateway, told in lines: answers, the account, both tables, and a drill.
#![tactic(auto)]

pub mod account;
pub mod answer;
pub mod compared;
pub mod cut;
pub mod lane;
pub mod listing;
pub mod remark;
pub mod verdict;
