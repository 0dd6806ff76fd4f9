// One thing for each partition, and a partition's numbered items.
#![tactic(auto)]

pub mod per_partition;
pub mod series;
