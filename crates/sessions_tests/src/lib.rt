// A line's day and a configuration, on examples.
#![tactic(auto)]

#[cfg(test)]
mod configs;
#[cfg(test)]
mod lines;
