// Runs of orders, reports and stores on examples.
#![tactic(auto)]

#[cfg(test)]
mod folding;
#[cfg(test)]
mod keeping;
#[cfg(test)]
mod trading;
