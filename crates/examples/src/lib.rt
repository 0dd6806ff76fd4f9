// The worked examples of every layer, in one theorem on the definitions that the contracts cite; and every number, in
// another.
#![tactic(auto)]

ghost use Rattle.examples.specs.Examples.{Examples};
ghost use Rattle.examples.specs.Numbers.{Numbers};

/// Gives nothing: its contract is that the worked examples of every layer hold.
pub fn examples_hold()
    ensures { Examples }
{}

/// Gives nothing: its contract is that the limits, the layouts and the readers' types are these numbers.
pub fn numbers_hold()
    ensures { Numbers }
{}
