// That the test of a whole message is the walk along its table, proved of the definitions that the contracts cite.
ghost use Rattle.layout.specs.Layout.{OneLook};

/// Gives nothing: its contract is that a table's fields are all taken in one test just where the walk along it finds
/// none that is refused.
#[tactic(auto, using(crate::proofs::Tables::one_look))]
pub fn one_look_is_the_walk()
    ensures { OneLook }
{}
