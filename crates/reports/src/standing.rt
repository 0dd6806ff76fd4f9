// What an Execution Report tells of its order, and where an order stands before and after it.
ghost use Rattle.std.specs.Prelude.{◌≡◌, pos, ◌-ℤ◌};
ghost use Rattle.reports.specs.Effects.{effect_of};
ghost use Rattle.reports.specs.Changes.{natural, added, filled_to, executed_after, changed};

use codes::report::{ExecType, Status};
use codes::session::Partition;
use limits::SHARES;
use texts::identifiers::OrderId;

/// As it was read: it may name no order or no reason, and its quantities, in shares, may be negative.
#[derive(Clone, Copy)]
pub struct Told {
    pub order: Option<OrderId>,
    pub kind: ExecType,
    pub status: Status,
    pub quantity: i32,
    pub leaves: i32,
}

/// An order as its owner knows it: shares executed so far, and shares open.
#[derive(Clone, Copy)]
pub struct Standing {
    pub partition: Partition,
    pub status: Status,
    pub executed: u32,
    pub leaves: u32,
}

/// What a kind of Execution Report does to the figures of its order.
#[derive(Clone, Copy, Debug, PartialEq)]
pub enum Effect {
    Adds,
    Fills,
    Undoes,
    Tells,
    Nothing,
}

impl Effect {
    pub(crate) fn of(kind: ExecType) -> Effect
        ensures { result ≡ effect_of kind }
    {
        match kind {
            ExecType::New => Effect::Adds,
            ExecType::Trade => Effect::Fills,
            ExecType::TradeCancel => Effect::Undoes,
            ExecType::Rejected => Effect::Nothing,
            ExecType::Unspecified
            | ExecType::Cancelled
            | ExecType::Replaced
            | ExecType::Expired
            | ExecType::Restated => Effect::Tells,
        }
    }
}

// A figure that is not negative.
fn natural_of(figure: i32) -> Option<u32>
    ensures { result ≡ natural figure }
{
    u32::try_from(figure).ok()
}

// Executed after a fill that leaves so many shares open.
fn filled_by(quantity: i32, leaves: u32, was: Standing) -> Option<u64>
    ensures { result ≡ filled_to (natural quantity) leaves was }
{
    let quantity = u64::from(natural_of(quantity)?);
    let fits = quantity > 0 && u64::from(leaves) + quantity == u64::from(was.leaves);
    fits.then_some(u64::from(was.executed) + quantity)
}

// Executed after the undoing of a fill.
fn undone_by(quantity: i32, executed: u32) -> Option<u64>
    ensures { result ≡ natural (pos executed -ℤ quantity) }
{
    u64::try_from(i64::from(executed) - i64::from(quantity)).ok()
}

// Executed after a report that leaves so many shares open.
fn executed_by(told: Told, leaves: u32, was: Standing) -> Option<u64>
    ensures { result ≡ executed_after (effect_of told.kind) told.quantity leaves was }
{
    match Effect::of(told.kind) {
        Effect::Adds => None,
        Effect::Fills => filled_by(told.quantity, leaves, was),
        Effect::Undoes => undone_by(told.quantity, was.executed),
        Effect::Tells | Effect::Nothing => Some(u64::from(was.executed)),
    }
}

impl Standing {
    // The standing of an order that a report adds.
    pub(crate) fn added(partition: Partition, told: Told) -> Option<Standing>
        ensures { result ≡ added partition told }
    {
        let leaves = natural_of(told.leaves);
        match (Effect::of(told.kind), leaves) {
            (Effect::Adds, Some(leaves)) => Some(Standing {
                partition,
                status: told.status,
                executed: 0,
                leaves,
            }),
            _ => None,
        }
    }

    // A known order's standing after a report that fits it.
    pub(crate) fn changed(self, told: Told) -> Option<Standing>
        ensures { result ≡ changed told self }
    {
        let leaves = natural_of(told.leaves)?;
        let executed = executed_by(told, leaves, self)?;
        if executed > u64::from(SHARES) {
            return None;
        }
        Some(Standing {
            status: told.status,
            executed: executed as u32,
            leaves,
            ..self
        })
    }
}
