// Both ends of the line that is followed, side by side.
ghost use Rattle.std.specs.Prelude.{◌≡◌, IfOk};
ghost use Rattle.std.specs.FinMap.{get};
ghost use Rattle.bench_play.specs.Days.{desk_of, state_of};
ghost use Rattle.bench_play.specs.Seeing.{compared_of, hers_of, place_of, place_shown, seen_as};
ghost use Rattle.keyed.specs.Numbers.{under};
ghost use Rattle.partitions.specs.PerPartition.{at};

use crate::day::Day;
use crate::tables::{Look, Shown};
use bench_account::compared::{Compared, Seen};
use bench_account::listing::{Followed, Place, Progress};
use bench_account::verdict::{Part, Verdict};
use codes::code::Code;
use codes::session::Partition;
use follower::state::Follower;
use orders::order::Order;
use reports::standing::Standing;
use reports::standings::Known;
use std::alloc::{AllocError, Global};
use std::io;

// An order as the follower knows it.
fn seen(standing: Standing) -> Seen
    ensures { result ≡ seen_as standing }
{
    Seen {
        status: standing.status.byte(),
        executed: standing.executed,
        leaves: standing.leaves,
    }
}

fn compared(order: Order, standing: Option<Standing>) -> Compared
    ensures { result ≡ compared_of order standing }
{
    let row = order.row();
    let gateway = Seen {
        status: order.status().byte(),
        executed: row.executed,
        leaves: row.leaves,
    };
    Compared {
        number: row.number,
        gateway,
        follower: standing.map(seen),
    }
}

// An order of the line's CompID on both sides; none where there is no such order. Both ends stay.
fn look(day: &mut Day, line: usize, number: u64) -> Result<Option<(Order, Compared)>, AllocError>
    ensures seen { IfOk result (λ o. o ≡ hers_of line
        (under (state_of day.old).venue.rows number) (get (desk_of day.old).follower.standings number)) }
    ensures gateway { IfOk result (λ _. state_of day.new ≡ state_of day.old) }
    ensures desk { IfOk result (λ _. desk_of day.new ≡ desk_of day.old) }
{
    match day.ask(Look::Order(number))? {
        Shown::Order(Some(order), standing) if order.row().terms.owner == line => {
            Ok(Some((order, compared(order, standing))))
        }
        _ => Ok(None),
    }
}

// How far the follower is in a partition, by what it shows of it.
fn place_shown(partition: Partition, shown: Shown) -> Place
    ensures { result ≡ place_shown partition shown }
{
    let partition = partition.byte();
    match shown {
        Shown::Partition { place, progress } => Place {
            partition,
            number: place,
            progress,
        },
        Shown::Order(..) | Shown::Preview(_) => Place {
            partition,
            number: 0,
            progress: Progress::Behind(0),
        },
    }
}

// The same, asked of both ends, which stay.
fn place_in(day: &mut Day, partition: Partition) -> Result<Place, AllocError>
    ensures place { IfOk result (λ p. p ≡ place_of partition (at (desk_of day.old).follower.sides partition)) }
    ensures gateway { IfOk result (λ _. state_of day.new ≡ state_of day.old) }
    ensures desk { IfOk result (λ _. desk_of day.new ≡ desk_of day.old) }
{
    match day.ask(Look::Partition(partition)) {
        Ok(shown) => Ok(place_shown(partition, shown)),
        Err(error) => Err(error),
    }
}

/// How far the follower is in each partition.
pub fn places<R: Print>(rt: &R, day: &mut Day) -> io::Result<()> {
    for partition in [Partition::One, Partition::Two, Partition::Three] {
        rt.println(place_in(day, partition)?)?;
    }
    Ok(())
}

/// How far the follower is in each partition, and each order of its CompID on both sides.
pub fn close<R: Print>(rt: &R, day: &mut Day, line: usize) -> io::Result<()> {
    places(rt, day)?;
    let mut orders: u64 = 0;
    let mut agree: u64 = 0;
    for place in 0..day.order_count() {
        if let Some((_, both)) = look(day, line, place + 1)? {
            rt.println(both)?;
            orders = orders.saturating_add(1);
            if both.agree() {
                agree = agree.saturating_add(1);
            }
        }
    }
    println!(rt; "gateway and follower agree on {agree} of {orders} orders of line {line}")
}

fn followed(known: Known) -> Followed {
    Followed {
        number: known.number,
        partition: known.standing.partition.byte(),
        status: known.standing.status.byte(),
        executed: known.standing.executed,
        leaves: known.standing.leaves,
    }
}

/// How far the follower is, and every order that it knows.
pub fn show<R: Print>(rt: &R, day: &mut Day) -> io::Result<()> {
    places(rt, day)?;
    let mut from = 0;
    for _ in 0..day.follower().len() {
        let Some(known) = day.follower().first_from(from) else {
            break;
        };
        rt.println(followed(known))?;
        from = known.number.saturating_add(1);
    }
    Ok(())
}

// How many orders of a partition a follower knows.
fn known(follower: &Follower, partition: Partition) -> usize {
    let mut count: usize = 0;
    let mut from = 0;
    for _ in 0..follower.len() {
        let Some(known) = follower.first_from(from) else {
            break;
        };
        if known.standing.partition == partition {
            count = count.saturating_add(1);
        }
        from = known.number.saturating_add(1);
    }
    count
}

// The orders of the CompID whose reports are in a partition, on both sides.
fn orders_in(
    heap: Global,
    day: &mut Day,
    line: usize,
    partition: Partition,
) -> Result<Vec<Compared>, AllocError> {
    let mut orders = Vec::new(heap);
    for place in 0..day.order_count() {
        if let Some((order, both)) = look(day, line, place + 1)?
            && let Some(instrument) = day.instruments().get(order.row().terms.instrument)
            && instrument.partition == partition
        {
            orders.push(both)?;
        }
    }
    Ok(orders)
}

fn part<'a>(
    day: &mut Day,
    partition: Partition,
    orders: &'a [Compared],
) -> Result<Part<'a>, AllocError> {
    let place = place_in(day, partition)?;
    Ok(Part {
        place,
        known: known(day.follower(), partition),
        orders,
    })
}

/// How many orders of its CompID are compared, and whether both ends agree.
pub fn verdict(heap: Global, day: &mut Day, line: usize) -> Result<(usize, Verdict), AllocError> {
    if !day.follower().is_up() {
        return Ok((0, Verdict::NoLine));
    }
    let one = orders_in(heap, day, line, Partition::One)?;
    let two = orders_in(heap, day, line, Partition::Two)?;
    let three = orders_in(heap, day, line, Partition::Three)?;
    let count = one
        .len()
        .saturating_add(two.len())
        .saturating_add(three.len());
    let verdict = Verdict::of(
        part(day, Partition::One, &one)?,
        part(day, Partition::Two, &two)?,
        part(day, Partition::Three, &three)?,
    );
    Ok((count, verdict))
}
