// An order's life in its table.
use codes::order::{AutoCancel, Book, OrderType, Side};
use codes::report::Capacity;
use orders::order::Order;
use orders::row::{Ask, Ending, Terms};
use orders::table::Table;
use std::test::Fail;
use terms::lifetime::Lifetime;
use texts::fixed::FixedText;
use texts::values::Price;

fn terms(owner: usize) -> Terms {
    Terms {
        owner,
        instrument: 0,
        side: Side::Buy,
        book: Book::Integrated,
        kind: OrderType::Limit,
        lifetime: Lifetime::Day,
        capacity: Capacity::Principal,
        auto_cancel: AutoCancel::Keep,
    }
}

fn ask(quantity: u32) -> Ask {
    Ask {
        client: FixedText::empty(),
        price: Price { raw: 100 },
        display: i32::try_from(quantity).unwrap_or(0),
        quantity,
    }
}

// An order of 100 of which 40 are traded.
fn traded(table: &mut Table) -> Result<Order, Fail> {
    let order = table.add(terms(0), ask(100))?;
    Ok(order.fill(40).ok_or("not filled")?)
}

// That order cancelled, its trade undone, and what the table then has under its number.
fn undone(table: &mut Table) -> Result<Order, Fail> {
    let order = traded(table)?;
    let order = order.withdraw(Ending::Cancelled).ok_or("not cancelled")?;
    let order = order.undo(40).ok_or("not undone")?;
    if !table.write(order) {
        return Err(Fail::new("not written"));
    }
    Ok(table.order(1).ok_or("not kept")?)
}

#[test]
fn undone_after_cancel(rt: HostRuntime) -> Result<(), Fail> {
    let mut table = Table::new(rt.alloc())?;
    let order = undone(&mut table);
    drop(table);
    let order = order?;
    let kept = order.row();
    assert_eq!(rt; kept.ordered, 60);
    assert_eq!(rt; kept.withdrawn, 60);
    assert_eq!(rt; kept.leaves, 0);
    assert_eq!(rt; order.status() as u8, 4);
    Ok(())
}

#[test]
fn replaced_about_executed(rt: HostRuntime) -> Result<(), Fail> {
    let mut table = Table::new(rt.alloc())?;
    let order = traded(&mut table);
    drop(table);
    let order = order?;
    assert_eq!(rt; order.status() as u8, 1);
    for quantity in [10, 40] {
        let lowered = order.replace(ask(quantity))?;
        assert_eq!(rt; lowered.row().ordered, 40);
        assert_eq!(rt; lowered.row().leaves, 0);
        assert_eq!(rt; lowered.status() as u8, 2);
    }
    let order = order.replace(ask(41))?;
    assert_eq!(rt; order.row().leaves, 1);
    Ok(())
}

// Three orders, the second of another CompID.
fn added(table: &mut Table) -> Result<(), Fail> {
    table.add(terms(0), ask(1))?;
    table.add(terms(1), ask(2))?;
    table.add(terms(0), ask(3))?;
    Ok(())
}

#[test]
fn found_by_owner_and_id(rt: HostRuntime) -> Result<(), Fail> {
    let mut table = Table::new(rt.alloc())?;
    let kept = added(&mut table);
    assert!(rt; table.own(1, 1).is_none());
    assert!(rt; table.own(1, 2).is_some());
    assert_eq!(rt; table.open_count(), 3);
    let named = table.named(0, FixedText::empty());
    drop(table);
    kept?;
    assert_eq!(rt; named.ok_or("not named")?.row().number, 3);
    Ok(())
}
