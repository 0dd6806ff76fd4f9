// A partition's items under numbers that count from 1, in memory that is reserved at the start.
ghost use Rattle.std.specs.Prelude.{◌≡◌, ℕ, ◌+◌, ◌<◌, ◌≤◌, ◌++◌, ◌∷◌, List, [], length, map, drop, position, IfOk, vec_len, vec_capacity, ◌==◌};
ghost use Rattle.keyed.specs.Numbers.{under};
ghost use Rattle.partitions.specs.Marks.{mark};
ghost use Rattle.partitions.specs.Series.{total};

use crate::per_partition::PerPartition;
use keyed::numbers::item_under;
use limits::REPORTS;
use memchr::memchr;
use std::alloc::{AllocError, Global};
use std::marker::Model;

/// An item that is for one owner.
pub trait Owned {
    ghost owner_of: { Self → ℕ };

    /// Whose the item is.
    fn owner(&self) -> usize
        ensures { result ≡ owner_of self.now };
}

/// At most 16,384 items: in a contract, the list of them.
#[derive(Drop)]
pub struct Series<T: Copy + Owned> {
    items: Vec<T>,
    // each item's owner as a byte, which a search passes over faster than items
    marks: Vec<u8>,
}

impl<T: Copy + Owned> Model for Series<T> {
    ghost use Rattle.std.specs.Prelude.{◌≡◌, ◌≤◌, List, map, vec_len, vec_capacity};
    ghost use Rattle.partitions.specs.Marks.{mark};
    ghost use Rattle.limits.specs.declared.TheConstants.{REPORTS};

    ghost Value = { List T };

    ghost view = { λ s. s.items.items };

    ghost invariant = { λ s. (REPORTS ≤ vec_capacity s.items)
        × (REPORTS ≤ vec_capacity s.marks)
        × (vec_len s.items ≤ REPORTS)
        × (vec_len s.marks ≡ vec_len s.items)
        × (s.marks.items ≡ map (λ x. mark (T.owner_of x)) s.items.items) };
}

// The byte of an owner: those from 255 on share one.
fn mark_of(owner: usize) -> u8
    ensures { result ≡ mark owner }
{
    owner.min(255) as u8
}

#[tactic(auto, using(crate::proofs::Places::first_is_position))]
fn first_mark(marks: &[u8], mark: u8) -> Option<usize>
    ensures { result ≡ position (λ m. m == mark) marks.now }
{
    memchr(mark, marks)
}

fn mark_above(marks: &[u8], mark: u8, above: usize) -> Option<usize>
    ensures { result ≡ position (λ m. m == mark) (drop above marks.now) }
{
    if above >= marks.len() {
        return None;
    }
    first_mark(&marks[above..], mark)
}

// How many items above a number come before the owner's first.
fn passed_over<T: Owned>(items: &[T], marks: &[u8], owner: usize, above: u32) -> Option<usize>
    requires { marks.now ≡ map (λ x. mark (T.owner_of x)) items.now }
    ensures { result ≡ position (λ x. T.owner_of x == owner) (drop above items.now) }
{
    if owner < 255 {
        return mark_above(marks, owner as u8, above as usize);
    }
    items
        .iter()
        .skip(above as usize)
        .position(|item| item.owner() == owner)
}

impl<T: Copy + Owned> Series<T> {
    ghost use Rattle.partitions.specs.PerPartition.{for_each};
    ghost use Rattle.partitions.specs.Series.{next_of};

    /// No item, and room for all that there can be. Its one error is want of memory.
    pub fn new(alloc: Global) -> Result<Series<T>, AllocError>
        ensures { IfOk result (λ s. s ≡ []) }
    {
        let items = Vec::with_capacity(alloc, REPORTS)?;
        let marks = Vec::with_capacity(alloc, REPORTS)?;
        Ok(Series { items, marks })
    }

    /// No items in any partition. Its one error is want of memory.
    pub fn for_each(alloc: Global) -> Result<PerPartition<Series<T>>, AllocError>
        ensures { IfOk result (λ s. s ≡ for_each []) }
    {
        Ok(PerPartition {
            one: Series::new(alloc)?,
            two: Series::new(alloc)?,
            three: Series::new(alloc)?,
        })
    }

    /// The last number; 0 where there is no item.
    pub fn last(&self) -> u32
        ensures value { result ≡ length self.now }
        ensures bound { result ≤ REPORTS }
    {
        self.items.len() as u32
    }

    /// Adds an item under the next number.
    pub fn push(&mut self, item: T)
        requires { length self.old < REPORTS }
        ensures { self.new ≡ self.old ++ item ∷ [] }
    {
        self.items.push_reserved(item);
        self.marks.push_reserved(mark_of(item.owner()));
    }

    /// The item of a number, if there is one.
    pub fn item(&self, number: u32) -> Option<T>
        ensures { result ≡ under self.now number }
    {
        item_under(&self.items, u64::from(number))
    }

    /// The lowest number above a given one whose item is the owner's, if there is one.
    pub fn next(&self, owner: usize, above: u32) -> Option<u32>
        ensures { result ≡ next_of T.owner_of self.now owner above }
    {
        let passed = passed_over(&self.items, &self.marks, owner, above)?;
        Some(above + 1 + passed as u32)
    }
}

/// How many items there are in all partitions.
pub fn total<T: Copy + Owned>(series: &PerPartition<Series<T>>) -> usize
    ensures { result ≡ total series.now }
{
    (series.one.last() + series.two.last() + series.three.last()) as usize
}
