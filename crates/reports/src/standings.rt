// The standings of a day's orders, in memory that is reserved at the start.
ghost use Rattle.std.specs.Prelude.{◌≡◌, ◌<◌, ◌≤◌, [], ◌∷◌, ◌++◌, length, Some, None, IfOk, IfSome, ◌==◌, position};
ghost use Rattle.std.specs.List.{slice_get};
ghost use Rattle.std.specs.FinMap.{get, len};

use crate::standing::{Effect, Standing, Told};
use codes::session::Partition;
use keyed::{Numbered, place_of};
use limits::ORDERS;
use std::alloc::{AllocError, Global};
use std::marker::Model;
use thiserror::Error;

/// A known order.
#[derive(Clone, Copy)]
pub struct Known {
    pub number: u64,
    pub standing: Standing,
}

impl Numbered for Known {
    ghost key = { λ k. k.number };

    fn number(&self) -> u64 {
        self.number
    }
}

/// Why a report is not folded, with the number of each reason.
#[derive(Clone, Copy, Debug, PartialEq, Error)]
pub enum FoldRefusal {
    #[error("the report does not fit what is known")]
    Unfit = 53,
    #[error("there is no room for one more order")]
    Full = 55,
}

impl FoldRefusal {
    ghost use Rattle.reports.specs.Fold.{fold_number};

    /// The number of the reason.
    pub fn number(self) -> u8
        ensures { result ≡ fold_number self }
    {
        self as u8
    }
}

/// The orders that an owner knows, each once: in a contract, the list of them in the order in which they were added.
#[derive(Drop)]
pub struct Standings {
    rows: Vec<Known>,
}

impl Model for Standings {
    ghost use Rattle.std.specs.Prelude.{◌≡◌, ◌≤◌, true, List, vec_len, vec_capacity};
    ghost use Rattle.limits.specs.declared.TheConstants.{ORDERS};
    ghost use Rattle.reports.specs.declared.standings.Known.{Known as One};
    ghost use Rattle.reports.specs.Known.{each_once};

    ghost Value = { List One };

    ghost view = { λ s. s.rows.items };

    ghost invariant = { λ s. (ORDERS ≤ vec_capacity s.rows)
        × (vec_len s.rows ≤ ORDERS)
        × (each_once s.rows.items ≡ true) };
}

// The row at an index.
fn item(rows: &[Known], index: usize) -> Option<Known>
    ensures { result ≡ slice_get rows.now index }
{
    rows.get(index).copied()
}

impl Standings {
    ghost use Rattle.reports.specs.Known.{known, Once};
    ghost use Rattle.reports.specs.Fold.{nothing_known, fold_order, fold, Folds};

    /// No order is known, and there is room for those of a day. Its one error is want of memory.
    pub fn new(heap: Global) -> Result<Standings, AllocError>
        ensures { IfOk result (λ s. (s ≡ []) × (known s ≡ nothing_known)) }
    {
        let rows = Vec::with_capacity(heap, ORDERS)?;
        Ok(Standings { rows })
    }

    /// How many orders are known.
    #[tactic(auto, using(crate::proofs::Rows::len_known, crate::proofs::Rows::once_of))]
    pub fn len(&self) -> usize
        ensures value { result ≡ len (known self.now) }
        ensures rows { result ≡ length self.now }
        ensures bound { result ≤ ORDERS }
        ensures once { Once self.now }
    {
        self.rows.len()
    }

    /// The known order at an index, in the order in which they were added; none past the last.
    pub fn get(&self, index: usize) -> Option<Known>
        ensures value { result ≡ slice_get self.now index }
        ensures standing { IfSome result (λ k. get (known self.now) k.number ≡ Some k.standing) }
    {
        item(&self.rows, index)
    }

    /// Takes over what another table knows, in the memory that is reserved: for a trial that may have to be undone.
    pub fn copy_from(&mut self, other: &Standings)
        ensures { self.new ≡ other.now }
    {
        self.rows.clear();
        for row in &other.rows {
            self.rows.push_reserved(*row);
        }
    }

    // The place of an order's row.
    fn place(&self, number: u64) -> Option<usize>
        ensures { result ≡ position (λ k. k.number == number) self.now }
    {
        place_of(&self.rows, number)
    }

    /// Where an order stands, if it is known.
    #[tactic(auto, using(crate::proofs::Rows::standing_some, crate::proofs::Rows::standing_none))]
    pub fn standing(&self, number: u64) -> Option<Standing>
        ensures { result ≡ get (known self.now) number }
    {
        let index = self.place(number)?;
        Some(self.rows[index].standing)
    }

    #[tactic(auto, using(crate::proofs::Rows::folds_known, crate::proofs::Rows::unfit_known, crate::proofs::Rows::once_set))]
    fn fold_known(&mut self, number: u64, index: usize, told: Told) -> Result<(), FoldRefusal>
        requires { position (λ k. k.number == number) self.old ≡ Some index }
        ensures { (p : Partition) →
            Folds
            (fold_order p told (known self.old) number (get (known self.old) number))
            (known self.old) result (known self.new) }
    {
        let was = self.rows[index].standing;
        let standing = was.changed(told).ok_or(FoldRefusal::Unfit)?;
        self.rows[index] = Known { number, standing };
        Ok(())
    }

    fn push(&mut self, number: u64, standing: Standing)
        requires new { position (λ k. k.number == number) self.old ≡ None }
        requires room { length self.old < ORDERS }
        ensures { self.new ≡ self.old ++ record { number = number; standing = standing } ∷ [] }
    {
        self.rows.push_reserved(Known { number, standing });
    }

    #[tactic(auto, using(crate::proofs::Rows::folds_new, crate::proofs::Rows::unfit_new, crate::proofs::Rows::full_new))]
    fn fold_new(&mut self, partition: Partition, number: u64, told: Told) -> Result<(), FoldRefusal>
        requires { position (λ k. k.number == number) self.old ≡ None }
        ensures { Folds
            (fold_order partition told (known self.old) number (get (known self.old) number))
            (known self.old) result (known self.new) }
    {
        let standing = Standing::added(partition, told).ok_or(FoldRefusal::Unfit)?;
        if self.rows.len() >= ORDERS {
            return Err(FoldRefusal::Full);
        }
        self.push(number, standing);
        Ok(())
    }

    /// Folds what a report of a partition tells. Refused with 53 where it does not fit what is known, and 55 where a
    /// 257th order would become known, tried in this order; then nothing changes.
    pub fn fold(&mut self, partition: Partition, told: Option<Told>) -> Result<(), FoldRefusal>
        ensures { Folds (fold partition told (known self.old)) (known self.old) result (known self.new) }
    {
        let Some(told) = told else {
            return Ok(());
        };
        if let Effect::Nothing = Effect::of(told.kind) {
            return Ok(());
        }
        let order = told.order.ok_or(FoldRefusal::Unfit)?;
        match self.place(order.number) {
            Some(index) => self.fold_known(order.number, index, told),
            None => self.fold_new(partition, order.number, told),
        }
    }
}
