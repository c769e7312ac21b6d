//! The rule of the book that keeps a journal, and the two steps on it.
//!
//! A book has a log and cells. A cell is away at first, and one `Pen` has the right to bring it
//! home, where it stays. Each entry of the log is added in the step that brings its cell home, and
//! by the rule the cells of all entries are at home. So while a cell is away there is no entry with
//! it, and only its pen can add one: each cell was brought home by one entry.
ghost use Rattle.std.specs.Prelude.{[], Some, None};
ghost use base.Fml.{ftrue};
ghost use Rattle.bcast_history.specs.Book.{Adds, IsKept, Makes};

use crate::journal::Notes;
use logbook::{Gain, Pen, Plain, Play, Rule};

/// An entry of the log. Contracts see it; no value of it is made.
pub struct Entry<X> {
    /// Its note. What a step asks that adds no entry has none, and neither has the last entry.
    pub note: Option<X>,
    /// The cell that it brought home.
    pub key: u64,
    /// The cell that the next entry of its chain is to bring home.
    pub next: u64,
}

/// What holds of the book between any two steps: the word is at home, and so is each entry's cell.
pub struct AtHome;

impl<X> Rule<Entry<X>, u64> for AtHome {
    ghost holds = { λ cells log. IsKept cells log };

    ghost first = { [] };

    ghost hinted = { λ number log. Unit {0} };

    ghost shows = { λ log. [] };

    ghost keeps = { λ names log. ftrue };

    ghost moves = { λ asked before after answer. Unit {0} };
}

/// A step gives its caller nothing but its result.
pub struct NoGain;

impl<X> Gain<Entry<X>, u64> for NoGain {
    ghost after = { λ names about answer. ftrue };
}

/// The step that adds a cell, and no entry.
pub struct Making;

impl<X> Play<Entry<X>, u64> for Making {
    ghost then = { Makes };
}

impl<X> Plain<(), Entry<X>, u64> for Making {
    ghost ask = { λ about. record { note = None; key = 0; next = 0 } };

    ghost state = { λ about. None };
}

/// The step that adds an entry and brings its cell home.
pub struct Adding;

impl<X> Play<Entry<X>, u64> for Adding {
    ghost then = { Adds };
}

/// What an entry is made of: what its note is about, the pen of its cell, and that of the next one.
#[derive(Drop)]
pub struct Added<'a, Y> {
    pub about: &'a Y,
    pub turn: &'a Pen,
    pub next: &'a Pen,
}

impl<'a, X, Y: Notes<X>> Plain<Added<'a, Y>, Entry<X>, u64> for Adding {
    ghost ask = { λ a. record {
      note = Some (Y.note a.about.now);
      key = a.turn.now.nib.key;
      next = a.next.now.nib.key;
    } };

    ghost state = { λ a. None };
}

// The entry that ends a chain has no note, and names its own cell, which no other entry can bring
// home.
impl<X> Plain<Pen, Entry<X>, u64> for Adding {
    ghost ask = { λ pen. record { note = None; key = pen.nib.key; next = pen.nib.key } };

    ghost state = { λ pen. None };
}
