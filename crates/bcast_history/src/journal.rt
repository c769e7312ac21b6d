//! A journal: a list of notes that only grows, so that what is known of a beginning stays true.
//!
//! The notes stand in the log of a book of `logbook`, and exist in proofs alone. Only 0 is written
//! to the book's word, by exchanges of 0 for 0 whose results are not used: each is a step in which
//! the log may grow. A note is added with a cell that only the writer can bring home, and names the
//! cell of the next note, so the notes are a chain that only the writer makes longer. So a note
//! comes right after those that the writer knows, whatever else came to the log, and `append` can
//! neither fail nor wait.
ghost use Rattle.std.specs.Prelude.{◌≡◌, ◌++◌, ◌∷◌, List, []};
ghost use mathlib.Core.List.{IsPrefix};
ghost use Rattle.logbook.specs.Pages.{may_write};
ghost use Rattle.bcast_history.specs.Book.{Chain, IsEnded, chain_coded, head_of, notes_of, turn_of};

use crate::rule::{Added, Adding, AtHome, Entry, Making, NoGain};
use logbook::{Pen, Seen, Start, Word};
use std::marker::{Brand, Model, PhantomData};

/// Names a journal in the types of all that belongs to it. A program picks the name, by `Brand`, at
/// the call of a function over it.
pub trait Named {
    ghost book: { Chain };
}

impl Named for Brand {
    ghost book = { record {
      book = record { number = 0; log_name = 0; cells_name = 0 };
      first = 0;
    } };
}

/// What a value shows as a note. Each type says it for its values.
pub trait Notes<X> {
    ghost note: { Self → X };
}

/// A journal without notes, which has no name yet. A contract sees which it is.
#[derive(Drop)]
pub struct Journal<X> {
    head: Word<Entry<X>, u64, AtHome>,
    pen: Pen,
    seen: Seen<Entry<X>, u64, AtHome>,
}

impl<X> Model for Journal<X> {
    ghost Value = { Chain };

    ghost coded = { chain_coded };

    ghost view = { λ j. record { book = j.seen.book; first = j.pen.nib.key } };

    ghost invariant = { λ j. (j.head ≡ head_of j.seen.book)
        × (j.pen.book ≡ j.seen.book)
        × (j.pen.nib.right ≡ may_write)
        × (j.seen.log ≡ []) };
}

// The pen of a new cell, which is away. The exchange adds the cell, and no entry.
#[inline(always)]
fn new_pen<X>(head: &Word<Entry<X>, u64, AtHome>, seen: &Seen<Entry<X>, u64, AtHome>) -> Pen
    requires { head.now ≡ head_of seen.now.book }
    ensures { (result.book ≡ seen.now.book) × (result.nib.right ≡ may_write) }
{
    let mut seen = seen.again();
    let mut offer = seen.plain::<NoGain, (), Making>(&());
    let mut pen = seen.no_pen();
    head.compare_exchange::<Making, NoGain>(0, 0, &mut seen, &mut offer, &mut pen);
    let _cell: Word<Entry<X>, u64, AtHome> = Word::tracked(0, &mut pen);
    pen
}

impl<X> Journal<X> {
    /// A new journal. Allocates nothing.
    pub fn new() -> Journal<X> {
        let (seen, mut first, _second) = Seen::open(Start::alone(), 0, 0);
        let head = Word::tracked(0, &mut first);
        let pen = new_pen(&head, &seen);
        Journal { head, pen, seen }
    }

    /// The journal's writer, under the journal's name. It has no note yet.
    pub fn into_writer<J: Named>(self) -> Writer<X, J>
        requires { self ≡ J.book }
        ensures { result ≡ [] }
    {
        let Journal { head, pen, seen } = self;
        Writer {
            head,
            pen,
            seen,
            of: PhantomData,
        }
    }
}

/// A beginning of a journal, which has no bytes. A contract sees its notes.
#[derive(Drop)]
pub struct Prefix<X, J: Named> {
    seen: Seen<Entry<X>, u64, AtHome>,
    of: PhantomData<J>,
}

impl<X, J: Named> Model for Prefix<X, J> {
    ghost Value = { List X };

    ghost view = { λ p. notes_of J.book.first p.seen.log };

    ghost invariant = { λ p. p.seen.book ≡ J.book.book };
}

impl<X, J: Named> Prefix<X, J> {
    /// The beginning, once more.
    #[inline(always)]
    pub fn same(&self) -> Prefix<X, J>
        ensures { result ≡ self.now }
    {
        Prefix {
            seen: self.seen.again(),
            of: PhantomData,
        }
    }

    /// Learns what `other` knows, which is of the same journal: afterwards this is a beginning that
    /// both begin. So of the two one began the other.
    #[inline(always)]
    pub fn learn(&mut self, other: &Prefix<X, J>)
        ensures longer { IsPrefix self.old self.new }
        ensures other { IsPrefix other.now self.new }
    {
        self.seen.learn(&other.seen);
    }
}

/// Writes a journal: only it adds notes. A contract sees all notes so far.
#[derive(Drop)]
pub struct Writer<X, J: Named> {
    head: Word<Entry<X>, u64, AtHome>,
    pen: Pen,
    seen: Seen<Entry<X>, u64, AtHome>,
    of: PhantomData<J>,
}

impl<X, J: Named> Model for Writer<X, J> {
    ghost Value = { List X };

    ghost view = { λ w. notes_of J.book.first w.seen.log };

    ghost invariant = { λ w. (w.head ≡ head_of J.book.book)
        × (w.seen.book ≡ J.book.book)
        × (w.pen.book ≡ J.book.book)
        × (w.pen.nib.right ≡ may_write)
        × (w.pen.nib.key ≡ turn_of J.book.first w.seen.log) };
}

impl<X, J: Named> Writer<X, J> {
    /// Appends what `about` shows to all notes so far, which `known` knows afterwards. What it knew
    /// before is a beginning of them.
    ///
    /// It costs two exchanges: one adds the cell of the next note, and one adds this note.
    #[inline(always)]
    pub fn append<Y: Notes<X>>(&mut self, known: &mut Prefix<X, J>, about: &Y)
        ensures appended { self.new ≡ self.old ++ Y.note about.now ∷ [] }
        ensures knows { known.new ≡ self.new }
        ensures before { IsPrefix known.old self.old }
    {
        let next = new_pen(&self.head, &self.seen);
        let mut seen = self.seen.again();
        seen.learn(&known.seen);
        let mut offer = seen.plain::<NoGain, Added<Y>, Adding>(&Added {
            about,
            turn: &self.pen,
            next: &next,
        });
        self.head
            .compare_exchange::<Adding, NoGain>(0, 0, &mut seen, &mut offer, &mut self.pen);
        self.pen = next;
        known.seen = seen.again();
        self.seen = seen;
    }

    /// All notes so far, as a beginning of the journal.
    #[inline(always)]
    pub fn prefix(&self) -> Prefix<X, J>
        ensures { result ≡ self.now }
    {
        Prefix {
            seen: self.seen.again(),
            of: PhantomData,
        }
    }

    /// Ends the journal: no note comes after these.
    pub fn end(self) -> Whole<X, J>
        ensures { result ≡ self }
    {
        let Writer {
            head,
            mut pen,
            mut seen,
            of,
        } = self;
        let mut offer = seen.plain::<NoGain, Pen, Adding>(&pen);
        head.compare_exchange::<Adding, NoGain>(0, 0, &mut seen, &mut offer, &mut pen);
        Whole { seen, of }
    }
}

/// A journal that has ended, which has no bytes. A contract sees its notes.
#[derive(Drop)]
pub struct Whole<X, J: Named> {
    seen: Seen<Entry<X>, u64, AtHome>,
    of: PhantomData<J>,
}

impl<X, J: Named> Model for Whole<X, J> {
    ghost Value = { List X };

    ghost view = { λ w. notes_of J.book.first w.seen.log };

    ghost invariant = { λ w. (w.seen.book ≡ J.book.book) × IsEnded J.book.first w.seen.log };
}

impl<X, J: Named> Whole<X, J> {
    /// Compares the journal with a beginning of it, whose notes it has at the same places.
    pub fn compare(&self, beginning: &Prefix<X, J>)
        ensures { IsPrefix beginning.now self.now }
    {
        let mut both = self.seen.again();
        both.learn(&beginning.seen);
    }
}
