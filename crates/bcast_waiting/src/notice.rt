//! Notices, which are called when listeners are told, and their makers.
ghost use Rattle.std.specs.Prelude.{◌≡◌, OnOk, OnErr, None, IsSome};

use std::mem::replace;

/// What is called once a listener is told.
///
/// Source: the waker that a listener of the crate event-listener holds.
pub trait Notice: Drop {
    /// Called when the listener is told.
    fn tell(&mut self);
}

/// A notice that does nothing.
#[derive(Drop)]
pub struct Silent;

impl Notice for Silent {
    fn tell(&mut self) {}
}

/// No notice was made.
#[derive(Drop)]
pub struct NoNotice;

/// Makes the notice of a poll. It is called once if the poll must wait, and otherwise not at all.
pub trait MakesNotice<N> {
    // Holds of a maker before and after it made a notice.
    ghost made: { Self → Self → Type 0 };

    // Holds of a maker before and after it refused to make one.
    ghost refused: { Self → Self → Type 0 };

    /// Makes a notice for a listener that has none.
    ///
    /// # Errors
    ///
    /// `NoNotice`: no notice was made.
    fn make(&mut self) -> Result<N, NoNotice>
        ensures made { OnOk result (made self.old self.new) }
        ensures refused { OnErr result (refused self.old self.new) };

    /// Replaces the notice of a listener, which is that of an earlier poll, by that of this poll.
    ///
    /// # Errors
    ///
    /// `NoNotice`: no notice was made. The notice of the listener may then do nothing when called.
    fn renew(&mut self, notice: &mut N) -> Result<(), NoNotice>
        ensures made { OnOk result (made self.old self.new) }
        ensures refused { OnErr result (refused self.old self.new) };
}

/// A maker that has its notice, and gives it once.
#[derive(Drop)]
pub struct OwnedNotice<N> {
    /// The notice, until it was given.
    pub notice: Option<N>,
}

impl<N> OwnedNotice<N> {
    /// A maker that gives this notice.
    #[inline(always)]
    pub fn new(notice: N) -> Self
        ensures { IsSome result.notice }
    {
        OwnedNotice {
            notice: Some(notice),
        }
    }
}

impl<N: Drop> MakesNotice<N> for OwnedNotice<N> {
    ghost use Rattle.std.specs.Prelude.{⊤};

    ghost made = { λ _ _. ⊤ };

    ghost refused = { λ old _. old.notice ≡ None };

    #[inline(always)]
    fn make(&mut self) -> Result<N, NoNotice> {
        self.notice.take().ok_or(NoNotice)
    }

    #[inline(always)]
    fn renew(&mut self, notice: &mut N) -> Result<(), NoNotice> {
        let Some(given) = self.notice.take() else {
            return Err(NoNotice);
        };
        let _ = replace(notice, given);
        Ok(())
    }
}
