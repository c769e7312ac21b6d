//! Which notices are called, how often and in which order, who waits then, and what holds after
//! refused memory.
use bcast_model::listener::Kind::{self, Future, Stream};
use bcast_waiting::event::Event;
use bcast_waiting::notice::{Notice, OwnedNotice, Silent};
use linked_list_allocator::LocalHeap;
use std::alloc::{AllocError, Allocator, Global};
use std::cell::Cell;
use std::test::Fail;

type Id = (usize, Kind);

// Appends its digit to the digits that the test reads.
#[derive(Drop)]
struct Noted<'a> {
    digit: u64,
    told: &'a Cell<u64>,
}

impl Notice for Noted<'_> {
    fn tell(&mut self) {
        let told = self.told.get();
        self.told
            .set(told.wrapping_mul(10).wrapping_add(self.digit));
    }
}

// A call, and what it must return or leave.
#[derive(Clone, Copy)]
enum Step {
    // Makes room for a listener, and for those of smaller numbers.
    Reserve(Id),
    // Waits, with a notice of this digit.
    Wait(Id, u64),
    // Asks to wait, and is refused a notice.
    Refuse(Id),
    Tell(usize),
    TellAll,
    Consume(Id, Option<bool>),
    // Gives up, gets a notice of this digit back, and isn't listed then.
    Abandon(Id, Option<u64>),
    IsTold(Id, Option<bool>),
    // The digits of the notices that were called, in the order of the calls.
    Called(u64),
    // Those that wait, from the front, and how many of them are told.
    Waiting(&'static [Id], usize),
}

const FRONT_FIRST: &[Step] = &[
    Step::Wait((0, Stream), 1),
    Step::Wait((0, Future), 2),
    Step::Wait((9, Stream), 3),
    Step::Tell(2),
    Step::Tell(2),
    Step::Called(12),
    Step::IsTold((0, Future), Some(true)),
    Step::IsTold((9, Stream), Some(false)),
    Step::IsTold((1, Stream), None),
    Step::TellAll,
    Step::TellAll,
    Step::Called(123),
];

const GIVES_UP: &[Step] = &[
    Step::Wait((0, Stream), 1),
    Step::Wait((0, Future), 2),
    Step::Wait((9, Stream), 3),
    Step::Tell(1),
    Step::Abandon((9, Stream), Some(3)),
    Step::Called(1),
    Step::Abandon((0, Stream), Some(1)),
    Step::Called(12),
    Step::Consume((0, Future), Some(true)),
    Step::Consume((0, Future), None),
    Step::Waiting(&[], 0),
];

const OTHER_NOTICES: &[Step] = &[
    Step::Wait((0, Stream), 1),
    Step::Wait((0, Future), 2),
    Step::Wait((0, Stream), 3),
    Step::Abandon((9, Stream), None),
    Step::Wait((0, Future), 4),
    Step::Tell(1),
    Step::Called(3),
    Step::Refuse((0, Stream)),
    Step::Refuse((0, Future)),
    Step::Refuse((9, Stream)),
    Step::Waiting(&[(0, Stream), (0, Future)], 1),
    Step::Wait((0, Stream), 5),
    Step::TellAll,
    Step::Called(345),
    Step::Waiting(&[(0, Future), (0, Stream)], 2),
    Step::Abandon((0, Stream), Some(5)),
    Step::Abandon((0, Future), Some(4)),
];

const ANY_ORDER: &[Step] = &[
    Step::Wait((0, Stream), 1),
    Step::Wait((0, Future), 2),
    Step::Wait((9, Stream), 3),
    Step::Wait((1, Stream), 4),
    Step::Tell(2),
    Step::Abandon((1, Stream), Some(4)),
    Step::Abandon((0, Future), Some(2)),
    Step::Consume((0, Stream), Some(true)),
    Step::IsTold((9, Stream), Some(false)),
    Step::Wait((0, Future), 5),
    Step::Wait((0, Stream), 6),
    Step::TellAll,
    Step::Called(12356),
    Step::IsTold((9, Stream), Some(true)),
    Step::Consume((9, Stream), Some(true)),
    Step::Consume((1, Stream), None),
    Step::Waiting(&[(0, Future), (0, Stream)], 2),
];

const TWO_RECEIVERS: &[Step] = &[
    Step::Reserve((5, Future)),
    Step::Wait((5, Stream), 1),
    Step::Waiting(&[(5, Stream)], 0),
    Step::Wait((5, Future), 2),
    Step::Waiting(&[(5, Stream), (5, Future)], 0),
    Step::TellAll,
    Step::Waiting(&[(5, Stream), (5, Future)], 2),
    // The new one isn't told.
    Step::Wait((6, Future), 3),
    Step::Waiting(&[(5, Stream), (5, Future), (6, Future)], 2),
    Step::Consume((5, Stream), Some(true)),
    Step::Waiting(&[(5, Future), (6, Future)], 1),
    // It isn't listed.
    Step::Abandon((5, Stream), None),
    Step::Waiting(&[(5, Future), (6, Future)], 1),
    // The next is told.
    Step::Abandon((5, Future), Some(2)),
    Step::Waiting(&[(6, Future)], 1),
];

const WAITS_AGAIN: &[Step] = &[
    Step::Wait((0, Stream), 1),
    Step::Wait((0, Future), 2),
    Step::Wait((9, Stream), 3),
    Step::Tell(1),
    Step::Wait((0, Stream), 4),
    Step::Waiting(&[(0, Future), (9, Stream), (0, Stream)], 0),
];

// Lists a listener that must wait.
fn wait<N: Notice, A: Allocator>(
    event: &mut Event<Id, N, A>,
    id: Id,
    notice: N,
) -> Result<bool, AllocError> {
    event.reserve_for(id)?;
    let made = event.wait_again(id, &mut OwnedNotice::new(notice));
    Ok(made.is_ok() && event.is_untold(id))
}

// Makes the call, and returns whether it returns what it must.
fn is_right<'a>(
    alloc: Global,
    event: &mut Event<Id, Noted<'a>>,
    told: &'a Cell<u64>,
    step: Step,
) -> Result<bool, AllocError> {
    Ok(match step {
        Step::Reserve(id) => event.reserve_for(id).is_ok(),
        Step::Wait(id, digit) => wait(event, id, Noted { digit, told })?,
        Step::Refuse(id) => {
            event.reserve_for(id)?;
            let mut maker = OwnedNotice { notice: None };
            event.wait_again(id, &mut maker).is_err()
        }
        Step::Tell(count) => {
            event.tell(count);
            event.told() >= count
        }
        Step::TellAll => {
            event.tell_all();
            event.told() == event.len()
        }
        Step::Consume(id, was_told) => event.consume(id) == was_told,
        Step::Abandon(id, digit) => {
            let notice = event.abandon(id);
            notice.map(|noted| noted.digit) == digit && event.is_told(id).is_none()
        }
        Step::IsTold(id, is_told) => event.is_told(id) == is_told,
        Step::Called(digits) => told.get() == digits,
        Step::Waiting(ids, count) => {
            let listed = event.ids(alloc)?;
            listed.as_slice() == ids && event.len() == ids.len() && event.told() == count
        }
    })
}

// The index of the first step that returns something else.
fn first_wrong(alloc: Global, steps: &[Step]) -> Result<Option<usize>, AllocError> {
    let told = Cell::new(0);
    let mut event = Event::new(alloc);
    for (index, step) in steps.iter().enumerate() {
        if !is_right(alloc, &mut event, &told, *step)? {
            return Ok(Some(index));
        }
    }
    Ok(None)
}

#[test]
fn notices_are_called_in_their_order(rt: HostRuntime) -> Result<(), Fail> {
    let tables = [
        ("newly told ones are called once, front first", FRONT_FIRST),
        ("a told one that gives up tells the next", GIVES_UP),
        ("the last notice that was made is called", OTHER_NOTICES),
        ("listeners leave in any order", ANY_ORDER),
        ("each receiver has two listeners", TWO_RECEIVERS),
        ("who was told waits again last", WAITS_AGAIN),
    ];
    for (name, steps) in tables {
        assert_eq!(rt; first_wrong(rt.alloc(), steps)?, None, "{name}");
    }
    Ok(())
}

// Whether a list is unchanged if memory for a greater id is refused, and then has it for one more.
fn stays<A: Allocator + Copy>(alloc: A, refused: Id) -> Result<bool, AllocError> {
    let mut event = Event::new(alloc);
    wait(&mut event, (0, Stream), Silent)?;
    event.tell(1);
    wait(&mut event, (0, Future), Silent)?;
    let is_refused = event.reserve_for(refused).is_err();
    let stays = event.is_told((0, Stream)) == Some(true)
        && event.is_untold((0, Future))
        && event.len() == 2;
    Ok(is_refused && stays && wait(&mut event, (1, Stream), Silent)?)
}

#[test]
fn a_refused_reserve_changes_nothing(rt: HostRuntime) -> Result<(), Fail> {
    let heap = LocalHeap::new(rt.alloc(), 1 << 12)?;
    let is_unchanged = stays(&heap, (1 << 12, Stream))?;
    assert!(rt; is_unchanged, "more than the heap has");
    let is_unchanged = stays(&heap, (usize::MAX, Future))?;
    assert!(rt; is_unchanged, "a number that doesn't fit");
    Ok(())
}

#[test]
fn keys_too_great_are_refused(rt: HostRuntime) -> Result<(), Fail> {
    let rows = [("the greatest", usize::MAX), ("its future", usize::MAX / 2)];
    for (name, key) in rows {
        let mut event = Event::<Id, Silent>::new(rt.alloc());
        assert!(rt; event.reserve_for((key, Future)).is_err(), "{name}");
        assert!(rt; stays(rt.alloc(), (key, Future))?, "{name}");
    }
    Ok(())
}
