//! Of `lock.rt`: of `Lock::new`, a channel that its caller made, and of `unread`.
use crate::channels::TestResult;
use async_broadcast::{Lock, Port, PortFor, Receiver, Sender, TryRecvError, broadcast};
use bcast_core::Inner;

#[test]
fn a_port_of_a_channel_that_its_caller_made(rt: HostRuntime) -> TestResult {
    let (inner, key) = Inner::starting_at(rt.alloc(), 2, 100)?;
    let port = Lock::new(&rt, rt.alloc(), inner)?;
    let other = port.try_clone().ok_or("no memory")?;
    let sender = Sender::from_port(port, rt.alloc());
    let mut receiver = Receiver::from_port(other, key, rt.alloc());
    assert!(rt; sender.try_broadcast(7).is_ok());
    assert!(rt; matches!(receiver.try_recv(), Ok(Ok(7))));
    assert!(rt; sender.snapshot()?.end == 101);
    Ok(())
}

#[test]
fn unread_messages(rt: HostRuntime) -> TestResult {
    let (mut sender, mut receiver) = broadcast(&rt, rt.alloc(), 2)?;
    sender.set_overflow(true);
    for msg in [1, 2, 3] {
        assert!(rt; sender.try_broadcast(msg).is_ok());
    }
    assert!(rt; receiver.unread() == 2 && receiver.missed() == 1);
    assert!(rt; matches!(receiver.try_recv(), Ok(Err(TryRecvError::Overflowed(1)))));
    assert!(rt; matches!(receiver.try_recv(), Ok(Ok(2))));
    assert!(rt; receiver.unread() == 1 && receiver.missed() == 0);
    Ok(())
}
