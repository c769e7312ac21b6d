//! The four uses of a channel, and a text sent to two receivers.
use bcast_core::TrySendError;
use std::alloc::AllocError;
use std::process::Abort;
use std::string::String;
use std::test::Fail;
use uses::config_watcher::Config;
use uses::event_hub::EventHub;
use uses::log_fan_out::Log;
use uses::send_to_two;
use uses::shutdown::Shutdown;

/// A full hub hands the event back.
fn fill(rt: &impl Abort, hub: &mut EventHub<u64>) -> Result<(), Fail> {
    let one = hub.subscribe()?;
    let two = hub.subscribe_like(one)?;
    assert!(rt; hub.publish(5) == Ok(()));
    assert!(rt; hub.next_event(one)? == Some(5));
    assert!(rt; hub.publish(6) == Err(TrySendError::Full(6)));
    assert!(rt; hub.next_event(two)? == Some(5));
    assert!(rt; hub.next_event(two)?.is_none());
    assert!(rt; hub.publish(6) == Ok(()));
    Ok(())
}

/// A hub outlives its subscribers.
fn outlive(rt: &impl Abort, hub: &mut EventHub<u64>) -> Result<(), Fail> {
    let one = hub.subscribe()?;
    let two = hub.subscribe_like(one)?;
    hub.unsubscribe(one);
    hub.unsubscribe(two);
    assert!(rt; hub.publish(5) == Err(TrySendError::Inactive(5)));
    let three = hub.subscribe()?;
    assert!(rt; hub.publish(6) == Ok(()));
    assert!(rt; hub.next_event(three)? == Some(6));
    Ok(())
}

#[test]
fn subscribers_get_their_events(rt: HostRuntime) -> Result<(), Fail> {
    fill(&rt, &mut EventHub::new(rt.alloc(), 1)?)?;
    outlive(&rt, &mut EventHub::new(rt.alloc(), 1)?)
}

/// The settings that a watcher finds, and how many it missed before them.
fn found(config: &mut Config<u64>, watcher: usize) -> Result<Option<(u64, u64)>, AllocError> {
    let change = config.look(watcher)?;
    Ok(change.map(|change| (change.settings, change.missed)))
}

/// A late watcher hears how many it missed.
fn miss(rt: &impl Abort, config: &mut Config<u64>, first: usize) -> Result<(), Fail> {
    config.set(1)?;
    config.set(2)?;
    config.set(3)?;
    config.set(4)?;
    assert!(rt; found(config, first)? == Some((4, 3)));
    assert!(rt; found(config, first)?.is_none());
    Ok(())
}

/// Each watcher counts for itself.
fn watch(rt: &impl Abort, config: &mut Config<u64>, first: usize) -> Result<(), Fail> {
    config.set(1)?;
    let second = config.watch()?;
    assert!(rt; found(config, second)?.is_none());
    config.set(2)?;
    assert!(rt; found(config, first)? == Some((2, 1)));
    assert!(rt; found(config, second)? == Some((2, 0)));
    Ok(())
}

#[test]
fn watchers_find_the_latest_settings(rt: HostRuntime) -> Result<(), Fail> {
    let (mut config, first) = Config::new(rt.alloc())?;
    miss(&rt, &mut config, first)?;
    let (mut config, first) = Config::new(rt.alloc())?;
    watch(&rt, &mut config, first)
}

/// A log of capacity 3, and its readers.
fn read(rt: &impl Abort, log: &mut Log, readers: [usize; 2]) {
    for entry in 5..8 {
        assert!(rt; log.write(entry) == Ok(()));
    }
    for reader in readers {
        assert!(rt; log.write(8) == Err(TrySendError::Full(8)));
        for entry in 5..8 {
            assert!(rt; log.read(reader) == Some(entry));
        }
        assert!(rt; log.read(reader).is_none());
    }
}

#[test]
fn readers_agree_on_the_order(rt: HostRuntime) -> Result<(), Fail> {
    let (mut log, first) = Log::new(rt.alloc(), 3)?;
    let second = log.add_reader(first)?;
    read(&rt, &mut log, [first, second]);
    Ok(())
}

#[test]
fn the_signal_is_given_once_nobody_holds_it(rt: HostRuntime) -> Result<(), Fail> {
    let (mut signal, first) = Shutdown::new(rt.alloc())?;
    signal.hold()?;
    let second = signal.add_worker()?;
    signal.release();
    assert!(rt; !signal.is_given(first) && !signal.is_given(second));
    signal.release();
    assert!(rt; signal.is_given(first) && signal.is_given(second));
    assert!(rt; signal.hold().is_err());
    Ok(())
}

#[test]
fn two_receivers_get_one_text(rt: HostRuntime) -> Result<(), AllocError> {
    let text = String::from_str(rt.alloc(), "to all")?;
    let Some((first, second)) = send_to_two(rt.alloc(), text)? else {
        return Err(AllocError);
    };
    assert!(rt; first.as_str() == "to all" && second.as_str() == "to all");
    Ok(())
}
