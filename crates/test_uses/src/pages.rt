//! What docs/GUIDE.md shows of the four uses and of topics. Each function is given a new caller.
use bcast_core::{Reply, TrySendError};
use std::alloc::Global;
use std::process::Abort;
use std::string::String;
use std::test::Fail;
use topics::{Answer, Hub, Request};
use uses::config_watcher::Config;
use uses::event_hub::EventHub;
use uses::log_fan_out::Log;
use uses::shutdown::Shutdown;

/// A hub of capacity 1.
fn publish(rt: &impl Abort, hub: &mut EventHub<u64>) -> Result<(), Fail> {
    let one = hub.subscribe()?;
    let two = hub.subscribe_like(one)?;
    assert!(rt; hub.publish(5) == Ok(()));
    // The event is returned, and nothing changed.
    assert!(rt; hub.publish(6) == Err(TrySendError::Full(6)));
    hub.unsubscribe(one);
    assert!(rt; hub.next_event(two)? == Some(5));
    // Without subscribers the hub stays open.
    hub.unsubscribe(two);
    assert!(rt; hub.publish(7) == Err(TrySendError::Inactive(7)));
    Ok(())
}

#[test]
fn event_hub(rt: HostRuntime) -> Result<(), Fail> {
    publish(&rt, &mut EventHub::new(rt.alloc(), 1)?)
}

/// Settings, and the key of their first watcher.
fn set(rt: &impl Abort, config: &mut Config<u64>, watcher: usize) -> Result<(), Fail> {
    config.set(1)?;
    config.set(2)?;
    config.set(3)?;
    let change = config.look(watcher)?.ok_or("up to date")?;
    assert!(rt; change.settings == 3 && change.missed == 2);
    assert!(rt; config.look(watcher)?.is_none());
    Ok(())
}

#[test]
fn config_watcher(rt: HostRuntime) -> Result<(), Fail> {
    let (mut config, watcher) = Config::new(rt.alloc())?;
    set(&rt, &mut config, watcher)
}

/// A log of capacity 3, and the key of its first reader.
fn write(rt: &impl Abort, log: &mut Log, one: usize) -> Result<(), Fail> {
    // It has as much to read as the first one.
    let two = log.add_reader(one)?;
    log.write(5)?;
    log.write(6)?;
    assert!(rt; log.read(one) == Some(5));
    assert!(rt; log.read(two) == Some(5));
    assert!(rt; log.read(one) == Some(6));
    Ok(())
}

#[test]
fn log_fan_out(rt: HostRuntime) -> Result<(), Fail> {
    let (mut log, one) = Log::new(rt.alloc(), 3)?;
    write(&rt, &mut log, one)
}

/// A signal that has one holder.
fn release(rt: &impl Abort, signal: &mut Shutdown) -> Result<(), Fail> {
    let worker = signal.add_worker()?;
    // It has two holders now.
    signal.hold()?;
    signal.release();
    assert!(rt; !signal.is_given(worker));
    signal.release();
    assert!(rt; signal.is_given(worker));
    Ok(())
}

#[test]
fn shutdown(rt: HostRuntime) -> Result<(), Fail> {
    let (mut signal, _) = Shutdown::new(rt.alloc())?;
    release(&rt, &mut signal)
}

fn news(rt: &impl Abort, alloc: Global, hub: &mut Hub<u64>) -> Result<(), Fail> {
    let name = |text: &str| String::from_str(alloc, text);
    assert!(rt; hub.ask(Request::Open(name("news")?, 4)) == Answer::Opened);
    assert!(rt; hub.ask(Request::Open(name("news")?, 1)) == Answer::Exists);
    let Answer::Done(Reply::NewReceiver(Ok(key))) = hub.ask(Request::Follow(name("news")?)) else {
        return Err("not followed".into());
    };
    let sent = hub.ask(Request::Publish(name("news")?, 7));
    assert!(rt; sent == Answer::Done(Reply::TryBroadcast(Ok(None))));
    let received = hub.ask(Request::Receive(name("news")?, key));
    assert!(rt; received == Answer::Done(Reply::TryRecv(Ok(Ok(7)))));
    assert!(rt; hub.ask(Request::Close(name("sport")?)) == Answer::NoTopic);
    Ok(())
}

#[test]
fn a_topic_by_name(rt: HostRuntime) -> Result<(), Fail> {
    news(&rt, rt.alloc(), &mut Hub::new(rt.alloc()))
}
