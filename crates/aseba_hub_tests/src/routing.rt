//! Small hubs, worked by hand.
use crate::hub::Hub;
use aseba_router::Session;
use std::test::Fail;

fn session(port: u16, nth: u64) -> Session {
    Session { port, nth }
}

#[test]
fn a_full_queue_drops_its_session(rt: HostRuntime) -> Result<(), Fail> {
    let alloc = rt.alloc();
    let mut hub = Hub::new(alloc, 3, 2, false)?;
    hub.join(session(0, 0))?;
    hub.join(session(1, 0))?;
    hub.join(session(2, 0))?;
    for kind in 0..3 {
        hub.say(alloc, session(0, 0), kind)?;
        assert_eq!(rt; hub.pop(1), Some(Some(kind)));
    }
    assert_eq!(rt; hub.items(), 6);
    assert_eq!(rt; hub.full_at(0), None);
    assert_eq!(rt; hub.full_at(1), None);
    assert_eq!(rt; hub.full_at(2), Some(5));
    assert_eq!(rt; hub.full_at(3), None);
    assert_eq!(rt; hub.pop(0), None);
    assert_eq!(rt; hub.pop(2), Some(Some(0)));
    assert_eq!(rt; hub.pop(2), Some(Some(1)));
    assert_eq!(rt; hub.pop(2), None);
    assert_eq!(rt; hub.pop(3), None);
    Ok(())
}

#[test]
fn an_end_waits_for_room(rt: HostRuntime) -> Result<(), Fail> {
    let alloc = rt.alloc();
    let mut hub = Hub::new(alloc, 2, 1, false)?;
    hub.join(session(0, 0))?;
    hub.join(session(1, 0))?;
    hub.say(alloc, session(0, 0), 7)?;
    hub.leave(session(1, 0))?;
    assert_eq!(rt; hub.items(), 4);
    assert_eq!(rt; hub.full_at(0), None);
    assert_eq!(rt; hub.full_at(1), Some(3));
    hub.retry();
    assert_eq!(rt; hub.pop(1), Some(Some(7)));
    assert_eq!(rt; hub.pop(1), None);
    hub.retry();
    assert_eq!(rt; hub.pop(1), Some(None));
    Ok(())
}

#[test]
fn with_echo_a_session_hears_itself(rt: HostRuntime) -> Result<(), Fail> {
    let alloc = rt.alloc();
    let mut hub = Hub::new(alloc, 2, 4, true)?;
    hub.join(session(0, 0))?;
    hub.join(session(1, 0))?;
    for kind in 0..3 {
        hub.say(alloc, session(0, 0), kind)?;
        assert_eq!(rt; hub.pop(0), Some(Some(kind)));
        assert_eq!(rt; hub.pop(1), Some(Some(kind)));
    }
    assert_eq!(rt; hub.full_at(0), None);
    assert_eq!(rt; hub.full_at(1), None);
    Ok(())
}

#[test]
fn an_end_of_the_session_before_drops_the_next(rt: HostRuntime) -> Result<(), Fail> {
    let alloc = rt.alloc();
    let mut hub = Hub::new(alloc, 2, 1, false)?;
    hub.join(session(0, 0))?;
    hub.join(session(1, 0))?;
    hub.say(alloc, session(0, 0), 7)?;
    hub.leave(session(1, 0))?;
    hub.join(session(1, 1))?;
    assert_eq!(rt; hub.full_at(1), None);
    hub.say(alloc, session(0, 0), 8)?;
    assert_eq!(rt; hub.full_at(1), Some(5));
    assert_eq!(rt; hub.pop(1), Some(Some(7)));
    hub.retry();
    assert_eq!(rt; hub.pop(1), Some(None));
    hub.say(alloc, session(0, 0), 9)?;
    assert_eq!(rt; hub.pop(1), None);
    Ok(())
}
