//! Eight threads push into one queue, and another one pops; one pushes, and another one pops.
use crate::item::Sent;
use crate::producers::exchange;
use crate::relays::relay;
use std::alloc::{AllocError, Global};
use std::test::Fail;

const PORTS: u8 = 8;

const EACH: u32 = 1000;

fn items_of(alloc: Global, port: u8) -> Result<Vec<Sent>, AllocError> {
    let mut items = Vec::new(alloc);
    for number in 0..EACH {
        items.push(Sent { port, number })?;
    }
    Ok(items)
}

fn lists(alloc: Global) -> Result<Vec<Vec<Sent>>, AllocError> {
    let mut lists = Vec::new(alloc);
    for port in 0..PORTS {
        lists.push(items_of(alloc, port)?)?;
    }
    Ok(lists)
}

/// Whether the port's items are there, each once and in their order.
fn are_in_order(came: &[Sent], port: u8) -> bool {
    let mut next = 0;
    for item in came {
        if item.port == port {
            if next >= EACH || item.number != next {
                return false;
            }
            next += 1;
        }
    }
    next == EACH
}

#[test]
fn what_comes_is_a_merge_of_what_was_pushed(rt: HostRuntime) -> Result<(), Fail> {
    let lists = lists(rt.alloc())?;
    if lists.len() != usize::from(PORTS) {
        return Err("lists".into());
    }
    let came = exchange(&rt, rt.alloc(), lists)?;
    assert_eq!(rt; came.len(), 8000);
    for port in 0..PORTS {
        assert!(rt; are_in_order(came.as_slice(), port), "port {port}");
    }
    Ok(())
}

#[test]
fn one_list_comes_as_it_was_pushed(rt: HostRuntime) -> Result<(), Fail> {
    let mut lists = Vec::new(rt.alloc());
    lists.push(items_of(rt.alloc(), 3)?)?;
    let came = exchange(&rt, rt.alloc(), lists)?;
    assert_eq!(rt; came.len(), 1000);
    assert!(rt; are_in_order(came.as_slice(), 3));
    Ok(())
}

#[test]
fn what_one_pops_is_what_the_owner_pushed(rt: HostRuntime) -> Result<(), Fail> {
    let items = items_of(rt.alloc(), 5)?;
    let came = relay(&rt, rt.alloc(), items.as_slice())?;
    assert_eq!(rt; came.len(), 1000);
    assert!(rt; are_in_order(came.as_slice(), 5));
    Ok(())
}
