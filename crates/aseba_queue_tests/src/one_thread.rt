//! Queues on one thread: what they answer, and how many items wait.
use crate::item::Sent;
use aseba_queues::{InQueue, PortQueue};
use std::test::Fail;

const fn sent(number: u32) -> Sent {
    Sent { port: 7, number }
}

#[test]
fn many_push_and_the_owner_pops(rt: HostRuntime) -> Result<(), Fail> {
    let (queue, mut owner) = InQueue::new(rt.alloc(), 2)?;
    assert_eq!(rt; queue.capacity(), 2);
    let mut left = queue.split(&mut owner);
    let mut right = queue.split(&mut owner);
    assert_eq!(rt; queue.push(&rt, &mut left, sent(1)), Ok(()));
    assert_eq!(rt; queue.try_push(&mut right, sent(2)), Ok(()));
    assert_eq!(rt; queue.push(&rt, &mut left, sent(3)), Err(sent(3)));
    assert_eq!(rt; queue.try_push(&mut right, sent(4)), Err(sent(4)));
    assert_eq!(rt; queue.waiting(&rt, &mut left), 2);
    assert_eq!(rt; queue.pop(&rt, &mut owner), Some(sent(1)));
    assert_eq!(rt; queue.push(&rt, &mut owner, sent(5)), Ok(()));
    queue.join(&mut owner, left);
    queue.join(&mut owner, right);
    queue.total(&mut owner);
    assert_eq!(rt; queue.pop(&rt, &mut owner), Some(sent(2)));
    assert_eq!(rt; queue.pop(&rt, &mut owner), Some(sent(5)));
    assert_eq!(rt; queue.pop(&rt, &mut owner), None);
    assert_eq!(rt; queue.waiting(&rt, &mut owner), 0);
    Ok(())
}

#[test]
fn the_owner_pushes_and_many_pop(rt: HostRuntime) -> Result<(), Fail> {
    let (queue, mut owner) = PortQueue::new(rt.alloc(), 3)?;
    assert_eq!(rt; queue.capacity(), 3);
    let mut left = queue.split(&mut owner);
    let mut right = queue.split(&mut owner);
    assert_eq!(rt; queue.push(&rt, &mut owner, sent(1)), Ok(()));
    assert_eq!(rt; queue.push(&rt, &mut owner, sent(2)), Ok(()));
    assert_eq!(rt; queue.try_push(&mut owner, sent(3)), Ok(()));
    assert_eq!(rt; queue.push(&rt, &mut owner, sent(4)), Err(sent(4)));
    assert_eq!(rt; queue.try_push(&mut owner, sent(5)), Err(sent(5)));
    assert_eq!(rt; queue.pop(&rt, &mut left), Some(sent(1)));
    assert_eq!(rt; queue.pop(&rt, &mut right), Some(sent(2)));
    assert_eq!(rt; queue.waiting(&rt, &mut owner), 1);
    queue.join(&mut left, owner);
    queue.join(&mut left, right);
    queue.total(&mut left);
    assert_eq!(rt; queue.push(&rt, &mut left, sent(6)), Ok(()));
    assert_eq!(rt; queue.pop(&rt, &mut left), Some(sent(3)));
    assert_eq!(rt; queue.pop(&rt, &mut left), Some(sent(6)));
    assert_eq!(rt; queue.pop(&rt, &mut left), None);
    Ok(())
}

#[test]
fn a_pass_that_is_dropped_keeps_its_part(rt: HostRuntime) -> Result<(), Fail> {
    let (queue, mut owner) = InQueue::new(rt.alloc(), 1)?;
    let mut other = queue.split(&mut owner);
    assert_eq!(rt; queue.push(&rt, &mut other, sent(1)), Ok(()));
    drop(other);
    assert_eq!(rt; queue.pop(&rt, &mut owner), Some(sent(1)));
    assert_eq!(rt; queue.pop(&rt, &mut owner), None);
    Ok(())
}
