//! The owner pushes and another thread pops: what comes is what was pushed.
ghost use Rattle.std.specs.Prelude.{◌≡◌, ◌∷◌, [], true, IfOk, length, vec_len};
ghost use Rattle.aseba_queues.specs.Passes.{IsPortPass, port_view};
ghost use Rattle.aseba_queues.specs.Views.{known, working};

use crate::item::Sent;
use aseba_queues::{PortPass, PortQueue};
use std::alloc::{AllocError, Global};
use std::sync::Wait;
use std::thread;
use std::thread::{Threads, join};

/// How many items the queue holds at most.
const PLACES: usize = 16;

/// Pushes all items in their order.
fn push_all<R: Wait>(
    rt: &R,
    queue: &PortQueue<Sent>,
    mut owner: PortPass<Sent>,
    items: &[Sent],
) -> PortPass<Sent>
    requires { IsPortPass queue.now owner × (port_view owner ≡ known 1023 true [] []) }
    ensures { IsPortPass queue.now result × (port_view result ≡ known 1023 true [] items.now) }
{
    let mut next = 0;
    for _ in rt.forever() {
        if next >= items.len() {
            break;
        }
        match queue.push(rt, &mut owner, items[next]) {
            Ok(()) => next += 1,
            Err(_) => thread::yield_now(),
        }
    }
    owner
}

/// Pops as many items as there is room for.
fn pop_into<R: Wait>(
    rt: &R,
    queue: &PortQueue<Sent>,
    mut pass: PortPass<Sent>,
    came: &mut [Sent],
) -> PortPass<Sent>
    requires { IsPortPass queue.now pass × (port_view pass ≡ working []) }
    ensures { IsPortPass queue.now result × (port_view result ≡ working came.new) }
{
    let mut next = 0;
    for _ in rt.forever() {
        if next >= came.len() {
            break;
        }
        match queue.pop(rt, &mut pass) {
            Some(item) => {
                came[next] = item;
                next += 1;
            }
            None => thread::yield_now(),
        }
    }
    pass
}

/// Pops as many items as the vector is long.
fn pop_all<R: Wait>(
    rt: &R,
    queue: &PortQueue<Sent>,
    pass: PortPass<Sent>,
    mut came: Vec<Sent>,
) -> (PortPass<Sent>, Vec<Sent>)
    requires { IsPortPass queue.now pass × (port_view pass ≡ working []) }
    ensures { IsPortPass queue.now result.0 × (port_view result.0 ≡ working result.1.items) × (vec_len result.1 ≡ vec_len came) }
{
    let pass = pop_into(rt, queue, pass, came.as_mut_slice());
    (pass, came)
}

/// The owner takes the other pass in: as many items as were pushed came, so all did.
fn settle(
    queue: &PortQueue<Sent>,
    mut owner: PortPass<Sent>,
    pass: PortPass<Sent>,
    items: &[Sent],
    came: &[Sent],
)
    requires owner { IsPortPass queue.now owner × (port_view owner ≡ known 1023 true [] items.now) }
    requires pass { IsPortPass queue.now pass × (port_view pass ≡ working came.now) }
    requires as_many { length came.now ≡ length items.now }
    ensures { came.now ≡ items.now }
{
    queue.join(&mut owner, pass);
    queue.total(&mut owner);
}

/// The items, which went through a queue from one thread to another.
pub fn relay<R: Threads + Wait + Sync>(
    rt: &R,
    alloc: Global,
    items: &[Sent],
) -> Result<Vec<Sent>, AllocError>
    ensures { IfOk result (λ came. came.items ≡ items.now) }
{
    let came = Vec::from_elem(alloc, Sent { port: 0, number: 0 }, items.len())?;
    let (queue, mut owner) = PortQueue::new(alloc, PLACES)?;
    let queue = &queue;
    let pass = queue.split(&mut owner);
    let (owner, (pass, came)) = join(
        rt,
        move || -> PortPass<Sent>
            requires { IsPortPass queue.now owner × (port_view owner ≡ known 1023 true [] []) }
            ensures { IsPortPass queue.entry.now result × (port_view result ≡ known 1023 true [] items.entry.now) }
        { push_all(rt, queue, owner, items) },
        move || -> (PortPass<Sent>, Vec<Sent>)
            requires { IsPortPass queue.now pass × (port_view pass ≡ working []) }
            ensures { IsPortPass queue.entry.now result.0 × (port_view result.0 ≡ working result.1.items) × (vec_len result.1 ≡ vec_len came) }
        { pop_all(rt, queue, pass, came) },
    );
    settle(queue, owner, pass, items, came.as_slice());
    Ok(came)
}
