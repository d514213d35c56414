//! Many threads push and one pops: what comes is a merge of what was pushed.
ghost use Rattle.std.specs.Prelude.{◌≡◌, ◌+◌, ◌-◌, ◌<◌, ◌^◌, ◌++◌, ◌∷◌, [], true, All, IfOk, OnOk, length, List, map, vec_len};
ghost use Rattle.std.specs.List.{sum_by};
ghost use Rattle.aseba_queues.specs.Merges.{IsMerge};
ghost use Rattle.aseba_queues.specs.Passes.{IsInPass, in_view};
ghost use Rattle.aseba_queues.specs.Views.{first, known};
ghost use Rattle.aseba_queue_tests.specs.Exchange.{AreDone, IsDone, IsReady, lists_of};

use crate::item::Sent;
use aseba_queues::{InPass, InQueue};
use std::alloc::{AllocError, Global};
use std::sync::Wait;
use std::thread;
use std::thread::{Threads, join};

/// More items than that aren't exchanged.
const MOST: usize = 1 << 32;

/// How many items the queue holds at most.
const PLACES: usize = 16;

/// One that pushes its items.
#[derive(Drop)]
struct Producer {
    pass: InPass<Sent>,
    items: Vec<Sent>,
}

/// How many items the lists have together, if these are few enough.
fn count_of(lists: &[Vec<Sent>]) -> Result<usize, AllocError>
    ensures { IfOk result (λ count. (count < 2 ^ 61) × (count ≡ sum_by (λ list. vec_len list) lists.now)) }
{
    let mut count: usize = 0;
    for list in lists {
        if list.len() > MOST - count {
            return Err(AllocError);
        }
        count += list.len();
    }
    Ok(count)
}

/// Gives each list a pass of its own.
fn ready(
    alloc: Global,
    queue: &InQueue<Sent>,
    owner: &mut InPass<Sent>,
    lists: Vec<Vec<Sent>>,
) -> Result<Vec<Producer>, AllocError>
    requires few { vec_len lists < 1024 }
    requires queue { IsInPass queue.now owner.old × (in_view owner.old ≡ first) }
    ensures queue { IsInPass queue.now owner.new }
    ensures ready { IfOk result (λ ready. All (IsReady queue.now) ready.items × (lists_of ready.items ≡ map (λ list. list.items) lists.items)) }
    ensures left { OnOk result (in_view owner.new ≡ known (1024 - vec_len lists) true [] []) }
{
    let mut producers = Vec::new(alloc);
    for items in lists {
        let pass = queue.split(owner);
        producers.push(Producer { pass, items })?;
    }
    Ok(producers)
}

/// Pushes all items in their order.
fn push_all<R: Wait>(rt: &R, queue: &InQueue<Sent>, producer: Producer) -> Producer
    requires { IsReady queue.now producer }
    ensures done { IsDone queue.now result }
    ensures same { result.items.items ≡ producer.items.items }
{
    let Producer { mut pass, items } = producer;
    let mut next = 0;
    for _ in rt.forever() {
        if next >= items.len() {
            break;
        }
        match queue.push(rt, &mut pass, items[next]) {
            Ok(()) => next += 1,
            Err(_) => thread::yield_now(),
        }
    }
    Producer { pass, items }
}

/// Has each push its items, on a thread of its own.
fn push_each<R: Threads + Wait + Sync>(
    rt: &R,
    queue: &InQueue<Sent>,
    producers: Vec<Producer>,
) -> Result<Vec<Producer>, AllocError>
    requires { All (IsReady queue.now) producers.items }
    ensures { IfOk result (λ done. AreDone queue.now producers.items done.items) }
{
    thread::map_vec(
        rt,
        producers,
        &|producer: Producer| -> Producer
            requires { IsReady queue.now producer }
            ensures { IsDone queue.entry.now result × (result.items.items ≡ producer.items.items) }
        { push_all(rt, queue, producer) },
    )
}

/// The same, seen as a whole.
fn push_all_at_once<R: Threads + Wait + Sync>(
    rt: &R,
    queue: &InQueue<Sent>,
    producers: Vec<Producer>,
) -> Result<Vec<Producer>, AllocError>
    requires { All (IsReady queue.now) producers.items }
    ensures { IfOk result (λ done. All (IsDone queue.now) done.items × (lists_of done.items ≡ lists_of producers.items)) }
{
    push_each(rt, queue, producers)
}

/// Pops as many items as there is room for.
fn pop_into<R: Wait>(rt: &R, queue: &InQueue<Sent>, owner: &mut InPass<Sent>, came: &mut [Sent])
    requires room { length came.old < 2 ^ 61 }
    requires queue { IsInPass queue.now owner.old × (in_view owner.old ≡ known (in_view owner.old).parts true [] []) }
    ensures queue { IsInPass queue.now owner.new }
    ensures came { in_view owner.new ≡ known (in_view owner.old).parts true [] came.new }
{
    let mut next = 0;
    for _ in rt.forever() {
        if next >= came.len() {
            break;
        }
        match queue.pop(rt, owner) {
            Some(item) => {
                came[next] = item;
                next += 1;
            }
            None => thread::yield_now(),
        }
    }
}

/// Pops as many items as the vector is long.
fn pop_all<R: Wait>(
    rt: &R,
    queue: &InQueue<Sent>,
    mut owner: InPass<Sent>,
    mut came: Vec<Sent>,
) -> (InPass<Sent>, Vec<Sent>)
    requires room { vec_len came < 2 ^ 61 }
    requires queue { IsInPass queue.now owner × (in_view owner ≡ known (in_view owner).parts true [] []) }
    ensures queue { IsInPass queue.now result.0 }
    ensures came { in_view result.0 ≡ known (in_view owner).parts true [] result.1.items }
    ensures len { vec_len result.1 ≡ vec_len came }
{
    pop_into(rt, queue, &mut owner, came.as_mut_slice());
    (owner, came)
}

/// Takes one pass in.
#[tactic(auto, using(crate::proofs::Joining::joined_is))]
fn take_in(queue: &InQueue<Sent>, owner: &mut InPass<Sent>, producer: Producer)
    requires queue { IsInPass queue.now owner.old }
    requires done { IsDone queue.now producer }
    ensures queue { IsInPass queue.now owner.new }
    ensures one { in_view owner.new ≡ known ((in_view owner.old).parts + 1) (in_view owner.old).owns ((in_view owner.old).many ++ producer.items.items ∷ []) (in_view owner.old).one }
{
    queue.join(owner, producer.pass);
}

/// Takes all passes in.
fn gather(queue: &InQueue<Sent>, owner: &mut InPass<Sent>, done: Vec<Producer>)
    requires queue { IsInPass queue.now owner.old × ((in_view owner.old).many ≡ []) }
    requires done { All (IsDone queue.now) done.items }
    ensures queue { IsInPass queue.now owner.new }
    ensures all { in_view owner.new ≡ known ((in_view owner.old).parts + vec_len done) (in_view owner.old).owns (lists_of done.items) (in_view owner.old).one }
{
    for producer in done {
        take_in(queue, owner, producer);
    }
}

/// Takes all passes in. The owner has then all parts, and knows what was pushed.
fn settle(queue: &InQueue<Sent>, mut owner: InPass<Sent>, done: Vec<Producer>)
    requires queue { IsInPass queue.now owner }
    requires owner { in_view owner ≡ known (1024 - vec_len done) true [] (in_view owner).one }
    requires few { vec_len done < 1024 }
    requires done { All (IsDone queue.now) done.items }
    ensures { (items : List Sent) × IsMerge (lists_of done.items) ((in_view owner).one ++ items) }
{
    gather(queue, &mut owner, done);
    queue.total(&mut owner);
}

/// Has all work at once: those that push, and the one that pops.
fn run<R: Threads + Wait + Sync>(
    rt: &R,
    queue: &InQueue<Sent>,
    owner: InPass<Sent>,
    came: Vec<Sent>,
    producers: Vec<Producer>,
) -> Result<(InPass<Sent>, Vec<Sent>, Vec<Producer>), AllocError>
    requires room { vec_len came < 2 ^ 61 }
    requires queue { IsInPass queue.now owner × (in_view owner ≡ known (in_view owner).parts true [] []) }
    requires ready { All (IsReady queue.now) producers.items }
    ensures queue { IfOk result (λ r. IsInPass queue.now r.0) }
    ensures came { IfOk result (λ r. in_view r.0 ≡ known (in_view owner).parts true [] r.1.items) }
    ensures len { IfOk result (λ r. vec_len r.1 ≡ vec_len came) }
    ensures done { IfOk result (λ r. All (IsDone queue.now) r.2.items × (lists_of r.2.items ≡ lists_of producers.items)) }
{
    let ((owner, came), done) = join(
        rt,
        move || -> (InPass<Sent>, Vec<Sent>)
            requires { (vec_len came < 2 ^ 61) × IsInPass queue.now owner × (in_view owner ≡ known (in_view owner).parts true [] []) }
            ensures { IsInPass queue.entry.now result.0 × (in_view result.0 ≡ known (in_view owner).parts true [] result.1.items) × (vec_len result.1 ≡ vec_len came) }
        { pop_all(rt, queue, owner, came) },
        move || -> Result<Vec<Producer>, AllocError>
            requires { All (IsReady queue.now) producers.items }
            ensures { IfOk result (λ done. All (IsDone queue.entry.now) done.items × (lists_of done.items ≡ lists_of producers.items)) }
        { push_all_at_once(rt, queue, producers) },
    );
    Ok((owner, came, done?))
}

/// Each list is pushed by a thread of its own, and one thread pops all: what came is a merge of the
/// lists. At most 2^32 items are exchanged.
pub fn exchange<R: Threads + Wait + Sync>(
    rt: &R,
    alloc: Global,
    lists: Vec<Vec<Sent>>,
) -> Result<Vec<Sent>, AllocError>
    requires { vec_len lists < 1024 }
    ensures { IfOk result (λ came. IsMerge (map (λ list. list.items) lists.items) came.items) }
{
    let count = count_of(lists.as_slice())?;
    let came = Vec::from_elem(alloc, Sent { port: 0, number: 0 }, count)?;
    let (queue, mut owner) = InQueue::new(alloc, PLACES)?;
    let producers = ready(alloc, &queue, &mut owner, lists)?;
    let (owner, came, done) = run(rt, &queue, owner, came, producers)?;
    settle(&queue, owner, done);
    Ok(came)
}
