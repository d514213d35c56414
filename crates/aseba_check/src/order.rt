//! An order of subroutines in which each stands before those that it calls.
use crate::parts::sub_places;
use crate::sub_calls::SubCall;
use crate::table::Table;
use aseba_tree::Handler;
use aseba_words::{List, Mem};
use std::alloc::Global;

/// Ranks of subroutines, and the places of calls in the order of their callers. Nothing is promised
/// of them: who takes them tests them.
#[derive(Drop)]
pub struct Order {
    pub ranks: Table<usize>,
    pub places: List<usize>,
}

/// A call by the places of its subroutines among the parts. That of a name that no subroutine has
/// is the number of parts.
#[derive(Clone, Copy)]
struct Edge {
    caller: usize,
    called: usize,
}

/// An order for as many calls in front as have one.
pub fn order_of(alloc: Global, parts: &[Handler], calls: &[SubCall]) -> Result<Order, Mem> {
    let edges = edges_of(alloc, parts, calls)?;
    let edges = edges.as_slice();
    let nodes = parts.len() + 1;
    let all = peel(alloc, nodes, edges)?;
    if all.places.as_slice().len() == edges.len() {
        return named(alloc, parts, all);
    }
    let front = longest_front(alloc, nodes, edges)?;
    named(alloc, parts, peel(alloc, nodes, front)?)
}

fn edges_of(alloc: Global, parts: &[Handler], calls: &[SubCall]) -> Result<List<Edge>, Mem> {
    let places = sub_places(alloc, parts)?;
    let unknown = parts.len();
    let mut edges = List::new(alloc);
    for call in calls {
        let edge = Edge {
            caller: places.find(call.caller).unwrap_or(unknown),
            called: places.find(call.called).unwrap_or(unknown),
        };
        edges.add(edge)?;
    }
    Ok(edges)
}

/// The longest front of calls that has an order, found by halving.
fn longest_front(alloc: Global, nodes: usize, edges: &[Edge]) -> Result<&[Edge], Mem> {
    let mut front = 0;
    let mut end = edges.len();
    while end - front > 1 {
        let middle = front + (end - front) / 2;
        if has_order(alloc, nodes, edges, middle)? {
            front = middle;
        } else {
            end = middle;
        }
    }
    Ok(edges.get(..front).unwrap_or(edges))
}

fn has_order(alloc: Global, nodes: usize, edges: &[Edge], count: usize) -> Result<bool, Mem> {
    let Some(front) = edges.get(..count) else {
        return Ok(false);
    };
    let peeled = peel(alloc, nodes, front)?;
    Ok(peeled.places.as_slice().len() == count)
}

/// Subroutines in the order in which they are free of calls that aren't passed, as ranks that go
/// down, and the calls in the order in which they are passed.
#[derive(Drop)]
struct Peeled {
    ranks: Vec<usize>,
    places: List<usize>,
}

/// Takes subroutines to which no call leads, one after the other, and passes their calls.
fn peel(alloc: Global, nodes: usize, edges: &[Edge]) -> Result<Peeled, Mem> {
    let mut waiting = Waiting::of(alloc, nodes, edges)?;
    let mut free = waiting.free(alloc)?;
    let mut ranks = vec![in alloc; 0; nodes]?;
    let mut places = List::new(alloc);
    for turn in 0..nodes {
        let Some(node) = free.as_slice().get(turn).copied() else {
            break;
        };
        put(&mut ranks, node, nodes - turn);
        waiting.pass_calls(edges, node, &mut free, &mut places)?;
    }
    Ok(Peeled { ranks, places })
}

fn put<T: Copy>(list: &mut Vec<T>, place: usize, value: T) {
    if let Some(slot) = list.get_mut(place) {
        *slot = value;
    }
}

/// Calls that aren't passed.
#[derive(Drop)]
struct Waiting {
    /// How many of them lead to each subroutine.
    counts: Vec<usize>,
    /// The last call of each subroutine.
    last: Vec<Option<usize>>,
    /// The call of the same subroutine before each call.
    before: Vec<Option<usize>>,
}

impl Waiting {
    fn of(alloc: Global, nodes: usize, edges: &[Edge]) -> Result<Waiting, Mem> {
        let counts = vec![in alloc; 0; nodes]?;
        let last = vec![in alloc; None; nodes]?;
        let before = Vec::new(alloc);
        let mut waiting = Waiting {
            counts,
            last,
            before,
        };
        for (place, edge) in edges.iter().enumerate() {
            waiting.add(place, *edge)?;
        }
        Ok(waiting)
    }

    fn add(&mut self, place: usize, edge: Edge) -> Result<(), Mem> {
        let before = self.last_of(edge.caller);
        self.before.push(before)?;
        put(&mut self.last, edge.caller, Some(place));
        let count = self.count_of(edge.called);
        put(&mut self.counts, edge.called, count.saturating_add(1));
        Ok(())
    }

    fn last_of(&self, node: usize) -> Option<usize> {
        match self.last.get(node) {
            Some(last) => *last,
            None => None,
        }
    }

    fn before(&self, place: usize) -> Option<usize> {
        match self.before.get(place) {
            Some(before) => *before,
            None => None,
        }
    }

    fn count_of(&self, node: usize) -> usize {
        match self.counts.get(node) {
            Some(count) => *count,
            None => 0,
        }
    }

    /// The subroutines to which no call leads.
    fn free(&self, alloc: Global) -> Result<List<usize>, Mem> {
        let mut free = List::new(alloc);
        for (node, count) in self.counts.as_slice().iter().enumerate() {
            if *count == 0 {
                free.add(node)?;
            }
        }
        Ok(free)
    }

    /// Passes the calls of a subroutine.
    fn pass_calls(
        &mut self,
        edges: &[Edge],
        node: usize,
        free: &mut List<usize>,
        places: &mut List<usize>,
    ) -> Result<(), Mem> {
        let mut next = self.last_of(node);
        for _ in edges {
            let Some(place) = next else {
                break;
            };
            places.add(place)?;
            if let Some(edge) = edges.get(place) {
                self.pass(edge.called, free)?;
            }
            next = self.before(place);
        }
        Ok(())
    }

    /// Passes a call to a subroutine, which is free behind the last of them.
    fn pass(&mut self, node: usize, free: &mut List<usize>) -> Result<(), Mem> {
        let left = self.count_of(node).saturating_sub(1);
        put(&mut self.counts, node, left);
        if left == 0 { free.add(node) } else { Ok(()) }
    }
}

/// The ranks by name.
fn named(alloc: Global, parts: &[Handler], peeled: Peeled) -> Result<Order, Mem> {
    let Peeled { ranks, places } = peeled;
    let mut named = Table::new(alloc);
    for (part, rank) in parts.iter().zip(ranks.as_slice()) {
        if part.is_sub {
            named.set_first(alloc, &part.name, *rank)?;
        }
    }
    Ok(Order {
        ranks: named,
        places,
    })
}
