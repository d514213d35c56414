ghost use Rattle.std.specs.Prelude.{◌≡◌, reverse};
ghost use Rattle.aseba_record.specs.Playing as spec;

use aseba_dump::Timed;
use aseba_message::Frame;
use aseba_words::List;
use std::marker::Model;

/// What sends the frames of a recording, each when its time is reached.
#[derive(Drop)]
pub struct Player {
    /// The frames that weren't sent yet, the last one first.
    left: Vec<Timed>,
}

/// What is to be done at a moment.
#[derive(Debug, Drop)]
pub enum Next {
    /// Send this frame, whose time is reached.
    Send(Frame),
    /// Wait until this time.
    Wait { until: u64 },
    /// Nothing: all frames were sent.
    End,
}

/// A player is seen as the frames that are left, in order.
impl Model for Player {
    ghost use Rattle.std.specs.Prelude.{List, reverse};
    ghost use Rattle.aseba_dump.specs.declared.timed.Timed.{Timed};

    ghost Value = { List Timed };

    ghost view = { λ player. reverse player.left.items };
}

impl Player {
    /// A player of these frames. It takes no memory.
    pub fn new(list: List<Timed>) -> Player
        ensures { result ≡ list }
    {
        let mut left = list.into_vec();
        left.reverse();
        Player { left }
    }

    /// What comes next at a moment: the next frame where its time is at most `now`; else its time; the
    /// end exactly where all frames were sent. It takes no memory.
    pub fn next(&mut self, now: u64) -> Next
        ensures next { result ≡ spec.next_of self.old now }
        ensures left { self.new ≡ spec.left_of self.old now }
    {
        next_of(&mut self.left, now)
    }
}

/// What comes next of the frames that are left, the last one first.
fn next_of(left: &mut Vec<Timed>, now: u64) -> Next
    ensures next { result ≡ spec.next_of (reverse left.old.items) now }
    ensures left { reverse left.new.items ≡ spec.left_of (reverse left.old.items) now }
{
    match left.as_slice() {
        [.., next] if next.time > now => return Next::Wait { until: next.time },
        _ => {}
    }
    match left.pop() {
        Some(next) => Next::Send(next.frame),
        None => Next::End,
    }
}
