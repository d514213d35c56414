ghost use Rattle.std.specs.Prelude.{◌≡◌, ◌<◌, ℕ, List as Items, slice_index};
ghost use Rattle.aseba_message.specs.Message.{Message};
ghost use Rattle.aseba_message.specs.Cut.{IsCut, IsMessage, frames_of, rest_of};

use crate::frame::Frame;

/// A stream is cut in one way: it is its frames, one after the other, and its rest, and it is no
/// others. So what was encoded is what is read.
pub fn one_cut()
    ensures found { (bytes : Items ℕ) → ((i : ℕ) → slice_index bytes i < 256) → IsCut bytes (frames_of bytes) (rest_of bytes) }
    ensures only { (bytes : Items ℕ) (frames : Items Message) (rest : Items ℕ) → IsCut bytes frames rest → (frames_of bytes ≡ frames) × (rest_of bytes ≡ rest) }
{}

/// Each frame is a message: its source and its kind are words, and its payload isn't too long.
pub fn is_message(frame: &Frame)
    ensures { IsMessage frame.now }
{
    let (_source, _kind) = (frame.source, frame.kind);
}
