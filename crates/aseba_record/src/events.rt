//! The events that can be recorded.
ghost use Rattle.std.specs.Prelude.{◌≡◌, ◌<◌, ◌^◌, ℕ};
ghost use Rattle.std.specs.List.{AllByRecursion};
ghost use Rattle.aseba_payload.specs.Layout.{IsByte};
ghost use Rattle.aseba_record.specs.Events as spec;

use aseba_message::{Frame, is_message};

/// Whether a frame says an event of a user, so that it can be recorded. It takes no memory.
pub fn is_event(frame: &Frame) -> bool
    ensures { result ≡ spec.is_event frame.now }
{
    is_event_of(frame.kind, frame.payload.as_slice())
}

/// Whether a number is that of an event, and bytes are words.
fn is_event_of(kind: u16, payload: &[u8]) -> bool
    ensures { (source : ℕ) → result ≡ spec.is_event (record { source = source; kind = kind; payload = payload.now }) }
{
    kind < 0x8000 && payload.len() % 2 == 0
}

/// An event at a time below 2^63 can be recorded.
pub fn is_entry(time: u64, frame: &Frame)
    requires event { spec.IsEvent frame.now }
    requires time { time < 2 ^ 63 }
    ensures { spec.IsEntry (record { time = time; frame = frame.now }) }
{
    is_message(frame);
    are_bytes(frame.payload.as_slice());
}

/// Bytes are numbers below 256.
fn are_bytes(bytes: &[u8])
    ensures { AllByRecursion IsByte bytes.now }
{
    let _len = bytes.len();
}
