ghost use Rattle.std.specs.Prelude.{◌≡◌, ◌≤◌, ◌++◌, length, OnOk, OnErr};
ghost use Rattle.byteorder.specs.Endian.{little_bytes};
ghost use Rattle.aseba_message.specs.Frames.{spelling};
ghost use Rattle.aseba_message.specs.Cut.{IsMessage};

use crate::frame::Frame;
use aseba_words::{List, Mem};
use byteorder::{ByteOrder, LittleEndian};
use std::alloc::Global;
use std::mem;

/// Adds a frame's bytes at the end. For want of memory it adds none.
pub fn encode(alloc: Global, frame: &Frame, out: &mut List<u8>) -> Result<(), Mem>
    ensures ok { OnOk result (out.new ≡ out.old ++ spelling frame.now) }
    ensures err { OnErr result (out.new ≡ out.old) }
    ensures message { IsMessage frame.now }
{
    let mut bytes = mem::replace(out, List::new(alloc)).into_vec();
    let added = append(&mut bytes, frame);
    *out = List::from_vec(bytes);
    added
}

fn append(bytes: &mut Vec<u8>, frame: &Frame) -> Result<(), Mem>
    ensures ok { OnOk result (bytes.new.items ≡ bytes.old.items ++ spelling frame.now) }
    ensures err { OnErr result (bytes.new.items ≡ bytes.old.items) }
    ensures message { IsMessage frame.now }
{
    let (source, kind) = (frame.source, frame.kind);
    let payload = frame.payload.as_slice();
    let len = bytes.len();
    bytes.extend_from_slice(&header(payload.len() as u16, source, kind))?;
    if bytes.extend_from_slice(payload).is_err() {
        bytes.truncate(len);
        return Err(Mem);
    }
    Ok(())
}

/// The three words before the payload.
fn header(len: u16, source: u16, kind: u16) -> [u8; 6]
    ensures { result ≡ little_bytes 2 len ++ little_bytes 2 source ++ little_bytes 2 kind }
{
    let mut header = [0; 6];
    LittleEndian::write_u16(&mut header, len);
    LittleEndian::write_u16(&mut header[2..], source);
    LittleEndian::write_u16(&mut header[4..], kind);
    header
}
