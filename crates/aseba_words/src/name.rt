ghost use Rattle.std.specs.Prelude.{◌≡◌, ◌≤◌, IfOk, IfSome, take};

use crate::mem::Mem;
use std::alloc::Global;
use std::boxed::BoxedSlice;
use std::fmt::{self, Debug, Formatter, Write};
use std::hash::{Hash, Hasher};
use std::marker::Model;

/// A name or a text, as bytes that contracts see as a list. Up to 23 bytes stand in the value
/// itself, so that most names of a source take no memory.
#[derive(Drop)]
pub struct Name {
    held: Held,
}

/// Where the bytes of a name stand.
#[derive(Drop)]
enum Held {
    /// In the value itself.
    Short(Short),
    /// Behind a pointer, in memory of their own.
    Long(BoxedSlice<u8>),
}

/// The most bytes that stand in place. With one more a name would take more room.
const ROOM: usize = 23;

/// The first `len` of `bytes`.
#[derive(Clone, Copy, Drop)]
struct Short {
    len: u8,
    bytes: [u8; ROOM],
}

impl Model for Name {
    ghost use Rattle.std.specs.Prelude.{List, ℕ};

    ghost Value = { List ℕ };

    ghost use Rattle.aseba_words.specs.Names.{shown, FitsRoom};

    ghost view = { λ name. shown name.held };

    ghost invariant = { λ name. FitsRoom name.held };
}

impl Debug for Name {
    fn fmt<W: Write>(&self, f: &mut Formatter<W>) -> fmt::Result {
        f.debug_struct("Name")
            .field("bytes", &self.as_bytes())
            .finish()
    }
}

impl PartialEq for Name {
    ghost use Rattle.std.specs.Prelude.{nat_eq};
    ghost use Rattle.std.specs.Cmp.Lexicographic.{pointwise};
    ghost use Rattle.std.proofs.Common.{rules};
    ghost use Rattle.std.specs.Cmp.Rules.{comparing};

    ghost eq = { λ a b. pointwise nat_eq a b };

    ghost laws = { Prim.search (comparing, rules) };

    fn eq(&self, other: &Name) -> bool {
        self.as_bytes() == other.as_bytes()
    }
}

impl Eq for Name {
    ghost use Rattle.std.proofs.Common.{rules};
    ghost use Rattle.std.specs.Cmp.Rules.{comparing};

    ghost laws = { Prim.search (comparing, rules) };
}

impl Hash for Name {
    ghost use Rattle.std.proofs.Common.{rules};
    ghost use Rattle.std.specs.Hash as fed;
    ghost use Rattle.std.specs.Cmp.Rules.{hashing};

    ghost hash_input = { λ a. fed.slice fed.u8 a };

    ghost respects_eq = { Prim.search (hashing, rules) };

    fn hash<H: Hasher>(&self, state: &mut H) {
        self.as_bytes().hash(state);
    }
}

impl Name {
    /// A name of these bytes, whatever they are. Up to 23 bytes take no memory.
    pub fn new(alloc: Global, bytes: &[u8]) -> Result<Name, Mem>
        ensures { IfOk result (λ name. name ≡ bytes.now) }
    {
        let held = match in_place(bytes) {
            Some(short) => Held::Short(short),
            None => Held::Long(BoxedSlice::from_slice(alloc, bytes)?),
        };
        Ok(Name { held })
    }

    /// The bytes. It takes no memory.
    pub fn as_bytes(&self) -> &[u8]
        ensures { result.now ≡ self.now }
    {
        match &self.held {
            Held::Short(short) => &short.bytes[..short.len as usize],
            Held::Long(bytes) => bytes.as_slice(),
        }
    }

    /// A name of the same bytes.
    pub fn copy(&self, alloc: Global) -> Result<Name, Mem>
        ensures { IfOk result (λ name. name ≡ self.now) }
    {
        Name::new(alloc, self.as_bytes())
    }
}

/// The bytes in place, if there is room for them.
fn in_place(bytes: &[u8]) -> Option<Short>
    ensures { IfSome result (λ short. (short.len ≤ 23) × (take short.len short.bytes ≡ bytes.now)) }
{
    if bytes.len() > ROOM {
        return None;
    }
    let mut room = [0; ROOM];
    room[..bytes.len()].copy_from_slice(bytes);
    Some(Short {
        len: bytes.len() as u8,
        bytes: room,
    })
}
