//! Copies of payloads, field by field.
ghost use Rattle.std.specs.Prelude.{◌≡◌, IfOk};

use crate::payload::Payload;
use crate::rows::rows;
use aseba_tree::Param;
use aseba_words::{List, Mem};
use std::alloc::Global;

macro_rules! copied {
    (word $alloc:ident $field:ident) => {
        *$field
    };
    (text $alloc:ident $field:ident) => {
        $field.copy($alloc)?
    };
    (words $alloc:ident $field:ident) => {
        List::from_slice($alloc, $field.as_slice())?
    };
    (params $alloc:ident $field:ident) => {
        copy_params($alloc, $field)?
    };
}

macro_rules! copying {
    (($payload:ident $alloc:ident) $($number:literal $variant:ident { $($field:ident: $spelled:ident),* })*) => {
        match $payload {
            Payload::User { kind, words } => Ok(Payload::User {
                kind: *kind,
                words: copied!(words $alloc words),
            }),
            $(Payload::$variant { $($field),* } => {
                $(let $field = copied!($spelled $alloc $field);)*
                Ok(Payload::$variant { $($field),* })
            })*
        }
    };
}

impl Payload {
    /// A payload equal to this one.
    pub fn copy(&self, alloc: Global) -> Result<Payload, Mem>
        ensures { IfOk result (λ payload. payload ≡ self.now) }
    {
        rows!(copying(self alloc))
    }
}

fn copy_params(alloc: Global, params: &List<Param>) -> Result<List<Param>, Mem>
    ensures { IfOk result (λ copied. copied ≡ params.now) }
{
    let mut copied = Vec::new(alloc);
    for param in params.as_slice() {
        let copy = param.copy(alloc)?;
        copied.push(copy)?;
    }
    Ok(List::from_vec(copied))
}
