//! The element form of a source: names become addresses, and each statement the statements of one
//! cell that do what it does. The laws are functions with an empty body, so that a check proves what
//! they say.
#![tactic(auto)]

ghost use Rattle.aseba_expand.specs.Expands.{PlainExpands};
ghost use Rattle.aseba_expand.specs.Rows.{CallForm, DownForm, ForCore, IndexForm, ListEmitForm, OwnEmitForm, RangeForm, VectorCore};

mod arguments;
mod constants;
mod elements;
mod error;
mod expansion;
mod numbers;
mod scope;
mod statements;
mod stores;
mod tables;

pub use error::ExpandError;
pub use expansion::{expand, expand_counted};

/// The plain forms of small sources are those that were worked by hand.
pub fn worked_forms()
    ensures vector { VectorCore }
    ensures for_loop { ForCore }
    ensures range { RangeForm }
    ensures index { IndexForm }
    ensures own_emit { OwnEmitForm }
    ensures list_emit { ListEmitForm }
    ensures call { CallForm }
    ensures down { DownForm }
{}

/// The plain form of a sound source whose numbers are cells is an expansion of it where the node has
/// the cells for it: with each script of good events and writes it tells the same lines and shows the
/// same cells, held values, bits, flags and next lines, as long as only known natives are called; and
/// it can be turned into code and is no heavier.
pub fn plain_expands()
    ensures { PlainExpands }
{}
