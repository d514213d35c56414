//! Whether a source keeps the rules of the language in its project, and how large its plain code is.
#![tactic(auto)]

mod calls;
mod checked;
mod checking;
mod counting;
mod declarations;
mod error;
mod expressions;
mod facts;
mod far;
mod fault;
mod layout;
mod order;
mod parts;
mod reach;
mod recursion;
mod rules;
mod sizes;
mod statements;
mod sub_calls;
mod table;
mod world;

pub use aseba_tree::Placed;
pub use checked::Checked;
pub use checking::check;
pub use counting::{Numbers, numbers};
pub use error::CheckError;
pub use parts::{native_places, sub_places};
pub use table::Table;
