//! What every other crate stands on: the arithmetic of 16-bit cells, the table of the native
//! functions, and the small types that contracts see as plain data.
#![tactic(auto)]

mod arithmetic;
mod bytes;
mod limits;
mod list;
mod mem;
mod name;
mod native;
mod operators;

pub use arithmetic::{binary, unary, wrap};
pub use bytes::{begins_name, continues_name, is_blank, is_digit, is_name_like, is_within};
pub use limits::{
    LEAST_CODE, MOST_CELLS, MOST_CODE, MOST_CONSTS, MOST_EVENT_CELLS, MOST_EVENTS, MOST_LOCALS,
    MOST_NAME_BYTES, MOST_NATIVE_BYTES, MOST_NATIVES, MOST_PARAMS, MOST_STACK, MOST_VARIABLES,
};
pub use list::List;
pub use mem::Mem;
pub use name::Name;
pub use native::{Native, TEMPLATE};
pub use operators::{Binary, Unary};
