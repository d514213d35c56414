//! How much a node, a project and their names may measure. Code and definitions both go by these.

/// The fewest words of code that a node has.
pub const LEAST_CODE: u16 = 4;

/// The most words of code that a node has.
pub const MOST_CODE: u16 = 32767;

/// The most cells that the stack of a node has.
pub const MOST_STACK: u16 = 1024;

/// The most cells that a node has, and so the most that a variable or the length of a native's
/// call has.
pub const MOST_CELLS: u16 = 4096;

/// The most cells that an event takes along.
pub const MOST_EVENT_CELLS: u16 = 256;

/// The most named variables of a node.
pub const MOST_VARIABLES: usize = 256;

/// The most local events of a node.
pub const MOST_LOCALS: usize = 64;

/// The most natives of a node.
pub const MOST_NATIVES: usize = 64;

/// The most parameters of a native.
pub const MOST_PARAMS: usize = 16;

/// The most global events of a project.
pub const MOST_EVENTS: usize = 256;

/// The most constants of a project.
pub const MOST_CONSTS: usize = 512;

/// The most bytes of a name or a text: what the byte that tells its length in a message can say.
pub const MOST_NAME_BYTES: usize = 255;

/// The most bytes of the message by which a node tells of a native.
pub const MOST_NATIVE_BYTES: usize = 512;
