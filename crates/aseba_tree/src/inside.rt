//! Whether descriptions and projects keep to the limits of nodes and networks.
ghost use Rattle.std.specs.Prelude.{IsTrue, ◌↔◌, ◌≡◌, ◌≤◌, ◌<◌, length, All, sum_by};
ghost use Rattle.aseba_tree.specs.Inside.{IsShort, IsFrom, IsUpTo, InsideSized, InsideLocal, InsideParam, InsideNative, InsideVariables, InsideDescription, InsideConst, InsideProject, native_message_len, param_message_len, named_cells};

use crate::description::{Description, Local, Native, Param, Sized};
use crate::project::{Const, Project};
use aseba_words::{
    LEAST_CODE, MOST_CELLS, MOST_CODE, MOST_CONSTS, MOST_EVENT_CELLS, MOST_EVENTS, MOST_LOCALS,
    MOST_NAME_BYTES, MOST_NATIVE_BYTES, MOST_NATIVES, MOST_PARAMS, MOST_STACK, MOST_VARIABLES,
    Name,
};

impl Description {
    /// Whether its numbers, sizes and counts are those of a node that can be built, its named
    /// variables fit into its cells, and each native can be told of in one message. Which bytes a
    /// name holds isn't tested. It takes no memory.
    pub fn inside(&self) -> bool
        ensures { IsTrue result ↔ InsideDescription self.now }
    {
        is_short(&self.name)
            && is_from(LEAST_CODE, MOST_CODE, self.code)
            && is_from(1, MOST_STACK, self.stack)
            && is_from(1, MOST_CELLS, self.cells)
            && are_variables(self.cells, self.variables.as_slice())
            && are_locals(self.locals.as_slice())
            && are_natives(self.natives.as_slice())
    }
}

impl Project {
    /// Whether its node is inside, and its events and constants are few and short enough. Neither
    /// the id nor the bytes of names are tested. It takes no memory.
    pub fn inside(&self) -> bool
        ensures { IsTrue result ↔ InsideProject self.now }
    {
        self.node.inside()
            && are_sized(MOST_EVENTS, 0, MOST_EVENT_CELLS, self.events.as_slice())
            && are_consts(self.consts.as_slice())
    }
}

fn are_variables(cells: u16, variables: &[Sized]) -> bool
    ensures { IsTrue result ↔ InsideVariables cells variables.now }
{
    are_sized(MOST_VARIABLES, 1, MOST_CELLS, variables) && cells_of(variables) <= u32::from(cells)
}

/// The cells of the named variables together.
fn cells_of(variables: &[Sized]) -> u32
    requires { length variables.now ≤ MOST_VARIABLES }
    ensures { result ≡ named_cells variables.now }
{
    let mut cells = 0;
    for variable in variables {
        cells += u32::from(variable.size);
    }
    cells
}

fn are_sized(most: usize, least_size: u16, most_size: u16, items: &[Sized]) -> bool
    ensures { IsTrue result ↔ IsUpTo most (InsideSized least_size most_size) items.now }
{
    items.len() <= most
        && items
            .iter()
            .all(|item| item.is_inside(least_size, most_size))
}

fn are_locals(locals: &[Local]) -> bool
    ensures { IsTrue result ↔ IsUpTo MOST_LOCALS InsideLocal locals.now }
{
    locals.len() <= MOST_LOCALS && locals.iter().all(|local| local.is_inside())
}

fn are_natives(natives: &[Native]) -> bool
    ensures { IsTrue result ↔ IsUpTo MOST_NATIVES InsideNative natives.now }
{
    natives.len() <= MOST_NATIVES && natives.iter().all(|native| native.is_inside())
}

fn are_params(params: &[Param]) -> bool
    ensures { IsTrue result ↔ IsUpTo MOST_PARAMS InsideParam params.now }
{
    params.len() <= MOST_PARAMS && params.iter().all(|param| param.is_inside())
}

fn are_consts(consts: &[Const]) -> bool
    ensures { IsTrue result ↔ IsUpTo MOST_CONSTS InsideConst consts.now }
{
    consts.len() <= MOST_CONSTS && consts.iter().all(|constant| constant.is_inside())
}

impl Sized {
    fn is_inside(&self, least: u16, most: u16) -> bool
        ensures { IsTrue result ↔ InsideSized least most self.now }
    {
        is_short(&self.name) && is_from(least, most, self.size)
    }
}

impl Local {
    fn is_inside(&self) -> bool
        ensures { IsTrue result ↔ InsideLocal self.now }
    {
        is_short(&self.name) && is_short(&self.text)
    }
}

impl Param {
    fn is_inside(&self) -> bool
        ensures { IsTrue result ↔ InsideParam self.now }
    {
        is_short(&self.name) && self.size != 0
    }
}

impl Native {
    fn is_inside(&self) -> bool
        ensures { IsTrue result ↔ InsideNative self.now }
    {
        is_short(&self.name)
            && is_short(&self.text)
            && are_params(self.params.as_slice())
            && self.message_len() <= MOST_NATIVE_BYTES
    }

    /// How many bytes the message takes by which a node tells of this native.
    fn message_len(&self) -> usize
        requires name { IsShort self.now.name }
        requires text { IsShort self.now.text }
        requires params { IsUpTo MOST_PARAMS InsideParam self.now.params }
        ensures { result ≡ native_message_len self.now }
    {
        let mut params = 0;
        for param in self.params.as_slice() {
            params += 2 + 1 + param.name.as_bytes().len();
        }
        1 + self.name.as_bytes().len() + 1 + self.text.as_bytes().len() + 2 + params
    }
}

impl Const {
    fn is_inside(&self) -> bool
        ensures { IsTrue result ↔ InsideConst self.now }
    {
        is_short(&self.name)
    }
}

/// Whether a name or a text is no longer than the byte that tells its length can say.
fn is_short(text: &Name) -> bool
    ensures { IsTrue result ↔ IsShort text.now }
{
    text.as_bytes().len() <= MOST_NAME_BYTES
}

fn is_from(least: u16, most: u16, number: u16) -> bool
    ensures { IsTrue result ↔ IsFrom least most number }
{
    least <= number && number <= most
}
