//! The project that stands where none is named.
ghost use Rattle.std.specs.Prelude.{◌≡◌, [], ◌∷◌, ◌++◌, IfOk, OnOk, map};
ghost use Rattle.aseba_describe.specs.Defaults as spec;
ghost use Rattle.aseba_describe.specs.Grammar.{ProjectText};

use aseba_tree::{Description, Native, Param, Project, Sized};
use aseba_words::{List, Mem, Name};
use std::alloc::Global;

/// The default project: a node of 2048 words and 1024 cells with the natives of every node, and three
/// global events.
pub fn default_project(alloc: Global) -> Result<Project, Mem>
    ensures value { IfOk result (λ project. project ≡ spec.default_project) }
    ensures read { IfOk result (λ project. ProjectText spec.default_text project) }
{
    let node = default_node(alloc)?;
    let mut events = List::new(alloc);
    add_sized(alloc, &mut events, b"ping", 0)?;
    add_sized(alloc, &mut events, b"pong", 0)?;
    add_sized(alloc, &mut events, b"pair", 2)?;
    Ok(Project {
        node,
        id: 1,
        events,
        consts: List::new(alloc),
    })
}

/// The default project's natives are those that every node has, by their order and the sizes of
/// their parameters.
pub fn default_natives_are_known()
    ensures { spec.HasKnownNatives }
{}

fn default_node(alloc: Global) -> Result<Description, Mem>
    ensures { IfOk result (λ node. node ≡ spec.default_node) }
{
    let name = Name::new(alloc, b"sim")?;
    let variables = default_variables(alloc)?;
    let natives = default_natives(alloc)?;
    Ok(Description {
        name,
        code: 2048,
        stack: 64,
        cells: 1024,
        variables,
        locals: List::new(alloc),
        natives,
    })
}

fn default_variables(alloc: Global) -> Result<List<Sized>, Mem>
    ensures { IfOk result (λ variables. variables ≡ spec.default_variables) }
{
    let mut variables = List::new(alloc);
    add_sized(alloc, &mut variables, b"_id", 1)?;
    add_sized(alloc, &mut variables, b"event.source", 1)?;
    add_sized(alloc, &mut variables, b"event.args", 32)?;
    Ok(variables)
}

fn default_natives(alloc: Global) -> Result<List<Native>, Mem>
    ensures { IfOk result (λ natives. natives ≡ spec.default_natives) }
{
    let mut natives = List::new(alloc);
    cell_natives(alloc, &mut natives)?;
    sum_natives(alloc, &mut natives)?;
    choice_natives(alloc, &mut natives)?;
    range_natives(alloc, &mut natives)?;
    scan_natives(alloc, &mut natives)?;
    Ok(natives)
}

fn cell_natives(alloc: Global, natives: &mut List<Native>) -> Result<(), Mem>
    ensures { OnOk result (natives.new ≡ natives.old ++ spec.cell_natives) }
{
    let params: [(i16, &[u8]); 2] = [(-1, b"dest"), (-1, b"src")];
    add_native(alloc, natives, b"math.copy", b"copy", &params)?;
    let params: [(i16, &[u8]); 2] = [(-1, b"dest"), (1, b"value")];
    add_native(alloc, natives, b"math.fill", b"fill", &params)?;
    let params: [(i16, &[u8]); 3] = [(-1, b"dest"), (-1, b"src"), (1, b"scalar")];
    add_native(alloc, natives, b"math.addscalar", b"addscalar", &params)?;
    Ok(())
}

fn sum_natives(alloc: Global, natives: &mut List<Native>) -> Result<(), Mem>
    ensures { OnOk result (natives.new ≡ natives.old ++ spec.sum_natives) }
{
    let params: [(i16, &[u8]); 3] = [(-1, b"dest"), (-1, b"a"), (-1, b"b")];
    add_native(alloc, natives, b"math.add", b"add", &params)?;
    let params: [(i16, &[u8]); 3] = [(-1, b"dest"), (-1, b"a"), (-1, b"b")];
    add_native(alloc, natives, b"math.sub", b"sub", &params)?;
    let params: [(i16, &[u8]); 3] = [(-1, b"dest"), (-1, b"a"), (-1, b"b")];
    add_native(alloc, natives, b"math.mul", b"mul", &params)?;
    Ok(())
}

fn choice_natives(alloc: Global, natives: &mut List<Native>) -> Result<(), Mem>
    ensures { OnOk result (natives.new ≡ natives.old ++ spec.choice_natives) }
{
    let params: [(i16, &[u8]); 3] = [(-1, b"dest"), (-1, b"a"), (-1, b"b")];
    add_native(alloc, natives, b"math.div", b"div", &params)?;
    let params: [(i16, &[u8]); 3] = [(-1, b"dest"), (-1, b"a"), (-1, b"b")];
    add_native(alloc, natives, b"math.min", b"min", &params)?;
    let params: [(i16, &[u8]); 3] = [(-1, b"dest"), (-1, b"a"), (-1, b"b")];
    add_native(alloc, natives, b"math.max", b"max", &params)?;
    Ok(())
}

fn range_natives(alloc: Global, natives: &mut List<Native>) -> Result<(), Mem>
    ensures { OnOk result (natives.new ≡ natives.old ++ spec.range_natives) }
{
    let params: [(i16, &[u8]); 4] = [(-1, b"dest"), (-1, b"src"), (-1, b"low"), (-1, b"high")];
    add_native(alloc, natives, b"math.clamp", b"clamp", &params)?;
    let params: [(i16, &[u8]); 4] = [(1, b"dest"), (-1, b"a"), (-1, b"b"), (1, b"shift")];
    add_native(alloc, natives, b"math.dot", b"dot", &params)?;
    let params: [(i16, &[u8]); 4] = [(-1, b"dest"), (-1, b"a"), (-1, b"b"), (-1, b"c")];
    add_native(alloc, natives, b"math.muldiv", b"muldiv", &params)?;
    Ok(())
}

fn scan_natives(alloc: Global, natives: &mut List<Native>) -> Result<(), Mem>
    ensures { OnOk result (natives.new ≡ natives.old ++ spec.scan_natives) }
{
    let params: [(i16, &[u8]); 4] = [(-1, b"src"), (1, b"min"), (1, b"max"), (1, b"mean")];
    add_native(alloc, natives, b"math.stat", b"stat", &params)?;
    let params: [(i16, &[u8]); 3] = [(-1, b"src"), (1, b"argmin"), (1, b"argmax")];
    add_native(alloc, natives, b"math.argbounds", b"argbounds", &params)?;
    Ok(())
}

fn add_sized(alloc: Global, list: &mut List<Sized>, name: &[u8], size: u16) -> Result<(), Mem>
    ensures { OnOk result (list.new ≡ list.old ++ spec.sized name.now size ∷ []) }
{
    let name = Name::new(alloc, name)?;
    list.add(Sized { name, size })
}

/// Adds a native with parameters given by size and name: -1 for as many cells as the call says, 1 for
/// one.
fn add_native(
    alloc: Global,
    natives: &mut List<Native>,
    name: &[u8],
    text: &[u8],
    params: &[(i16, &[u8])],
) -> Result<(), Mem>
    ensures { OnOk result (natives.new ≡ natives.old ++ spec.native name.now text.now (map (λ p. spec.param p.0 p.1.now) params.now) ∷ []) }
{
    let name = Name::new(alloc, name)?;
    let text = Name::new(alloc, text)?;
    let params = params_of(alloc, params)?;
    natives.add(Native { name, text, params })
}

fn params_of(alloc: Global, params: &[(i16, &[u8])]) -> Result<List<Param>, Mem>
    ensures { IfOk result (λ list. list ≡ map (λ p. spec.param p.0 p.1.now) params.now) }
{
    let mut list = List::new(alloc);
    for (size, name) in params {
        let name = Name::new(alloc, name)?;
        list.add(Param { size: *size, name })?;
    }
    Ok(list)
}
