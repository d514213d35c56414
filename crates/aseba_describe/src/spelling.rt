//! A project as a text.
ghost use Rattle.std.specs.Prelude.{◌≡◌, ◌++◌, codes, decimal, flat_map, IfOk, OnOk};
ghost use Rattle.std.specs.Fmt.{signed_decimal};
ghost use Rattle.aseba_describe.specs.Grammar.{ProjectText};
ghost use Rattle.aseba_describe.specs.Plain.{IsPlain};
ghost use Rattle.aseba_describe.specs.Spelling.{param_text, sized_line, local_line, native_line, const_line, node_entries, entry_line, project_text};

use aseba_text::Text;
use aseba_tree::{Const, Local, Native, Param, Project, Sized};
use aseba_words::{List, Mem};
use std::alloc::Global;

/// The one spelling of a project. Nothing in it is skipped when it is read.
pub fn write_project(alloc: Global, project: &Project) -> Result<List<u8>, Mem>
    requires { IsPlain project.now }
    ensures written { IfOk result (λ text. text ≡ project_text project.now) }
    ensures read { IfOk result (λ text. ProjectText text project.now) }
{
    let mut out = Text::new(alloc);
    put_node(&mut out, project)?;
    put_all_sized(&mut out, b"variable ", project.node.variables.as_slice())?;
    put_locals(&mut out, project.node.locals.as_slice())?;
    put_natives(&mut out, project.node.natives.as_slice())?;
    put_all_sized(&mut out, b"event ", project.events.as_slice())?;
    put_consts(&mut out, project.consts.as_slice())?;
    Ok(out.into_bytes())
}

/// A line of a number behind a word.
fn put_field(out: &mut Text, word: &[u8], number: u16) -> Result<(), Mem>
    ensures { OnOk result (out.new ≡ out.old ++ (word.now ++ decimal number ++ codes "\n")) }
{
    out.push(word)?;
    out.push_number(u64::from(number))?;
    out.push(b"\n")
}

fn put_node(out: &mut Text, project: &Project) -> Result<(), Mem>
    ensures { OnOk result (out.new ≡ out.old ++ flat_map entry_line (node_entries project.now)) }
{
    out.push(b"node ")?;
    out.push(project.node.name.as_bytes())?;
    out.push(b"\n")?;
    put_field(out, b"code ", project.node.code)?;
    put_field(out, b"vars ", project.node.cells)?;
    put_field(out, b"stack ", project.node.stack)?;
    put_field(out, b"id ", project.id)
}

fn put_sized(out: &mut Text, word: &[u8], sized: &Sized) -> Result<(), Mem>
    ensures { OnOk result (out.new ≡ out.old ++ sized_line word.now sized.now) }
{
    out.push(word)?;
    out.push(sized.name.as_bytes())?;
    out.push(b" ")?;
    out.push_number(u64::from(sized.size))?;
    out.push(b"\n")
}

fn put_local(out: &mut Text, local: &Local) -> Result<(), Mem>
    ensures { OnOk result (out.new ≡ out.old ++ local_line local.now) }
{
    out.push(b"local ")?;
    out.push(local.name.as_bytes())?;
    out.push(b" ")?;
    out.push(local.text.as_bytes())?;
    out.push(b"\n")
}

fn put_param(out: &mut Text, param: &Param) -> Result<(), Mem>
    ensures { OnOk result (out.new ≡ out.old ++ param_text param.now) }
{
    out.push(b" ")?;
    out.push_cell(param.size)?;
    out.push(b" ")?;
    out.push(param.name.as_bytes())
}

fn put_params(out: &mut Text, params: &[Param]) -> Result<(), Mem>
    ensures { OnOk result (out.new ≡ out.old ++ flat_map param_text params.now) }
{
    for param in params {
        put_param(out, param)?;
    }
    Ok(())
}

fn put_native(out: &mut Text, native: &Native) -> Result<(), Mem>
    ensures { OnOk result (out.new ≡ out.old ++ native_line native.now) }
{
    out.push(b"native ")?;
    out.push(native.name.as_bytes())?;
    put_params(out, native.params.as_slice())?;
    out.push(b" ; ")?;
    out.push(native.text.as_bytes())?;
    out.push(b"\n")
}

fn put_const(out: &mut Text, constant: &Const) -> Result<(), Mem>
    ensures { OnOk result (out.new ≡ out.old ++ const_line constant.now) }
{
    out.push(b"const ")?;
    out.push(constant.name.as_bytes())?;
    out.push(b" ")?;
    out.push_cell(constant.value)?;
    out.push(b"\n")
}

fn put_all_sized(out: &mut Text, word: &[u8], items: &[Sized]) -> Result<(), Mem>
    ensures { OnOk result (out.new ≡ out.old ++ flat_map (sized_line word.now) items.now) }
{
    for item in items {
        put_sized(out, word, item)?;
    }
    Ok(())
}

fn put_locals(out: &mut Text, locals: &[Local]) -> Result<(), Mem>
    ensures { OnOk result (out.new ≡ out.old ++ flat_map local_line locals.now) }
{
    for local in locals {
        put_local(out, local)?;
    }
    Ok(())
}

fn put_natives(out: &mut Text, natives: &[Native]) -> Result<(), Mem>
    ensures { OnOk result (out.new ≡ out.old ++ flat_map native_line natives.now) }
{
    for native in natives {
        put_native(out, native)?;
    }
    Ok(())
}

fn put_consts(out: &mut Text, consts: &[Const]) -> Result<(), Mem>
    ensures { OnOk result (out.new ≡ out.old ++ flat_map const_line consts.now) }
{
    for constant in consts {
        put_const(out, constant)?;
    }
    Ok(())
}
