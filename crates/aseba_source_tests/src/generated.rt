//! The words of element forms by hand, with the line of each. An element form is written as its text;
//! the source beside it is there to make it.
ghost use Rattle.std.specs.Prelude.{IfOk};
ghost use Rattle.aseba_tree.specs.CoreShape.{IsCore};
ghost use Rattle.aseba_tree.specs.Inside.{InsideProject};
ghost use Rattle.aseba_tree.specs.View.{core_view, project_view};

use crate::checked::checked_in;
use crate::element_text::core_text;
use aseba_codegen::{Image, generate};
use aseba_describe::default_project;
use aseba_expand::expand;
use aseba_tree::{Core, Project};
use std::alloc::Global;
use std::process::Abort;
use std::test::Fail;

/// An element form with its words, and the line of each word.
struct Row {
    source: &'static str,
    form: &'static str,
    words: &'static [u16],
    lines: &'static [u32],
}

/// The element form of a source.
fn core_of(alloc: Global, source: &str, project: &Project) -> Result<Core, Fail>
    requires { InsideProject project.now }
    ensures { IfOk result (λ core. IsCore (project_view project.now) (core_view core)) }
{
    let checked = checked_in(alloc, source.as_bytes(), project)?;
    Ok(expand(alloc, &checked, project)?)
}

/// The code of an element form, which is that of its source, on a node of so many words.
fn image_of(alloc: Global, source: &str, form: &str, words: u16) -> Result<Image, Fail> {
    let mut project = default_project(alloc)?;
    project.node.code = words;
    if !project.inside() {
        return Err(Fail::from("not inside"));
    }
    let core = core_of(alloc, source, &project)?;
    if core_text(alloc, &core)?.as_str() != form {
        return Err(Fail::from("the source has another element form"));
    }
    Ok(generate(alloc, &core, &project)?)
}

/// On a node of so many words, the element form of a row has its words and lines.
fn is_generated(alloc: Global, rt: &impl Abort, words: u16, row: &Row) -> Result<(), Fail> {
    let image = image_of(alloc, row.source, row.form, words)?;
    assert_eq!(rt; image.words.as_slice(), row.words);
    assert_eq!(rt; image.lines.as_slice(), row.lines);
    Ok(())
}

const BRANCHES: Row = Row {
    source: "var x\nif x < 1 then\nx = 5\nelse\nx = 7\nend\nif x then\nx = 9\nend",
    form: "2 if Below(@34, 1)\n3 @34 = 5\nelse\n5 @34 = 7\nend\n7 if @34\n8 @34 = 9\nelse\nend\n",
    words: &[
        0x0003, 0xffff, 0x0003, 0x3022, 0x1001, 0xa00e, 0x0005, 0x1005, 0x4022, 0x9003, 0x1007,
        0x4022, 0x3022, 0x1000, 0xa00b, 0x0004, 0x1009, 0x4022, 0x0000,
    ],
    lines: &[0, 0, 0, 2, 2, 2, 2, 3, 3, 2, 5, 5, 7, 7, 7, 7, 8, 8, 1],
};

#[test]
fn an_else_is_left_out_by_a_jump(rt: HostRuntime) -> Result<(), Fail> {
    is_generated(rt.alloc(), &rt, 64, &BRANCHES)
}

const LOOPS: Row = Row {
    source: "var x var y\nwhile x < 2 do\nwhile y < 1 do\ny = y + 1\nend\nx = x + 1\nend",
    form: "2 while Below(@34, 2)\n3 while Below(@35, 1)\n4 @35 = Add(@35, 1)\nend\n6 @34 = Add(@34, 1)\nend\n",
    words: &[
        0x0003, 0xffff, 0x0003, 0x3022, 0x1002, 0xa00e, 0x0010, 0x3023, 0x1001, 0xa00e, 0x0007,
        0x3023, 0x1001, 0x8002, 0x4023, 0x9ff8, 0x3022, 0x1001, 0x8002, 0x4022, 0x9fef, 0x0000,
    ],
    lines: &[
        0, 0, 0, 2, 2, 2, 2, 3, 3, 3, 3, 4, 4, 4, 4, 3, 6, 6, 6, 6, 2, 1,
    ],
};

#[test]
fn a_loop_goes_back_to_its_test(rt: HostRuntime) -> Result<(), Fail> {
    is_generated(rt.alloc(), &rt, 64, &LOOPS)
}

const SUBROUTINES: Row = Row {
    source: "var x\n\nonevent ping\ncallsub s\n\nonevent pong\ncallsub s\n\nsub s\nwhen event.source == 1 do\nx += 1\nend\ncallsub t\n\nsub t\nif x == 1 then\nreturn\nend\nx += 8",
    form: "3 onevent 0\n4 callsub 2\n6 onevent 1\n7 callsub 2\n9 sub\n10 when Equal(@1, 1)\n11 @34 = Add(@34, 1)\nend\n13 callsub 3\n15 sub\n16 if Equal(@34, 1)\n17 return\nelse\nend\n19 @34 = Add(@34, 8)\n",
    words: &[
        0x0007, 0xffff, 0x0007, 0x0000, 0x0008, 0x0001, 0x000a, 0x0000, 0xd00c, 0x0000, 0xd00c,
        0x0000, 0x3001, 0x1001, 0xa10a, 0x0006, 0x3022, 0x1001, 0x8002, 0x4022, 0xd016, 0xe000,
        0x3022, 0x1001, 0xa00a, 0x0003, 0xe000, 0x3022, 0x1008, 0x8002, 0x4022, 0xe000,
    ],
    lines: &[
        0, 0, 0, 0, 0, 0, 0, 1, 4, 3, 7, 6, 10, 10, 10, 10, 11, 11, 11, 11, 13, 9, 16, 16, 16, 16,
        17, 19, 19, 19, 19, 15,
    ],
};

#[test]
fn subroutines_are_called_from_where_they_are_named(rt: HostRuntime) -> Result<(), Fail> {
    is_generated(rt.alloc(), &rt, 64, &SUBROUTINES)
}

const NATIVE: Row = Row {
    source: "var d\nvar a = 6\nvar b\ncall math.div(d, a, b)",
    form: "2 @35 = 6\n4 call 6 34 35 36 1\n",
    words: &[
        0x0003, 0xffff, 0x0003, 0x1006, 0x4023, 0x2000, 0x0022, 0x2000, 0x0023, 0x2000, 0x0024,
        0x1001, 0xc006, 0x0000,
    ],
    lines: &[0, 0, 0, 2, 2, 4, 4, 4, 4, 4, 4, 4, 4, 1],
};

#[test]
fn a_native_takes_addresses_and_then_a_length(rt: HostRuntime) -> Result<(), Fail> {
    is_generated(rt.alloc(), &rt, 64, &NATIVE)
}

const FAR: Row = Row {
    source: "var x\nwhile x < 1 do\nif x == 0 then\nx = 1\nelse\nx = 5\nend\nend",
    form: "2 while Below(@34, 1)\n3 if Equal(@34, 0)\n4 @34 = 1\nelse\n6 @34 = 5\nend\nend\n",
    words: &[
        0x0003, 0xffff, 0x0003, 0x3022, 0x1001, 0xa00e, 0x0012, 0x3022, 0x1000, 0xa00a, 0x0008,
        0x1001, 0x4022, 0x1000, 0x1000, 0xa00b, 0x0004, 0x1005, 0x4022, 0x1000, 0x1000, 0xa00b,
        0xffee, 0x0000,
    ],
    lines: &[
        0, 0, 0, 2, 2, 2, 2, 3, 3, 3, 3, 4, 4, 3, 3, 3, 3, 6, 6, 2, 2, 2, 2, 1,
    ],
};

#[test]
fn jumps_of_a_large_project_are_branches(rt: HostRuntime) -> Result<(), Fail> {
    is_generated(rt.alloc(), &rt, 4096, &FAR)
}
