//! The element forms of sources, worked by hand.
use crate::checked::checked_in;
use crate::element_text::core_text;
use aseba_describe::default_project;
use aseba_expand::{ExpandError, expand};
use aseba_tree::Core;
use std::alloc::Global;
use std::process::Abort;
use std::test::Fail;

/// What `expand` gives for a sound source of the default project.
fn expanded(alloc: Global, text: &str) -> Result<Result<Core, ExpandError>, Fail> {
    let project = default_project(alloc)?;
    if !project.inside() {
        return Err(Fail::from("not inside"));
    }
    let checked = checked_in(alloc, text.as_bytes(), &project)?;
    Ok(expand(alloc, &checked, &project))
}

/// Each source has the element form of its text.
fn all_expand(alloc: Global, rt: &impl Abort, rows: &[(&str, &str)]) -> Result<(), Fail> {
    for (source, want) in rows {
        let Ok(core) = expanded(alloc, *source)? else {
            return Err(Fail::from("refused"));
        };
        assert_eq!(rt; core_text(alloc, &core)?.as_str(), *want, "{source}");
    }
    Ok(())
}

#[test]
fn a_vector_is_computed_whole_before_it_is_stored(rt: HostRuntime) -> Result<(), Fail> {
    let Ok(core) = expanded(rt.alloc(), "var a[2] = [1,2]")? else {
        return Err(Fail::from("refused"));
    };
    let numbers = (core.cells, core.room, core.size, core.depth);
    assert_eq!(rt; numbers, (36, 2, 12, 1));
    let stores = "1 @36 = 1\n1 @37 = 2\n1 @34 = @36\n1 @35 = @37\n";
    assert_eq!(rt; core_text(rt.alloc(), &core)?.as_str(), stores);
    Ok(())
}

#[test]
fn temporaries_need_cells_beside_the_variables(rt: HostRuntime) -> Result<(), Fail> {
    let answer = expanded(rt.alloc(), "var a[990]\na[1:989] = a[0:988]")?;
    let full = ExpandError::VariablesFull {
        need: 2013,
        have: 1024,
    };
    assert_eq!(rt; answer.err(), Some(full));
    Ok(())
}

// In the sources below `a` has the cells 34 to 37, `b` has 38 and 39, `i` has 40, and the
// temporaries begin at 41.

const TARGETS: &[(&str, &str)] = &[
    ("var a[4] var b[2] var i\ni = a[2]", "2 @40 = @34:4[2]\n"),
    (
        "var a[4] var b[2] var i\na[i] += i",
        "2 @34:4[@40] = Add(@34:4[@40], @40)\n",
    ),
    (
        "var a[4] var b[2] var i\na[0:1] = a[2:3] - b",
        "2 @41 = Sub(@36, @38)\n2 @42 = Sub(@37, @39)\n2 @34 = @41\n2 @35 = @42\n",
    ),
    (
        "var a[4] var b[2] var i\nb++",
        "2 @41 = Add(@38, 1)\n2 @42 = Add(@39, 1)\n2 @38 = @41\n2 @39 = @42\n",
    ),
];

#[test]
fn targets_name_their_cells(rt: HostRuntime) -> Result<(), Fail> {
    all_expand(rt.alloc(), &rt, TARGETS)
}

const ARGUMENTS: &[(&str, &str)] = &[
    ("emit ping", "1 emit 0 0 0\n"),
    ("var a[4] var b[2] var i\nemit pair b", "2 emit 2 38 2\n"),
    (
        "var a[4] var b[2] var i\nemit pair a[1:2]",
        "2 emit 2 35 2\n",
    ),
    (
        "var a[4] var b[2] var i\nemit pair [1, i]",
        "2 @41 = 1\n2 @42 = @40\n2 emit 2 41 2\n",
    ),
    (
        "var a[4] var b[2] var i\ncall math.muldiv(a[1:2], b, [3, b[i]], a[2:3] + b)",
        "2 @41 = 3\n2 @42 = @38:2[@40]\n2 @43 = Add(@36, @38)\n2 @44 = Add(@37, @39)\n2 call 11 35 38 41 43 2\n",
    ),
];

#[test]
fn arguments_are_cells_of_their_own_or_temporaries(rt: HostRuntime) -> Result<(), Fail> {
    all_expand(rt.alloc(), &rt, ARGUMENTS)
}

const BLOCKS: &[(&str, &str)] = &[
    (
        "var a[4] var b[2] var i\nif i == 1 then\ni = 2\nelseif i then\ni = 3\nelse\ni = 4\nend",
        "2 if Equal(@40, 1)\n3 @40 = 2\nelse\n4 if @40\n5 @40 = 3\nelse\n7 @40 = 4\nend\nend\n",
    ),
    (
        "var a[4] var b[2] var i\nwhen i > b[1] do\nemit ping\nend",
        "2 when Above(@40, @38:2[1])\n3 emit 0 0 0\nend\n",
    ),
    (
        "var a[4] var b[2] var i\nwhile not i do\ni--\nend",
        "2 while Not(@40)\n3 @40 = Sub(@40, 1)\nend\n",
    ),
    (
        "var a[4] var b[2] var i\nfor i in 2:-1 step -3 do\nb[0] = i\nend",
        "2 @40 = 2\n2 while AtLeast(@40, -1)\n3 @38:2[0] = @40\n2 @40 = Add(@40, -3)\nend\n",
    ),
    (
        "callsub s\nonevent pong\nreturn\nsub s\nemit ping",
        "1 callsub 1\n2 onevent 1\n3 return\n4 sub\n5 emit 0 0 0\n",
    ),
];

#[test]
fn blocks_and_parts_hold_what_is_inside_them(rt: HostRuntime) -> Result<(), Fail> {
    all_expand(rt.alloc(), &rt, BLOCKS)
}
