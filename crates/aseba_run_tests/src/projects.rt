//! Runs on the nodes of projects that are files.
use crate::scripts::{Outcome, file, ran_words};
use aseba_words::{List, Mem};
use std::alloc::Global;
use std::test::Fail;

/// The natives of the default project.
const NATIVES: &str = "native math.copy -1 dest -1 src ; copy
native math.fill -1 dest 1 value ; fill
native math.addscalar -1 dest -1 src 1 scalar ; addscalar
native math.add -1 dest -1 a -1 b ; add
native math.sub -1 dest -1 a -1 b ; sub
native math.mul -1 dest -1 a -1 b ; mul
native math.div -1 dest -1 a -1 b ; div
native math.min -1 dest -1 a -1 b ; min
native math.max -1 dest -1 a -1 b ; max
native math.clamp -1 dest -1 src -1 low -1 high ; clamp
native math.dot 1 dest -1 a -1 b 1 shift ; dot
native math.muldiv -1 dest -1 a -1 b -1 c ; muldiv
native math.stat -1 src 1 min 1 max 1 mean ; stat
native math.argbounds -1 src 1 argmin 1 argmax ; argbounds
";

/// What stands behind the number of words in the default project's text, up to the natives, and
/// behind them.
const NODE: &str = "vars 1024
stack 64
id 1
variable _id 1
variable event.source 1
variable event.args 32
";

const EVENTS: &str = "event ping 0
event pong 0
event pair 2
";

/// Runs `sim` on a project `p` over a source for so many ticks, with a script `s` that may stay
/// unnamed among the words.
fn ran_on(alloc: Global, words: &[&str], project: &str, source: &str) -> Result<Outcome, Mem> {
    let mut files = Vec::new(alloc);
    files.push(file(alloc, b"p", project.as_bytes())?)?;
    files.push(file(alloc, b"x.aseba", source.as_bytes())?)?;
    files.push(file(alloc, b"s", SCRIPT.as_bytes())?)?;
    ran_words(alloc, words, List::from_vec(files), 30_000)
}

#[test]
fn the_default_project_as_a_file(rt: HostRuntime) -> Result<(), Fail> {
    let project = format!(in rt.alloc(); "node sim\ncode 2048\n{NODE}{NATIVES}{EVENTS}")?;
    let words = ["sim", "p", "x.aseba", "10"];
    let ran = ran_on(rt.alloc(), &words, &project, "var x = 1\nx = x + 1\n")?;
    assert_eq!(rt; ran.number, 0);
    assert_eq!(rt;
        ran.out.bytes(),
        b"code 0003 ffff 0003 1001 4022 3022 1001 8002 4022 0000\nvar x 2\nend 10 3\n".as_slice()
    );
    assert_eq!(rt; ran.err.bytes(), b"".as_slice());
    Ok(())
}

/// The lines of a first part, of so many equal ones, and of a last part.
fn text_of(
    alloc: Global,
    first: &str,
    line: &str,
    times: usize,
    last: &str,
) -> Result<String, Mem> {
    let mut text = String::from_str(alloc, first)?;
    for _ in 0..times {
        text.push_str(line)?;
    }
    text.push_str(last)?;
    Ok(text)
}

#[test]
fn what_a_large_node_takes(rt: HostRuntime) -> Result<(), Fail> {
    let alloc = rt.alloc();
    let project = format!(in alloc; "node sim\ncode 32767\n{NODE}{NATIVES}{EVENTS}")?;
    let words = ["sim", "p", "x.aseba", "0"];
    // The event table takes 3 words, each store of a small number 2, and a return 1.
    let near = text_of(alloc, "var x\nsub a\n", "x = 1\n", 2045, "sub b\n")?;
    let ran = ran_on(alloc, &words, &project, &near)?;
    assert_eq!(rt; ran.number, 0);
    let far = text_of(alloc, "var x\nsub a\n", "x = 1\n", 2046, "sub b\n")?;
    let ran = ran_on(alloc, &words, &project, &far)?;
    assert_eq!(rt; ran.number, 4);
    assert_eq!(rt;
        ran.err.bytes(),
        b"aseba: refused 2049:5 SubroutineFar start 4096\n".as_slice()
    );
    // On a node of 2048 words this is one word too many.
    let many = text_of(alloc, "var x\n", "x = 1\n", 1021, "x = 2048\n")?;
    let ran = ran_on(alloc, &words, &project, &many)?;
    assert_eq!(rt; ran.number, 0);
    Ok(())
}

const ROBOT: &str = "node robot
code 2048
vars 620
stack 32
id 3
variable _id 1
variable event.source 1
variable event.args 32
variable prox.horizontal 7
variable motor.left.target 1
variable motor.right.target 1
variable timer.period 2
local prox new distances
local timer0 first timer
local button.center button
";

const ROBOT_EVENTS: &str = "event alive 2
const LIMIT 2000
";

const AVOIDING: &str = "# keeps a robot away from obstacles
var wl[7] = [1, 2, 3, -2, -1, 1, 1]
var wr[7] = [-1, -2, -3, 2, 1, 1, 1]
var speed = 200
var left
var right
var i
var near
var turns
var state = 1
timer.period[0] = 100
onevent button.center
state = 1 - state
onevent prox
near = 0
for i in 0:6 do
if prox.horizontal[i] > LIMIT then
near++
end
end
call math.dot(left, prox.horizontal, wl, 6)
call math.dot(right, prox.horizontal, wr, 6)
when near > 0 do
turns++
end
if state == 1 then
motor.left.target = speed + left
motor.right.target = speed + right
callsub clip
else
motor.left.target = 0
motor.right.target = 0
end
onevent timer0
emit alive [near, turns]
sub clip
if motor.left.target > 300 then
motor.left.target = 300
elseif motor.left.target < -300 then
motor.left.target = -300
end
if motor.right.target > 300 then
motor.right.target = 300
elseif motor.right.target < -300 then
motor.right.target = -300
end
";

const SCRIPT: &str = "100 event prox
600 set prox.horizontal 0 0 0 3000 0 0 0 0
601 event prox
1200 event timer0
1500 event button.center
1600 event prox
";

const TOLD: &str = "100 18 event prox
600 63 set prox.horizontal
601 63 event prox
1200 111 event timer0
1204 112 emit alive 1 1
1500 113 event button.center
1600 115 event prox
var wl 1 2 3 -2 -1 1 1
var wr -1 -2 -3 2 1 1 1
var speed 200
var left 140
var right -141
var i 7
var near 1
var turns 1
var state 0
end 2000 154
";

/// What stands behind the first line of a text.
fn behind_first_line(text: &[u8]) -> &[u8] {
    match text.iter().position(|byte| *byte == b'\n') {
        Some(place) => text.get(place + 1..).unwrap_or(b""),
        None => b"",
    }
}

#[test]
fn a_robot_keeps_away_from_obstacles(rt: HostRuntime) -> Result<(), Fail> {
    let project = format!(in rt.alloc(); "{ROBOT}{NATIVES}{ROBOT_EVENTS}")?;
    let words = ["sim", "p", "x.aseba", "2000", "--script", "s"];
    let ran = ran_on(rt.alloc(), &words, &project, AVOIDING)?;
    assert_eq!(rt; ran.number, 0);
    assert_eq!(rt; behind_first_line(ran.out.bytes()), TOLD.as_bytes());
    assert_eq!(rt; ran.err.bytes(), b"".as_slice());
    Ok(())
}

/// A node with one native, which isn't the machine's first.
const OTHER_NATIVE: &str = "node n
code 100
vars 10
stack 4
id 1
native math.fill -1 dest 1 value ; fill
";

#[test]
fn words_are_made_for_natives_that_the_machine_lacks(rt: HostRuntime) -> Result<(), Fail> {
    let source = "var a[2]\nvar v\ncall math.fill(a, v)\n";
    let made = ran_on(
        rt.alloc(),
        &["compile", "p", "x.aseba"],
        OTHER_NATIVE,
        source,
    )?;
    assert_eq!(rt; made.number, 0);
    assert_eq!(rt;
        made.out.bytes(),
        b"code 0003 ffff 0003 2000 0000 2000 0002 1002 c000 0000\n".as_slice()
    );
    assert_eq!(rt; made.err.bytes(), b"".as_slice());
    let ran = ran_on(
        rt.alloc(),
        &["sim", "p", "x.aseba", "5"],
        OTHER_NATIVE,
        source,
    )?;
    assert_eq!(rt; ran.number, 5);
    assert_eq!(rt; ran.out.bytes(), b"".as_slice());
    assert_eq!(rt; ran.err.bytes(), b"aseba: project line 6\n".as_slice());
    Ok(())
}
