use aseba_describe::{ProjectError, default_project, is_plain, read_project, write_project};
use std::alloc::Global;
use std::test::Fail;

/// The default project, as a reader of the project's description would write it.
const DEFAULT: &[u8] =
    b"node sim\ncode 2048\nvars 1024\nstack 64\nid 1\nvariable _id 1\nvariable event.source 1\nvariable event.args 32\nnative math.copy -1 dest -1 src ; copy\nnative math.fill -1 dest 1 value ; fill\nnative math.addscalar -1 dest -1 src 1 scalar ; addscalar\nnative math.add -1 dest -1 a -1 b ; add\nnative math.sub -1 dest -1 a -1 b ; sub\nnative math.mul -1 dest -1 a -1 b ; mul\nnative math.div -1 dest -1 a -1 b ; div\nnative math.min -1 dest -1 a -1 b ; min\nnative math.max -1 dest -1 a -1 b ; max\nnative math.clamp -1 dest -1 src -1 low -1 high ; clamp\nnative math.dot 1 dest -1 a -1 b 1 shift ; dot\nnative math.muldiv -1 dest -1 a -1 b -1 c ; muldiv\nnative math.stat -1 src 1 min 1 max 1 mean ; stat\nnative math.argbounds -1 src 1 argmin 1 argmax ; argbounds\nevent ping 0\nevent pong 0\nevent pair 2\n";

/// The text of the project that a text spells.
pub fn again(alloc: Global, text: &[u8]) -> Result<Vec<u8>, ProjectError> {
    let project = read_project(alloc, text)?;
    if !is_plain(&project) {
        return Err(ProjectError::Line { n: 0 });
    }
    let text = write_project(alloc, &project)?;
    Ok(text.into_vec())
}

#[test]
fn the_default_project_is_its_text(rt: HostRuntime) -> Result<(), Fail> {
    let project = default_project(rt.alloc())?;
    assert!(rt; is_plain(&project));
    assert!(rt; project.inside());
    let text = write_project(rt.alloc(), &project)?;
    assert_eq!(rt; text.as_slice(), DEFAULT);
    let text = again(rt.alloc(), DEFAULT)?;
    assert_eq!(rt; text.as_slice(), DEFAULT);
    Ok(())
}

#[test]
fn lines_that_say_nothing_are_skipped(rt: HostRuntime) -> Result<(), Fail> {
    let text =
        b"# a robot\r\nnode r\n\ncode 4\r\nvars 1\n#\nstack 1\nid 7\nlocal tick \nnative n ; \nconst K -32768\n\n";
    let plain =
        b"node r\ncode 4\nvars 1\nstack 1\nid 7\nlocal tick \nnative n ; \nconst K -32768\n";
    let written = again(rt.alloc(), text.as_slice())?;
    assert_eq!(rt; written.as_slice(), plain.as_slice());
    Ok(())
}

#[test]
fn the_last_line_may_lack_its_end(rt: HostRuntime) -> Result<(), Fail> {
    let written = again(
        rt.alloc(),
        b"node r\ncode 32767\nvars 4096\nstack 1024\nid 65535",
    )?;
    assert_eq!(rt;
        written.as_slice(),
        b"node r\ncode 32767\nvars 4096\nstack 1024\nid 65535\n".as_slice()
    );
    Ok(())
}

#[test]
fn sizes_may_be_at_their_limits(rt: HostRuntime) -> Result<(), Fail> {
    let text =
        b"node r\ncode 4\nvars 4096\nstack 1\nid 1\nvariable v 4096\nnative n -32768 a 32767 b ; \nevent e 256\nevent f 0\nconst c 32767\nconst d -32768\n";
    let written = again(rt.alloc(), text.as_slice())?;
    assert_eq!(rt; written.as_slice(), text.as_slice());
    Ok(())
}

#[test]
fn texts_keep_their_blanks(rt: HostRuntime) -> Result<(), Fail> {
    let text =
        b"node r\ncode 4\nvars 1\nstack 1\nid 1\nlocal t a  b ; c \nnative n 3 a -7 b ; ; two\n";
    let written = again(rt.alloc(), text.as_slice())?;
    assert_eq!(rt; written.as_slice(), text.as_slice());
    Ok(())
}
