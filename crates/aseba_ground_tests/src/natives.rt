//! The natives on small arrays of cells, worked by hand.
use aseba_natives::NativeEnd::{BadCall, Division, Done};
use aseba_natives::{NativeEnd, native};
use std::process::Abort;

/// The natives by their names.
const COPY: u16 = 0;

const FILL: u16 = 1;

const ADDSCALAR: u16 = 2;

const ADD: u16 = 3;

const SUB: u16 = 4;

const MUL: u16 = 5;

const DIV: u16 = 6;

const MIN: u16 = 7;

const MAX: u16 = 8;

const CLAMP: u16 = 9;

const DOT: u16 = 10;

const MULDIV: u16 = 11;

const STAT: u16 = 12;

const ARGBOUNDS: u16 = 13;

type Cells = [i16; 8];

fn gives(rt: &impl Abort, id: u16, args: &[u16], before: Cells, end: NativeEnd, after: Cells) {
    let mut cells = before;
    assert_eq!(rt;
        native(id, &mut cells, args),
        end,
        "native {id} of {args:?}"
    );
    assert_eq!(rt; cells, after, "native {id} of {args:?}");
}

#[test]
fn copies_and_fills(rt: HostRuntime) {
    let cells = [1, 2, 3, 4, 5, 6, 7, 8];
    gives(&rt, COPY, &[4, 0, 3], cells, Done, [1, 2, 3, 4, 1, 2, 3, 8]);
    gives(&rt, COPY, &[7, 0, 1], cells, Done, [1, 2, 3, 4, 5, 6, 7, 1]);
    gives(&rt, FILL, &[2, 0, 4], cells, Done, [1, 2, 1, 1, 1, 1, 7, 8]);
}

#[test]
fn overlaps(rt: HostRuntime) {
    let cells = [1, 2, 3, 4, 5, 6, 7, 8];
    gives(&rt, COPY, &[1, 0, 7], cells, Done, [1, 1, 1, 1, 1, 1, 1, 1]);
    gives(&rt, COPY, &[0, 1, 7], cells, Done, [2, 3, 4, 5, 6, 7, 8, 8]);
    gives(
        &rt,
        ADD,
        &[1, 0, 1, 4],
        cells,
        Done,
        [1, 3, 6, 10, 15, 6, 7, 8],
    );
    gives(
        &rt,
        ADDSCALAR,
        &[0, 4, 1, 4],
        [0, 5, 0, 0, 1, 1, 1, 1],
        Done,
        [6, 6, 7, 7, 1, 1, 1, 1],
    );
    gives(
        &rt,
        DIV,
        &[2, 0, 1, 2],
        [1, 2, 9, 9, 0, 0, 0, 0],
        Division,
        [1, 2, 0, 9, 0, 0, 0, 0],
    );
    gives(
        &rt,
        STAT,
        &[0, 1, 0, 2, 3],
        [4, -9, 1, 50, 0, 0, 0, 0],
        Done,
        [4, -9, -1, 50, 0, 0, 0, 0],
    );
    gives(
        &rt,
        ARGBOUNDS,
        &[0, 1, 0, 3],
        [4, 3, 3, 9, 0, 0, 0, 0],
        Done,
        [0, 1, 3, 9, 0, 0, 0, 0],
    );
}

#[test]
fn sums_and_products(rt: HostRuntime) {
    gives(
        &rt,
        ADDSCALAR,
        &[4, 0, 7, 3],
        [32767, -32768, 5, 0, 0, 0, 0, 1],
        Done,
        [32767, -32768, 5, 0, -32768, -32767, 6, 1],
    );
    gives(
        &rt,
        ADD,
        &[4, 0, 2, 2],
        [32767, -1, 1, -32768, 0, 0, 9, 9],
        Done,
        [32767, -1, 1, -32768, -32768, 32767, 9, 9],
    );
    gives(
        &rt,
        SUB,
        &[4, 0, 2, 2],
        [-32768, 5, 1, 7, 0, 0, 9, 9],
        Done,
        [-32768, 5, 1, 7, 32767, -2, 9, 9],
    );
    gives(
        &rt,
        MUL,
        &[4, 0, 2, 2],
        [-300, 256, 300, 256, 1, 1, 9, 9],
        Done,
        [-300, 256, 300, 256, -24464, 0, 9, 9],
    );
}

#[test]
fn quotients(rt: HostRuntime) {
    gives(
        &rt,
        DIV,
        &[4, 0, 2, 2],
        [-7, -32768, 2, -1, 0, 0, 9, 9],
        Done,
        [-7, -32768, 2, -1, -3, -32768, 9, 9],
    );
    gives(
        &rt,
        DIV,
        &[4, 0, 2, 2],
        [6, 6, 2, 0, 8, 8, 9, 9],
        Division,
        [6, 6, 2, 0, 3, 8, 9, 9],
    );
    gives(
        &rt,
        DIV,
        &[4, 0, 2, 2],
        [6, 6, 0, 2, 8, 8, 9, 9],
        Division,
        [6, 6, 0, 2, 8, 8, 9, 9],
    );
    gives(
        &rt,
        MULDIV,
        &[6, 0, 2, 4, 2],
        [200, -7, 300, 3, 7, 2, 0, 0],
        Done,
        [200, -7, 300, 3, 7, 2, 8571, -10],
    );
    gives(
        &rt,
        MULDIV,
        &[6, 0, 2, 4, 2],
        [-32768, -32768, -32768, 1, -32768, -1, 0, 0],
        Done,
        [-32768, -32768, -32768, 1, -32768, -1, -32768, -32768],
    );
    gives(
        &rt,
        MULDIV,
        &[6, 0, 2, 4, 2],
        [1, 2, 3, 4, 1, 0, 0, 7],
        Division,
        [1, 2, 3, 4, 1, 0, 3, 7],
    );
}

#[test]
fn bounds(rt: HostRuntime) {
    let cells = [3, -5, 2, -4, 0, 0, 9, 9];
    gives(
        &rt,
        MIN,
        &[4, 0, 2, 2],
        cells,
        Done,
        [3, -5, 2, -4, 2, -5, 9, 9],
    );
    gives(
        &rt,
        MAX,
        &[4, 0, 2, 2],
        cells,
        Done,
        [3, -5, 2, -4, 3, -4, 9, 9],
    );
    gives(
        &rt,
        CLAMP,
        &[6, 0, 2, 4, 2],
        [4, -7, -3, -3, 3, 3, 0, 0],
        Done,
        [4, -7, -3, -3, 3, 3, 3, -3],
    );
    gives(
        &rt,
        CLAMP,
        &[0, 0, 2, 4, 2],
        [20, 1, 30, -9, 10, 9, 0, 0],
        Done,
        [30, 1, 30, -9, 10, 9, 0, 0],
    );
    gives(
        &rt,
        STAT,
        &[0, 5, 6, 7, 4],
        [-32768, 32767, -1, 0, 0, 1, 1, 1],
        Done,
        [-32768, 32767, -1, 0, 0, -32768, 32767, 0],
    );
    gives(
        &rt,
        STAT,
        &[2, 5, 6, 7, 1],
        [0, 0, -4, 9, 0, 1, 1, 1],
        Done,
        [0, 0, -4, 9, 0, -4, -4, -4],
    );
    gives(
        &rt,
        ARGBOUNDS,
        &[1, 6, 7, 5],
        [9, 5, 2, 5, 2, 5, 8, 8],
        Done,
        [9, 5, 2, 5, 2, 5, 1, 0],
    );
}

#[test]
fn dot_is_exact(rt: HostRuntime) {
    let least = -32768;
    gives(
        &rt,
        DOT,
        &[0, 1, 3, 5, 2],
        [0, least, least, least, least, 17, 0, 0],
        Done,
        [16384, least, least, least, least, 17, 0, 0],
    );
    gives(
        &rt,
        DOT,
        &[0, 1, 3, 5, 2],
        [0, 300, -300, 200, 30, 34, 0, 0],
        Done,
        [12750, 300, -300, 200, 30, 34, 0, 0],
    );
    gives(
        &rt,
        DOT,
        &[0, 1, 2, 5, 1],
        [0, -3, 1, 0, 0, 1, 0, 0],
        Done,
        [-2, -3, 1, 0, 0, 1, 0, 0],
    );
    gives(
        &rt,
        DOT,
        &[0, 1, 2, 5, 1],
        [0, -3, 1, 0, 0, -1, 0, 0],
        Done,
        [-1, -3, 1, 0, 0, -1, 0, 0],
    );
    gives(
        &rt,
        DOT,
        &[1, 0, 1, 1, 2],
        [2, 1, 3, 0, 0, 0, 0, 0],
        Done,
        [2, 2, 3, 0, 0, 0, 0, 0],
    );
}

#[test]
fn no_calls(rt: HostRuntime) {
    let cells = [1, 2, 3, 4, 5, 6, 7, 8];
    for (id, args) in [
        (14, [0, 1, 1].as_slice()),
        (65535, &[0, 1, 1]),
        (FILL, &[0, 1, 0]),
        (FILL, &[0, 1, 4097]),
        (FILL, &[]),
        (FILL, &[0, 1]),
        (FILL, &[0, 1, 1, 1]),
        (FILL, &[0, 8, 1]),
        (FILL, &[1, 0, 8]),
        (FILL, &[65535, 0, 1]),
        (COPY, &[0, 1, 8]),
        (DOT, &[8, 0, 1, 2, 1]),
        (DOT, &[0, 1, 2, 8, 1]),
        (DIV, &[0, 6, 2, 3]),
        (STAT, &[0, 1, 2, 8, 3]),
        (ARGBOUNDS, &[0, 1, 8, 3]),
    ] {
        gives(&rt, id, args, cells, BadCall, cells);
    }
}

#[test]
fn longest(rt: HostRuntime) {
    let mut cells = [-32768; 4098];
    cells[4096] = 31;
    assert_eq!(rt; native(DOT, &mut cells, &[4097, 0, 0, 4096, 4096]), Done);
    assert_eq!(rt; cells[4097], 2048);
    assert_eq!(rt;
        native(STAT, &mut cells, &[0, 4097, 4097, 4097, 4096]),
        Done
    );
    assert_eq!(rt; cells[4097], -32768);
    cells[4095] = 1;
    assert_eq!(rt; native(ARGBOUNDS, &mut cells, &[0, 4097, 4097, 4096]), Done);
    assert_eq!(rt; cells[4097], 4095);
    assert_eq!(rt; native(FILL, &mut cells, &[1, 4095, 4096]), Done);
    assert_eq!(rt;
        (cells[0], cells[1], cells[4096], cells[4097]),
        (-32768, 1, 1, 4095)
    );
}
