// Each other call with work tables, on what is lent in try k.
use crate::calls::Call;
use crate::lent::{coordinates, given, width};
use crate::saying::{say_compared, say_counted, say_remainder};
use reply::{Compared, Counted, Remaindered};
use std::io;

fn try_remainder(
    k: u32,
    row: &[u8],
    at: &[i32],
    a: &mut [u32],
    b: &mut [u32],
    c: &mut [u32],
    d: &mut [u32],
) -> Remaindered {
    let n = coordinates(k, at.len());
    call_remainder::remainder(row, given(k, 10, b"(+ (EXPT X 3) Y)"), &at[..n], a, b, c, d)
}

fn try_form_remainder(
    k: u32,
    row: &[u8],
    at: &[i32],
    a: &mut [u32],
    b: &mut [u32],
    c: &mut [u32],
    d: &mut [u32],
) -> Remaindered {
    let n = coordinates(k, at.len());
    call_form_remainder::form_remainder(
        row,
        given(k, 10, b"(POW 3 1 (POW 1 1 0))"),
        &at[..n],
        a,
        b,
        c,
        d,
    )
}

fn try_compare(
    k: u32,
    row: &[u8],
    point: &mut [u32],
    a: &mut [u32],
    b: &mut [u32],
    c: &mut [u32],
    d: &mut [u32],
) -> Compared {
    let n = coordinates(k, point.len());
    call_compare::compare(
        row,
        given(k, 10, b"(* X Y)"),
        given(k, 11, b"0"),
        &mut point[..n],
        a,
        b,
        c,
        d,
    )
}

fn try_counters(
    k: u32,
    row: &[u8],
    a: &mut [u32],
    b: &mut [u32],
    c: &mut [u32],
    d: &mut [u32],
) -> Counted {
    call_counters::counters(
        row,
        width(k),
        given(k, 10, b"(* 256 X)"),
        given(k, 11, b"0"),
        a,
        b,
        c,
        d,
    )
}

// A call that tells a number or a verdict.
pub fn try_telling(
    rt: &impl Print,
    call: Call,
    k: u32,
    row: &[u8],
    at: &[i32],
    point: &mut [u32],
    a: &mut [u32],
    b: &mut [u32],
    c: &mut [u32],
    d: &mut [u32],
) -> io::Result<()> {
    match call {
        Call::Remainder => say_remainder(rt, try_remainder(k, row, at, a, b, c, d)),
        Call::FormRemainder => say_remainder(rt, try_form_remainder(k, row, at, a, b, c, d)),
        Call::Compare => say_compared(rt, try_compare(k, row, point, a, b, c, d)),
        _ => say_counted(rt, try_counters(k, row, a, b, c, d)),
    }
}
