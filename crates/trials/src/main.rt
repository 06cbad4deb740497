// Every call on tables and buffers of every telling length: one short, exact, longer, full of ones beforehand; on an empty and an
// over-long row. For each try one line: the call, the try's number, the answer, what the result and the point buffer then hold, and how
// many words of each table are not 0. (A printed book has lines of its own.)
#![tactic(auto)]

mod calls;
mod lent;
mod saying;
mod telling_tries;
mod writing_tries;

use crate::calls::{Call, WITH_TABLES};
use crate::lent::{given, letters, words};
use crate::saying::{begin, end, say_judged, say_written};
use crate::telling_tries::try_telling;
use crate::writing_tries::{try_print, try_writing};
use std::io;

const TRIES: u32 = 12;

// The call in try k, on what it is lent.
fn try_lent(
    rt: &impl Print,
    call: Call,
    k: u32,
    row: &[u8],
    at: &[i32],
    res: &mut [u8],
    point: &mut [u32],
    a: &mut [u32],
    b: &mut [u32],
    c: &mut [u32],
    d: &mut [u32],
) -> io::Result<()> {
    match call {
        Call::Form | Call::Negate | Call::Add | Call::Multiply | Call::Raise => {
            say_written(rt, try_writing(call, k, row, res, a, b, c, d))
        }
        Call::PrintBook => say_written(rt, try_print(k, res, a, b, c, d)),
        _ => try_telling(rt, call, k, row, at, point, a, b, c, d),
    }
}

// The call in try k, on the parts that it is lent.
fn try_parts(
    rt: &impl Print,
    call: Call,
    k: u32,
    row: &[u8],
    at: &[i32],
    res: &mut [u8],
    point: &mut [u32],
    a: &mut [u32],
    b: &mut [u32],
    c: &mut [u32],
    d: &mut [u32],
) -> io::Result<()> {
    let m = letters(k, row.len());
    let la = words(k, 1, a.len());
    let lb = words(k, 2, b.len());
    let lc = words(k, 3, c.len());
    let ld = words(k, 4, d.len());
    try_lent(
        rt,
        call,
        k,
        &row[..m],
        at,
        res,
        point,
        &mut a[..la],
        &mut b[..lb],
        &mut c[..lc],
        &mut d[..ld],
    )
}

// One call in try k, from tables full of ones to what it left.
fn try_call(rt: &impl Print, call: Call, k: u32, row: &[u8], at: &[i32]) -> io::Result<()> {
    let mut result = [b'.'; 64];
    let mut point = [7u32; 3];
    let mut a = [u32::MAX; 16391];
    let mut b = [u32::MAX; 16391];
    let mut c = [u32::MAX; 16391];
    let mut d = [u32::MAX; 16391];
    begin(rt, call, k)?;
    try_parts(
        rt,
        call,
        k,
        row,
        at,
        &mut result,
        &mut point,
        &mut a,
        &mut b,
        &mut c,
        &mut d,
    )?;
    end(rt, &result, &point, &a, &b, &c, &d)
}

// `judge`, which takes no tables.
fn try_judge(rt: &impl Print, k: u32, row: &[u8]) -> io::Result<()> {
    let m = letters(k, row.len());
    begin(rt, Call::Judge, k)?;
    say_judged(
        rt,
        call_judge::judge(&row[..m], given(k, 10, b"(POW 2 1 (POW 2 -1 0))")),
    )?;
    println!(rt)
}

// `judge` in every try.
fn try_judges(rt: &impl Print, row: &[u8]) -> io::Result<()> {
    for k in 0..TRIES {
        try_judge(rt, k, row)?;
    }
    Ok(())
}

// Every other call in try k.
fn try_turn(rt: &impl Print, k: u32, row: &[u8], at: &[i32]) -> io::Result<()> {
    for call in &WITH_TABLES {
        try_call(rt, *call, k, row, at)?;
    }
    Ok(())
}

// Every other call in every try.
fn try_calls(rt: &impl Print, row: &[u8], at: &[i32]) -> io::Result<()> {
    for k in 0..TRIES {
        try_turn(rt, k, row, at)?;
    }
    Ok(())
}

fn main(rt: HostRuntime) -> io::Result<()> {
    try_calls(&rt, b"XYABC", &[-3, 2, 5])?;
    try_judges(&rt, b"XYABC")
}
