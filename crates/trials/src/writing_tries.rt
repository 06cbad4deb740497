// Each call with a result text, on what is lent in try k.
use crate::calls::Call;
use crate::lent::{given, room};
use reply::Written;

fn try_form(
    k: u32,
    row: &[u8],
    res: &mut [u8],
    a: &mut [u32],
    b: &mut [u32],
    c: &mut [u32],
    d: &mut [u32],
) -> Written {
    let n = room(k, 22, res.len());
    call_form::form(
        row,
        given(k, 10, b"(* (+ X Y) (- X Y))"),
        &mut res[..n],
        a,
        b,
        c,
        d,
    )
}

fn try_negate(
    k: u32,
    row: &[u8],
    res: &mut [u8],
    a: &mut [u32],
    b: &mut [u32],
    c: &mut [u32],
    d: &mut [u32],
) -> Written {
    let n = room(k, 22, res.len());
    call_negate::negate(
        row,
        given(k, 10, b"(POW 2 1 (POW 2 -1 0))"),
        &mut res[..n],
        a,
        b,
        c,
        d,
    )
}

fn try_add(
    k: u32,
    row: &[u8],
    res: &mut [u8],
    a: &mut [u32],
    b: &mut [u32],
    c: &mut [u32],
    d: &mut [u32],
) -> Written {
    let n = room(k, 21, res.len());
    call_add::add(
        row,
        given(k, 10, b"(POW 1 1 0)"),
        given(k, 11, b"(POP 1 (POW 1 1 0))"),
        &mut res[..n],
        a,
        b,
        c,
        d,
    )
}

fn try_multiply(
    k: u32,
    row: &[u8],
    res: &mut [u8],
    a: &mut [u32],
    b: &mut [u32],
    c: &mut [u32],
    d: &mut [u32],
) -> Written {
    let n = room(k, 22, res.len());
    call_multiply::multiply(
        row,
        given(k, 10, b"(POW 1 1 (POW 1 1 0))"),
        given(k, 11, b"(POW 1 1 (POW 1 -1 0))"),
        &mut res[..n],
        a,
        b,
        c,
        d,
    )
}

fn try_raise(
    k: u32,
    row: &[u8],
    res: &mut [u8],
    a: &mut [u32],
    b: &mut [u32],
    c: &mut [u32],
    d: &mut [u32],
) -> Written {
    let n = room(k, 41, res.len());
    call_raise::raise(
        row,
        given(k, 10, b"(POW 1 1 (POW 1 1 0))"),
        2,
        &mut res[..n],
        a,
        b,
        c,
        d,
    )
}

// The book has the row X and one entry, `X` twice. It has no row and no second text from outside: tries 6, 7 and 11 are as 0 here.
pub fn try_print(
    k: u32,
    res: &mut [u8],
    a: &mut [u32],
    b: &mut [u32],
    c: &mut [u32],
    d: &mut [u32],
) -> Written {
    let n = room(k, 16, res.len());
    book_print::print_book(
        given(k, 10, b"\x01X\x01\x0b\x00\x01\x00\x0c\x00\x01\x00XX"),
        &mut res[..n],
        a,
        b,
        c,
        d,
    )
}

// A call with a result text, but the printer's.
pub fn try_writing(
    call: Call,
    k: u32,
    row: &[u8],
    res: &mut [u8],
    a: &mut [u32],
    b: &mut [u32],
    c: &mut [u32],
    d: &mut [u32],
) -> Written {
    match call {
        Call::Form => try_form(k, row, res, a, b, c, d),
        Call::Negate => try_negate(k, row, res, a, b, c, d),
        Call::Add => try_add(k, row, res, a, b, c, d),
        Call::Multiply => try_multiply(k, row, res, a, b, c, d),
        _ => try_raise(k, row, res, a, b, c, d),
    }
}
