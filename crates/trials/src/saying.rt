// What came back, on standard output.
use crate::calls::Call;
use reply::{Compared, Comparison, Counted, Judged, Remaindered, Written};
use std::io;

// How many words are not 0.
pub fn dirty(t: &[u32]) -> usize {
    t.iter().filter(|word| **word != 0).count()
}

pub fn say_written(rt: &impl Print, answer: Written) -> io::Result<()> {
    match answer {
        Ok(n) => print!(rt; "TEXT {n}"),
        Err(bad) => print!(rt; "{bad}"),
    }
}

pub fn say_remainder(rt: &impl Print, answer: Remaindered) -> io::Result<()> {
    match answer {
        Ok(n) => print!(rt; "REMAINDER {n}"),
        Err(bad) => print!(rt; "{bad}"),
    }
}

pub fn say_compared(rt: &impl Print, answer: Compared) -> io::Result<()> {
    match answer {
        Ok(Comparison::Same) => print!(rt; "SAME"),
        Ok(Comparison::Different(l, r)) => print!(rt; "DIFF {l} {r}"),
        Err(bad) => print!(rt; "{bad}"),
    }
}

pub fn say_counted(rt: &impl Print, answer: Counted) -> io::Result<()> {
    match answer {
        Ok(true) => print!(rt; "SAME"),
        Ok(false) => print!(rt; "DIFF"),
        Err(bad) => print!(rt; "{bad}"),
    }
}

pub fn say_judged(rt: &impl Print, answer: Judged) -> io::Result<()> {
    match answer {
        Ok(()) => print!(rt; "YES"),
        Err(bad) => print!(rt; "{bad}"),
    }
}

// The call and the try's number, at the front of its line.
pub fn begin(rt: &impl Print, call: Call, k: u32) -> io::Result<()> {
    print!(rt; "{call} {k}: ")
}

// What the result buffer holds.
pub fn say_result(rt: &impl Print, res: &[u8]) -> io::Result<()> {
    print!(rt; "; result ")?;
    rt.write_all(res)
}

fn say_number(rt: &impl Print, n: u32) -> io::Result<()> {
    print!(rt; " {n}")
}

// What the point buffer holds.
pub fn say_point(rt: &impl Print, point: &[u32]) -> io::Result<()> {
    print!(rt; "; point")?;
    for n in point {
        say_number(rt, *n)?;
    }
    Ok(())
}

// What the buffers hold, at the end of the line.
pub fn end(
    rt: &impl Print,
    res: &[u8],
    point: &[u32],
    a: &[u32],
    b: &[u32],
    c: &[u32],
    d: &[u32],
) -> io::Result<()> {
    say_result(rt, res)?;
    say_point(rt, point)?;
    print!(rt; "; not 0")?;
    say_dirty(rt, a)?;
    say_dirty(rt, b)?;
    say_dirty(rt, c)?;
    say_dirty(rt, d)?;
    println!(rt)
}

pub fn say_dirty(rt: &impl Print, t: &[u32]) -> io::Result<()> {
    let n = dirty(t);
    print!(rt; " {n}")
}
