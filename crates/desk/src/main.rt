// The desk: one request on each line of standard input, one answer line each on standard output.
#![tactic(auto)]

use code::TABLE;
use std::io;
use std::io::{Read, Write};

// Puts one more byte behind the fill bytes of a line, and returns how many they then are: one more than there is room for, where it is too
// long.
fn keep(b: u8, fill: usize, line: &mut [u8]) -> usize {
    if fill < line.len() {
        line[fill] = b;
        return fill + 1;
    }
    line.len() + 1
}

// Answers the request of the first fill bytes. A line that is too long is a wrong request.
fn answer(fill: usize, line: &[u8], out: &mut [u8], output: &mut impl Write) -> io::Result<()> {
    if line.len() < fill {
        return output.write_all(b"? 0\n");
    }
    let mut a = [0u32; TABLE];
    let mut b = [0u32; TABLE];
    let mut c = [0u32; TABLE];
    let mut d = [0u32; TABLE];
    let n = desk_answer::answer_line(&line[..fill], out, &mut a, &mut b, &mut c, &mut d);
    if n < out.len() {
        out[n] = b'\n';
        output.write_all(&out[..=n])?;
    }
    Ok(())
}

// Goes on with one byte of the input: a line feed ends the line, which is answered. Returns how many bytes of an unfinished line are kept.
fn take_byte(
    x: u8,
    fill: usize,
    line: &mut [u8],
    out: &mut [u8],
    output: &mut impl Write,
) -> io::Result<usize> {
    if x == b'\n' {
        answer(fill, line, out, output)?;
        return Ok(0);
    }
    Ok(keep(x, fill, line))
}

// Goes on with the bytes of a piece of the input.
fn take_piece(
    piece: &[u8],
    kept: usize,
    line: &mut [u8],
    out: &mut [u8],
    output: &mut impl Write,
) -> io::Result<usize> {
    let mut fill = kept;
    for x in piece {
        fill = take_byte(*x, fill, line, out, output)?;
    }
    Ok(fill)
}

// Reads to the end of the input, and answers what is left of it too. A proved loop has to end, and nothing says that an input does, so the
// loop has a number of turns that no run uses up.
fn serve(
    input: &mut impl Read,
    output: &mut impl Write,
    piece: &mut [u8],
    line: &mut [u8],
    out: &mut [u8],
) -> io::Result<()> {
    let mut fill = 0;
    for _ in 0..u64::MAX {
        let n = input.read(piece)?;
        if n == 0 {
            break;
        }
        fill = take_piece(&piece[..n], fill, line, out, output)?;
    }
    if 0 < fill {
        answer(fill, line, out, output)?;
    }
    Ok(())
}

fn main(rt: HostRuntime) -> io::Result<()> {
    let mut piece = [0u8; 65536];
    let mut line = [0u8; 140000];
    let mut out = [0u8; 65541];
    serve(
        &mut rt.stdin(),
        &mut rt.stdout(),
        &mut piece,
        &mut line,
        &mut out,
    )
}
