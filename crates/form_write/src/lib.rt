// The text of a coded form over the remainders by P: how long it is, and writing it at the front of a lent buffer.
#![tactic(auto)]

ghost use Rattle.std.specs.Prelude.{◌≡◌, ◌≤◌, ◌<◌, length};
ghost use Rattle.code.specs.Coding.{Coded, dec};
ghost use Rattle.form_write.specs.Write.{text_of, numeral, leaf_text, head_text, Wrote};

use code::NODE;

// The greatest remainder that stands for itself; a greater one stands for what it lacks of P, negative.
const HALF: u32 = 1073741823;

const P: u32 = 2147483647;

// How many digits n has.
fn digits_of(n: u32) -> usize
    ensures { result ≡ length (numeral n) }
{
    n.max(1).ilog10() as usize + 1
}

// Writes the bytes of text, and returns how many they are.
pub fn put(text: &[u8], out: &mut [u8]) -> usize
    requires { length text.now ≤ length out.old }
    ensures { Wrote result text.now out.old out.new }
{
    out[..text.len()].copy_from_slice(text);
    text.len()
}

// Writes the digits of n, and returns how many they are.
// By hand: std's `write!` into a slice promises none of the bytes that `Wrote` names, and `itoa` writes into a buffer of its own.
pub fn write_number(n: u64, out: &mut [u8]) -> usize
    requires { length (numeral n) ≤ length out.old }
    ensures { Wrote result (numeral n) out.old out.new }
{
    if n < 10 {
        out[0] = b'0' + (n as u8);
        return 1;
    }
    let k = write_number(n / 10, out);
    out[k] = b'0' + ((n % 10) as u8);
    k + 1
}

// How many bytes the integer takes that a leaf stands for.
fn leaf_length(x: u32) -> usize
    requires { x < 2147483647 }
    ensures { result ≡ length (leaf_text x) }
{
    if x <= HALF {
        return digits_of(x);
    }
    1 + digits_of(P - x)
}

// Writes the integer that a leaf stands for, and returns how many bytes it takes.
fn write_leaf(x: u32, out: &mut [u8]) -> usize
    requires x_bound { x < 2147483647 }
    requires x_in_bounds { length (leaf_text x) ≤ length out.old }
    ensures { Wrote result (leaf_text x) out.old out.new }
{
    if x <= HALF {
        return write_number(x as u64, out);
    }
    out[0] = b'-';
    let n = write_number((P - x) as u64, &mut out[1..]);
    1 + n
}

// Writes "(POP i " where c is P, "(POW i " where c is W, and returns how many bytes these are.
fn write_head(c: u8, i: u32, out: &mut [u8]) -> usize
    requires { length (head_text c i) ≤ length out.old }
    ensures { Wrote result (head_text c i) out.old out.new }
{
    out[0] = b'(';
    out[1] = b'P';
    out[2] = b'O';
    out[3] = c;
    out[4] = b' ';
    let n = write_number(i as u64, &mut out[5..]);
    let e = 5 + n;
    out[e] = b' ';
    e + 1
}

// How many bytes the text of the form x takes.
pub fn text_length(x: &[u32]) -> usize
    requires coded { Coded 0 x.now }
    requires x_len_bound { length x.now ≤ 33554432 }
    ensures { result ≡ length (text_of (dec 0 x.now)) }
{
    let w = x[0];
    if w < NODE {
        return leaf_length(w);
    }
    let s = ((w - NODE) / 64) as usize;
    let h = 6 + digits_of(w % 64);
    if s == 0 {
        let n = text_length(&x[1..]);
        return h + n + 1;
    }
    let e = 1 + s;
    let n = text_length(&x[1..e]);
    let m = text_length(&x[e..]);
    h + n + 1 + m + 1
}

// Writes the text of the form x at the front of out, changes nothing behind it, and returns its length.
pub fn write_text(x: &[u32], out: &mut [u8]) -> usize
    requires coded { Coded 0 x.now }
    requires x_in_bounds { length (text_of (dec 0 x.now)) ≤ length out.old }
    ensures { Wrote result (text_of (dec 0 x.now)) out.old out.new }
{
    let w = x[0];
    if w < NODE {
        return write_leaf(w, out);
    }
    let s = ((w - NODE) / 64) as usize;
    if s == 0 {
        let h = write_head(b'P', w % 64, out);
        let n = write_text(&x[1..], &mut out[h..]);
        let e = h + n;
        out[e] = b')';
        return e + 1;
    }
    let k = 1 + s;
    let h = write_head(b'W', w % 64, out);
    let n = write_text(&x[1..k], &mut out[h..]);
    let e = h + n;
    out[e] = b' ';
    let f = e + 1;
    let m = write_text(&x[k..], &mut out[f..]);
    let g = f + m;
    out[g] = b')';
    g + 1
}
