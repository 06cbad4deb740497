// The lines of the printer's answer, each written at the front of a lent buffer.
#![tactic(auto)]

ghost use Rattle.std.specs.Prelude.{[], ◌∷◌, ◌++◌, ◌+◌, ◌≤◌, length};
ghost use Rattle.form_write.specs.Write.{numeral, Wrote};
ghost use Rattle.text_line.specs.Line.{different_text};
ghost use Rattle.book_line.specs.Lines.{spaced, ended, refused_text, answer_text, entry_text, head_text, refusal_text};

use refusal::{Fault, Refusal, Side};
use reply::{Compared, Comparison};

// A number and the byte behind it: a space, or a line feed.
fn put_number(n: usize, last: u8, out: &mut [u8]) -> usize
    requires { 21 ≤ length out.old }
    ensures wrote { Wrote result (numeral n ++ (last ∷ [])) out.old out.new }
    ensures upper_bound { result ≤ 21 }
{
    let k = form_write::write_number(n as u64, out);
    out[k] = last;
    k + 1
}

// `DIFF`, the point, both remainders.
fn put_different(point: &[u32], l: u32, r: u32, out: &mut [u8]) -> usize
    requires point_len_bound { length point.now ≤ 4 }
    requires in_bounds { 139 ≤ length out.old }
    ensures wrote { Wrote result (different_text point.now l r ++ (10 ∷ [])) out.old out.new }
    ensures upper_bound { result ≤ 139 }
{
    let n = text_line::different(point, l, r, out);
    out[n] = b'\n';
    n + 1
}

// Words, and two numbers behind them.
fn put_two(words: &[u8], m: usize, n: usize, out: &mut [u8]) -> usize
    requires { length words.now + 42 ≤ length out.old }
    ensures wrote { Wrote result ((words.now ++ spaced m) ++ ended n) out.old out.new }
    ensures upper_bound { result ≤ length words.now + 42 }
{
    let a = form_write::put(words, out);
    let b = a + put_number(m, b' ', &mut out[a..]);
    b + put_number(n, b'\n', &mut out[b..])
}

// `REFUSED`, E for panel or C for cloud, number, place.
fn refused(bad: Refusal, out: &mut [u8]) -> usize
    requires { 139 ≤ length out.old }
    ensures wrote { Wrote result (refused_text bad) out.old out.new }
    ensures upper_bound { result ≤ 139 }
{
    let words: &[u8] = match bad.side {
        Side::Left => b"REFUSED E ",
        Side::Right => b"REFUSED C ",
        Side::Neither => b"REFUSED  ",
    };
    put_two(words, bad.number as usize, bad.place, out)
}

// The answer to a comparison, where the first point that differs is point.
fn put_answer(answer: Compared, point: &[u32], out: &mut [u8]) -> usize
    requires point_len_bound { length point.now ≤ 4 }
    requires in_bounds { 139 ≤ length out.old }
    ensures wrote { Wrote result (answer_text answer point.now) out.old out.new }
    ensures upper_bound { result ≤ 139 }
{
    match answer {
        Ok(Comparison::Same) => form_write::put(b"SAME\n", out),
        Ok(Comparison::Different(l, r)) => put_different(point, l, r, out),
        Err(bad) => refused(bad, out),
    }
}

// The line of the entry with the number i.
pub fn put_entry(i: usize, answer: Compared, point: &[u32], out: &mut [u8]) -> usize
    requires point_len_bound { length point.now ≤ 4 }
    requires in_bounds { 160 ≤ length out.old }
    ensures wrote { Wrote result (entry_text i answer point.now) out.old out.new }
    ensures upper_bound { result ≤ 160 }
{
    let a = put_number(i, b' ', out);
    a + put_answer(answer, point, &mut out[a..])
}

// The first line: `BOOK`, variables, entries.
pub fn put_head(variables: usize, entries: usize, out: &mut [u8]) -> usize
    requires { 64 ≤ length out.old }
    ensures wrote { Wrote result (head_text variables entries) out.old out.new }
    ensures upper_bound { result ≤ 64 }
{
    put_two(b"BOOK ", variables, entries, out)
}

// The only line of a refused book: `BOOK REFUSED`, number, place.
pub fn put_refusal(bad: Fault, out: &mut [u8]) -> usize
    requires { 64 ≤ length out.old }
    ensures { Wrote result (refusal_text bad) out.old out.new }
{
    put_two(b"BOOK REFUSED ", bad.number as usize, bad.place, out)
}
