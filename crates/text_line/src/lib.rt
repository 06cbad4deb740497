// Numbers in a line, each behind a space, and the line that says where two terms part.
#![tactic(auto)]

ghost use Rattle.std.specs.Prelude.{◌∷◌, ◌≤◌, ◌*◌, length};
ghost use Rattle.form_write.specs.Write.{numeral, Wrote};
ghost use Rattle.text_line.specs.Line.{numbers_text, different_text};

// A space and a number.
fn put_spaced(n: u32, out: &mut [u8]) -> usize
    requires { 11 ≤ length out.old }
    ensures wrote { Wrote result (32 ∷ numeral n) out.old out.new }
    ensures upper_bound { result ≤ 11 }
{
    let at = form_write::put(b" ", out);
    let k = form_write::write_number(u64::from(n), &mut out[at..]);
    at + k
}

// Each number behind a space.
fn put_numbers(numbers: &[u32], out: &mut [u8]) -> usize
    requires { 11 * length numbers.now ≤ length out.old }
    ensures wrote { Wrote result (numbers_text numbers.now) out.old out.new }
    ensures upper_bound { result ≤ 11 * length numbers.now }
{
    let mut at = 0;
    for n in numbers {
        at += put_spaced(*n, &mut out[at..]);
    }
    at
}

// `DIFF x1 .. xn l r`: the point, then both remainders there.
pub fn different(point: &[u32], l: u32, r: u32, out: &mut [u8]) -> usize
    requires point_len_bound { length point.now ≤ 4 }
    requires in_bounds { 70 ≤ length out.old }
    ensures wrote { Wrote result (different_text point.now l r) out.old out.new }
    ensures upper_bound { result ≤ 70 }
{
    let a = form_write::put(b"DIFF", out);
    let k = put_numbers(point, &mut out[a..]);
    let b = a + k;
    let m = put_spaced(l, &mut out[b..]);
    let c = b + m;
    let n = put_spaced(r, &mut out[c..]);
    c + n
}
