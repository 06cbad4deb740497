// A number put for the first variable of a coded form: what the search for a point goes by.
#![tactic(auto)]

ghost use Rattle.std.specs.Prelude.{◌+◌, ◌<◌, ◌≤◌, length};
ghost use Rattle.code.specs.Widths.{modulus};
ghost use Rattle.code.specs.Coding.{Coded, Made, RoomUnder, dec};
ghost use Rattle.code_first.specs.First.{lower_of, at_first_of};

use code::{Head, NODE};

// Writes (POP i-1 p) at the front of out, or p itself where that exponent is 0, and returns its length.
fn put_lower(width: u32, i: u32, p: &[u32], out: &mut [u32]) -> usize
    requires i_nonzero { (0 < i) × (i ≤ 3) }
    requires coded { Coded width p.now }
    requires room_under { RoomUnder (2 + length p.now) out.old }
    ensures { Made width (lower_of width i (dec width p.now)) result out.new }
{
    let n = p.len();
    if i == 1 {
        code::copy(p, out);
        return n;
    }
    out[0] = NODE + (i - 1);
    code::copy(p, &mut out[1..]);
    1 + n
}

// The form x with the leaf a put for its first variable, written at the front of out; spare is work space. As many words as x has are
// enough in each.
pub fn at_first(width: u32, x: &[u32], a: u32, out: &mut [u32], spare: &mut [u32]) -> usize
    requires a_bound { a < modulus width }
    requires coded { Coded width x.now }
    requires room_under { RoomUnder (1 + length x.now) out.old × RoomUnder (1 + length x.now) spare.old }
    ensures { Made width (at_first_of width (dec width x.now) a) result out.new }
{
    match code::head_of(x[0]) {
        Head::Leaf(b) => {
            out[0] = b;
            1
        },
        Head::Pop(i) => put_lower(width, i, &x[1..], out),
        Head::Pow(i, s) => {
            let e = 1 + s;
            let n = at_first(width, &x[1..e], a, out, spare);
            let c = code::leaf_power(width, a, i);
            let m = code_walk::scale(width, c, &out[..n], spare);
            code_sum::sum(width, &spare[..m], &x[e..], out)
        },
    }
}
