// What the functions that multiply forms rest on: a summand pow(i, x, 0) added to the form that stands at the front of a table, and a leaf
// times (POP i p). The length of what stands in a table is handed on beside it, since memory is fixed: there is no heap for a Vec of it.
#![tactic(auto)]

ghost use Rattle.std.specs.Prelude.{◌+◌, ◌<◌, ◌≤◌, length, take, drop};
ghost use Rattle.horner.specs.definitions.Form.{pop};
ghost use Rattle.code.specs.Widths.{modulus};
ghost use Rattle.code.specs.Coding.{Coded, Good, Made, RoomUnder, dec, enc};
ghost use Rattle.code.specs.Operations.{pow_of, sum_of, scale_of, zero_of};

// The sum of the form at the front of out, of a words, and of pow(i, x, 0), where x stands in the n words of t behind the first.
pub fn sum_cross(
    width: u32,
    i: u32,
    out: &mut [u32],
    a: usize,
    t: &mut [u32],
    n: usize,
    u: &mut [u32],
) -> usize
    requires a_in_bounds { (a ≤ length out.old) × Coded width (take a out.old) }
    requires n_in_bounds { ((2 + n ≤ length t.old) × (length t.old ≤ 33554432)) × Coded width (take n (drop 1 t.old)) }
    requires i_nonzero { 0 < i }
    requires good { Good width (pow_of width i (dec width (take n (drop 1 t.old))) (zero_of width)) }
    requires width_in_bounds { length (enc width (sum_of width (dec width (take a out.old))
        (pow_of width i (dec width (take n (drop 1 t.old))) (zero_of width)))) ≤ length out.old }
    requires room_under { RoomUnder (a + length (enc width (pow_of width i (dec width (take n (drop 1 t.old))) (zero_of width)))) u.old }
    ensures { Made width (sum_of width (dec width (take a out.old))
        (pow_of width i (dec width (take n (drop 1 t.old))) (zero_of width))) result out.new }
{
    let f = 1 + n;
    t[f] = 0;
    let b = code::make_pow(width, t, i, n, 1);
    sum_back(width, out, a, &t[..b], u)
}

// The sum of the form at the front of out, of n words, and of y: it is made in u, and copied back to out.
fn sum_back(width: u32, out: &mut [u32], n: usize, y: &[u32], u: &mut [u32]) -> usize
    requires n_in_bounds { n ≤ length out.old }
    requires coded { Coded width (take n out.old) × Coded width y.now }
    requires y_in_bounds { length (enc width (sum_of width (dec width (take n out.old)) (dec width y.now))) ≤ length out.old }
    requires room_under { RoomUnder (n + length y.now) u.old }
    ensures { Made width (sum_of width (dec width (take n out.old)) (dec width y.now)) result out.new }
{
    let l = code_sum::sum(width, &out[..n], y, u);
    code::copy(&u[..l], out);
    l
}

// The product of a leaf and (POP i p).
pub fn scale_pop(width: u32, a: u32, i: u32, p: &[u32], out: &mut [u32]) -> usize
    requires a_bound { a < modulus width }
    requires coded { Coded width p.now }
    requires good { Good width (pop i (dec width p.now)) }
    requires room_under { RoomUnder (2 + length p.now) out.old }
    ensures { Made width (scale_of width a (pop i (dec width p.now))) result out.new }
{
    let n = code_walk::scale(width, a, p, &mut out[1..]);
    code::make_pop(width, out, i, n)
}
