// Functions that walk over one coded form: its negative, its value at a point, its product with a leaf, and the same form in another ring.
#![tactic(auto)]

ghost use Rattle.std.specs.Prelude.{◌≡◌, ℕ, ◌+◌, ◌<◌, ◌≤◌, length};
ghost use Rattle.horner.specs.definitions.Form.{is_zero};
ghost use Rattle.code.specs.Widths.{modulus, ring_of, leaf};
ghost use Rattle.code.specs.Coding.{Coded, Made, RoomUnder, dec};
ghost use Rattle.code.specs.Operations.{negate_of, value_of, scale_of};
ghost use Rattle.code_walk.specs.Points.{Leaves};
ghost use Rattle.code_walk.specs.Shapes.{Decides};
ghost use Rattle.code_walk.specs.Carrying.{carried, carry_of, reduce_of};

use code::Head;

// Writes the negative of the form x (Definition 10) at the front of out, and returns its length.
pub fn negate(width: u32, x: &[u32], out: &mut [u32]) -> usize
    requires coded { Coded width x.now }
    requires x_in_bounds { length x.now ≤ length out.old }
    ensures { Made width (negate_of width (dec width x.now)) result out.new }
{
    match code::head_of(x[0]) {
        Head::Leaf(a) => {
            out[0] = code::leaf_negation(width, a);
            1
        },
        Head::Pop(_) => {
            out[0] = x[0];
            let n = negate(width, &x[1..], &mut out[1..]);
            1 + n
        },
        Head::Pow(_, s) => {
            out[0] = x[0];
            let e = 1 + s;
            let n = negate(width, &x[1..e], &mut out[1..]);
            let f = 1 + n;
            let m = negate(width, &x[e..], &mut out[f..]);
            f + m
        },
    }
}

// The value of the form x at a point of leaves (Definition 5).
pub fn value(width: u32, x: &[u32], point: &[u32]) -> u32
    requires coded { Coded width x.now }
    requires leaves { Leaves width point.now }
    ensures { (result ≡ value_of width (dec width x.now) point.now) × (result < modulus width) }
{
    match code::head_of(x[0]) {
        Head::Leaf(a) => a,
        Head::Pop(i) => {
            let k = (i as usize).min(point.len());
            value(width, &x[1..], &point[k..])
        },
        Head::Pow(..) if point.is_empty() => 0,
        Head::Pow(i, s) => {
            let n = code::leaf_power(width, point[0], i);
            let e = 1 + s;
            let a = value(width, &x[1..e], point);
            let b = value(width, &x[e..], &point[1..]);
            code::leaf_sum(width, code::leaf_product(width, n, a), b)
        },
    }
}

// A leaf read as the integer nearest to 0 that it stands for, and reduced by the modulus of another width.
fn leaf_carried(from: u32, width: u32, x: u32) -> u32
    requires { x < modulus from }
    ensures { (result ≡ (carried from width (leaf from x)).0) × (result < modulus width) }
{
    if from == width {
        return x;
    }
    let d = code::modulus_of(from) - x;
    if x < d {
        return code::leaf_of(width, x as u64);
    }
    code::leaf_negation(width, code::leaf_of(width, d as u64))
}

// The form y carried to the ring of another width, each leaf times a.
fn carry(from: u32, width: u32, a: u32, y: &[u32], out: &mut [u32]) -> usize
    requires a_bound { a < modulus width }
    requires coded { Coded from y.now }
    requires room_under { RoomUnder (1 + length y.now) out.old }
    ensures { Made width (carry_of from width a (dec from y.now)) result out.new }
{
    match code::head_of(y[0]) {
        Head::Leaf(x) => {
            out[0] = code::leaf_product(width, a, leaf_carried(from, width, x));
            1
        },
        Head::Pop(i) => {
            let n = carry(from, width, a, &y[1..], &mut out[1..]);
            code::make_pop(width, out, i, n)
        },
        Head::Pow(i, s) => {
            let e = 1 + s;
            let n = carry(from, width, a, &y[1..e], &mut out[1..]);
            let f = 1 + n;
            let m = carry(from, width, a, &y[e..], &mut out[f..]);
            code::make_pow(width, out, i, n, m)
        },
    }
}

// The product of a leaf and the form y (Definition 11 (1)).
pub fn scale(width: u32, a: u32, y: &[u32], out: &mut [u32]) -> usize
    requires a_bound { a < modulus width }
    requires coded { Coded width y.now }
    requires room_under { RoomUnder (1 + length y.now) out.old }
    ensures { Made width (scale_of width a (dec width y.now)) result out.new }
{
    carry(width, width, a, y, out)
}

// The form over the ring of a width of a form over the remainders by P.
pub fn reduce(width: u32, x: &[u32], out: &mut [u32]) -> usize
    requires coded { Coded 0 x.now }
    requires room_under { RoomUnder (1 + length x.now) out.old }
    ensures { Made width (reduce_of width (dec 0 x.now)) result out.new }
{
    carry(0, width, 1, x, out)
}

// Whether x and y are one code, and so of one form.
pub fn same(x: &[u32], y: &[u32]) -> bool
    ensures decides { Decides result (x.now ≡ y.now) }
    ensures by_index { (w : ℕ) → Coded w x.now → Coded w y.now → Decides result
        (dec w x.now ≡ dec w y.now) }
{
    x == y
}

// Whether the form x is 0.
pub fn is_zero(width: u32, x: &[u32]) -> bool
    requires { Coded width x.now }
    ensures { result ≡ is_zero (ring_of width) (dec width x.now) }
{
    x[0] == 0
}
