// The sum of two coded forms (Definition 9). `sum` goes by the first form's head word. The functions below it take a form in its parts: a
// pop as its exponent and its p, a pow as its exponent, its p and its q. So (POP i-j p) and (POW i-j p 0) are never written out.
#![tactic(auto)]

ghost use Rattle.std.specs.Prelude.{◌+◌, ◌<◌, length};
ghost use Rattle.horner.specs.definitions.Form.{int, pop, pow};
ghost use Rattle.code.specs.Widths.{modulus, leaf};
ghost use Rattle.code.specs.Coding.{Coded, Good, Made, RoomUnder, dec};
ghost use Rattle.code.specs.Operations.{sum_of};

use code::{Head, NODE};

// The sum of a leaf and the form y.
fn add_int(width: u32, a: u32, y: &[u32], out: &mut [u32]) -> usize
    requires a_bound { a < modulus width }
    requires coded { Coded width y.now }
    requires room_under { RoomUnder (1 + length y.now) out.old }
    ensures { Made width (sum_of width (int (leaf width a)) (dec width y.now)) result out.new }
{
    match code::head_of(y[0]) {
        Head::Leaf(b) => {
            out[0] = code::leaf_sum(width, a, b);
            1
        },
        Head::Pop(_) => {
            out[0] = y[0];
            let n = add_int(width, a, &y[1..], &mut out[1..]);
            1 + n
        },
        Head::Pow(i, s) => {
            let e = 1 + s;
            let f = code::put_pow(i, &y[1..e], out);
            let n = add_int(width, a, &y[e..], &mut out[f..]);
            f + n
        },
    }
}

// The sum of the forms x and y.
#[cycle(sums)]
pub fn sum(width: u32, x: &[u32], y: &[u32], out: &mut [u32]) -> usize
    requires coded { Coded width x.now × Coded width y.now }
    requires room_under { RoomUnder (length x.now + length y.now) out.old }
    ensures { Made width (sum_of width (dec width x.now) (dec width y.now)) result out.new }
{
    match code::head_of(x[0]) {
        Head::Leaf(a) => add_int(width, a, y, out),
        Head::Pop(i) => add_pop(width, i, &x[1..], y, out),
        Head::Pow(i, s) => {
            let e = 1 + s;
            add_pow(width, i, &x[1..e], &x[e..], y, out)
        },
    }
}

// (POP i p) and y
#[cycle(sums)]
fn add_pop(width: u32, i: u32, p: &[u32], y: &[u32], out: &mut [u32]) -> usize
    requires coded { Coded width p.now × Coded width y.now }
    requires good { Good width (pop i (dec width p.now)) }
    requires room_under { RoomUnder (1 + length p.now + length y.now) out.old }
    ensures { Made width (sum_of width (pop i (dec width p.now)) (dec width y.now)) result out.new }
{
    match code::head_of(y[0]) {
        Head::Leaf(a) => {
            out[0] = NODE + i;
            let n = add_int(width, a, p, &mut out[1..]);
            1 + n
        },
        Head::Pop(j) => add_pops(width, i, p, j, &y[1..], out),
        Head::Pow(j, s) => {
            let e = 1 + s;
            add_pop_pow(width, i, p, j, &y[1..e], &y[e..], out)
        },
    }
}

// (POP i p) and (POP j q)
#[cycle(sums)]
fn add_pops(width: u32, i: u32, p: &[u32], j: u32, q: &[u32], out: &mut [u32]) -> usize
    requires coded { Coded width p.now × Coded width q.now }
    requires good { Good width (pop i (dec width p.now)) × Good width (pop j (dec width q.now)) }
    requires room_under { RoomUnder (2 + length p.now + length q.now) out.old }
    ensures { Made width (sum_of width (pop i (dec width p.now)) (pop j (dec width q.now))) result
        out.new }
{
    if i < j {
        return add_pops(width, j, q, i, p, out);
    }
    if i == j {
        let n = sum(width, p, q, &mut out[1..]);
        return code::make_pop(width, out, i, n);
    }
    let n = add_pop(width, i - j, p, q, &mut out[1..]);
    code::make_pop(width, out, j, n)
}

// (POP i p) and (POW j q r): (POP i-1 p), or p itself, is added to r
#[cycle(sums)]
fn add_pop_pow(
    width: u32,
    i: u32,
    p: &[u32],
    j: u32,
    q: &[u32],
    r: &[u32],
    out: &mut [u32],
) -> usize
    requires coded { (Coded width p.now) × (Coded width q.now × Coded width r.now) }
    requires good { Good width (pop i (dec width p.now)) × Good width (pow j (dec width q.now) (dec width r.now)) }
    requires room_under { RoomUnder (2 + length p.now + length q.now + length r.now) out.old }
    ensures { Made width (sum_of width (pop i (dec width p.now))
        (pow j (dec width q.now) (dec width r.now))) result out.new }
{
    let f = code::put_pow(j, q, out);
    if i == 1 {
        let n = sum(width, r, p, &mut out[f..]);
        return f + n;
    }
    let n = add_pop(width, i - 1, p, r, &mut out[f..]);
    f + n
}

// (POW i p q) and y
#[cycle(sums)]
fn add_pow(width: u32, i: u32, p: &[u32], q: &[u32], y: &[u32], out: &mut [u32]) -> usize
    requires coded { (Coded width p.now) × (Coded width q.now × Coded width y.now) }
    requires good { Good width (pow i (dec width p.now) (dec width q.now)) }
    requires room_under { RoomUnder (1 + length p.now + length q.now + length y.now) out.old }
    ensures { Made width (sum_of width (pow i (dec width p.now) (dec width q.now))
        (dec width y.now)) result out.new }
{
    match code::head_of(y[0]) {
        Head::Leaf(a) => {
            let f = code::put_pow(i, p, out);
            let n = add_int(width, a, q, &mut out[f..]);
            f + n
        },
        Head::Pop(j) => add_pop_pow(width, j, &y[1..], i, p, q, out),
        Head::Pow(j, s) => {
            let e = 1 + s;
            add_pows(width, i, p, q, j, &y[1..e], &y[e..], out)
        },
    }
}

// (POW i p q) and (POW j r s)
#[cycle(sums)]
fn add_pows(
    width: u32,
    i: u32,
    p: &[u32],
    q: &[u32],
    j: u32,
    r: &[u32],
    s: &[u32],
    out: &mut [u32],
) -> usize
    requires coded { (Coded width p.now × Coded width q.now) × (Coded width r.now × Coded width s.now) }
    requires good { Good width (pow i (dec width p.now) (dec width q.now))
        × Good width (pow j (dec width r.now) (dec width s.now)) }
    requires room_under { RoomUnder (2 + length p.now + length q.now + length r.now + length s.now) out.old }
    ensures { Made width (sum_of width (pow i (dec width p.now) (dec width q.now))
        (pow j (dec width r.now) (dec width s.now))) result out.new }
{
    if i < j {
        return add_pows(width, j, r, s, i, p, q, out);
    }
    let a = if i == j {
        sum(width, p, r, &mut out[1..])
    } else {
        add_pow(width, i - j, p, &[0], r, &mut out[1..])
    };
    let f = 1 + a;
    let b = sum(width, q, s, &mut out[f..]);
    code::make_pow(width, out, j, a, b)
}
