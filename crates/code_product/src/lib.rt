// The product of two coded forms (Definition 11). `product` goes by the head words. The functions below it take a POP in its parts, its
// exponent and its p, so that (POP i-j p) and pop(1, s) are never written out, and a POW in its three. Each writes its result at the front
// of out and returns its length; t and u are for work. The three are no struct of `&mut`s: `out` is handed on from behind a word or a form,
// and t and out change places, so that every call would put another struct together.
#![tactic(auto)]

ghost use Rattle.std.specs.Prelude.{◌+◌, ◌-◌, ◌≤◌, length, take};
ghost use Rattle.horner.specs.definitions.Form.{pop, pow, lower};
ghost use Rattle.code.specs.Coding.{Coded, Made, dec};
ghost use Rattle.code.specs.Operations.{pop_of, sum_of};
ghost use Rattle.code_room.specs.Fit.{prod_of, lead_of, cross_of, Held};
ghost use Rattle.code_room.specs.Tables.{Space, PopSpace, CrossSpace};

use code::Head;

// The product of the forms x and y.
#[cycle(products)]
pub fn product(
    width: u32,
    x: &[u32],
    y: &[u32],
    out: &mut [u32],
    t: &mut [u32],
    u: &mut [u32],
) -> usize
    requires coded { Coded width x.now × Coded width y.now }
    requires space { Space width (dec width x.now) (dec width y.now) (length out.old) (length t.old) (length u.old) }
    ensures { Made width (prod_of width (dec width x.now) (dec width y.now)) result out.new }
{
    match code::head_of(x[0]) {
        Head::Leaf(a) => code_walk::scale(width, a, y, out),
        Head::Pop(i) => mul_pop(width, i, &x[1..], y, out, t, u),
        Head::Pow(i, m) => {
            let (p, q) = x[1..].split_at(m);
            match code::head_of(y[0]) {
                Head::Leaf(b) => code_walk::scale(width, b, x, out),
                Head::Pop(j) => mul_pop_pow(width, j, &y[1..], i, p, q, out, t, u),
                Head::Pow(j, n) => {
                    let (r, s) = y[1..].split_at(n);
                    mul_pows(width, i, p, q, j, r, s, out, t, u)
                }
            }
        }
    }
}

// (POP i p) and y
#[cycle(products)]
fn mul_pop(
    width: u32,
    i: u32,
    p: &[u32],
    y: &[u32],
    out: &mut [u32],
    t: &mut [u32],
    u: &mut [u32],
) -> usize
    requires coded { Coded width p.now × Coded width y.now }
    requires pop_space { PopSpace width (pop i (dec width p.now)) (dec width y.now) (length out.old) (length t.old) (length u.old) }
    ensures { Made width (prod_of width (pop i (dec width p.now)) (dec width y.now)) result out.new }
{
    match code::head_of(y[0]) {
        Head::Leaf(b) => code_cross::scale_pop(width, b, i, p, out),
        Head::Pop(j) => mul_pops(width, i, p, j, &y[1..], out, t, u),
        Head::Pow(j, n) => {
            let (r, s) = y[1..].split_at(n);
            mul_pop_pow(width, i, p, j, r, s, out, t, u)
        }
    }
}

// x and (POP i p). No twin of `mul_pop`: that the product is the same with its factors exchanged is no theorem here.
#[cycle(products)]
fn mul_any_pop(
    width: u32,
    x: &[u32],
    i: u32,
    p: &[u32],
    out: &mut [u32],
    t: &mut [u32],
    u: &mut [u32],
) -> usize
    requires coded { Coded width x.now × Coded width p.now }
    requires pop_space { PopSpace width (dec width x.now) (pop i (dec width p.now)) (length out.old) (length t.old) (length u.old) }
    ensures { Made width (prod_of width (dec width x.now) (pop i (dec width p.now))) result out.new }
{
    match code::head_of(x[0]) {
        Head::Leaf(a) => code_cross::scale_pop(width, a, i, p, out),
        Head::Pop(j) => mul_pops(width, j, &x[1..], i, p, out, t, u),
        Head::Pow(j, n) => {
            let (q, r) = x[1..].split_at(n);
            mul_pop_pow(width, i, p, j, q, r, out, t, u)
        }
    }
}

// (POP i p) and (POP j q)
#[cycle(products)]
fn mul_pops(
    width: u32,
    i: u32,
    p: &[u32],
    j: u32,
    q: &[u32],
    out: &mut [u32],
    t: &mut [u32],
    u: &mut [u32],
) -> usize
    requires coded { Coded width p.now × Coded width q.now }
    requires pop_space { PopSpace width (pop i (dec width p.now)) (pop j (dec width q.now)) (length out.old) (length t.old)
        (length u.old) }
    ensures { Made width (prod_of width (pop i (dec width p.now)) (pop j (dec width q.now))) result
        out.new }
{
    if j <= i {
        mul_pops_ge(width, i, p, j, q, out, t, u)
    } else {
        mul_pops_ge(width, j, q, i, p, out, t, u)
    }
}

// (POP i p) and (POP j q), with j at most i
#[cycle(products)]
fn mul_pops_ge(
    width: u32,
    i: u32,
    p: &[u32],
    j: u32,
    q: &[u32],
    out: &mut [u32],
    t: &mut [u32],
    u: &mut [u32],
) -> usize
    requires coded { Coded width p.now × Coded width q.now }
    requires pop_space { PopSpace width (pop i (dec width p.now)) (pop j (dec width q.now)) (length out.old) (length t.old)
        (length u.old) }
    requires j_le_i { j ≤ i }
    ensures { Made width (prod_of width (pop i (dec width p.now)) (pop j (dec width q.now))) result
        out.new }
{
    let n = mul_lower(width, i - j, p, q, &mut out[1..], t, u);
    code::make_pop(width, out, j, n)
}

// (POP i p) and (POW j r s)
#[cycle(products)]
fn mul_pop_pow(
    width: u32,
    i: u32,
    p: &[u32],
    j: u32,
    r: &[u32],
    s: &[u32],
    out: &mut [u32],
    t: &mut [u32],
    u: &mut [u32],
) -> usize
    requires coded { Coded width p.now × (Coded width r.now × Coded width s.now) }
    requires pop_space { PopSpace width (pop i (dec width p.now)) (pow j (dec width r.now) (dec width s.now)) (length out.old)
        (length t.old) (length u.old) }
    ensures { Made width (prod_of width (pop i (dec width p.now)) (pow j (dec width r.now) (dec width s.now))) result
        out.new }
{
    let a = mul_pop(width, i, p, r, &mut out[1..], t, u);
    let f = 1 + a;
    let b = mul_lower(width, i - 1, p, s, &mut out[f..], t, u);
    code::make_pow(width, out, j, a, b)
}

// (POP k p) and y, or p and y where k is 0
#[cycle(products)]
fn mul_lower(
    width: u32,
    k: u32,
    p: &[u32],
    y: &[u32],
    out: &mut [u32],
    t: &mut [u32],
    u: &mut [u32],
) -> usize
    requires coded { Coded width p.now × Coded width y.now }
    requires space { Space width (lower k (dec width p.now)) (dec width y.now) (length out.old) (length t.old) (length u.old) }
    ensures { Made width (prod_of width (lower k (dec width p.now)) (dec width y.now)) result out.new }
{
    if k == 0 {
        product(width, p, y, out, t, u)
    } else {
        mul_pop(width, k, p, y, out, t, u)
    }
}

// (POW i p q) and (POW j r s): the first summand of case (6) in out, and the others added to it
#[cycle(products)]
fn mul_pows(
    width: u32,
    i: u32,
    p: &[u32],
    q: &[u32],
    j: u32,
    r: &[u32],
    s: &[u32],
    out: &mut [u32],
    t: &mut [u32],
    u: &mut [u32],
) -> usize
    requires coded { (Coded width p.now × Coded width q.now) × (Coded width r.now × Coded width s.now) }
    requires space { Space width (pow i (dec width p.now) (dec width q.now)) (pow j (dec width r.now) (dec width s.now))
        (length out.old) (length t.old) (length u.old) }
    ensures { Made width (prod_of width (pow i (dec width p.now) (dec width q.now))
        (pow j (dec width r.now) (dec width s.now))) result out.new }
{
    let a = mul_lead(width, i, p, q, j, r, s, out, t, u);
    let n = add_cross(width, i, p, s, out, a, t, u);
    add_cross(width, j, r, q, out, n, t, u)
}

// pow(i + j, p r, q s), the first summand of case (6)
#[cycle(products)]
fn mul_lead(
    width: u32,
    i: u32,
    p: &[u32],
    q: &[u32],
    j: u32,
    r: &[u32],
    s: &[u32],
    out: &mut [u32],
    t: &mut [u32],
    u: &mut [u32],
) -> usize
    requires coded { (Coded width p.now × Coded width q.now) × (Coded width r.now × Coded width s.now) }
    requires space { Space width (pow i (dec width p.now) (dec width q.now)) (pow j (dec width r.now) (dec width s.now))
        (length out.old) (length t.old) (length u.old) }
    ensures { Made width (lead_of width i j (dec width p.now) (dec width q.now) (dec width r.now)
        (dec width s.now)) result out.new }
{
    let a = product(width, p, r, &mut out[1..], t, u);
    let f = 1 + a;
    let b = product(width, q, s, &mut out[f..], t, u);
    code::make_pow(width, out, i + j, a, b)
}

// The sum of the form at the front of out, of a words, and of pow(i, p pop(1, s), 0), another summand of case (6). That is made in t.
#[cycle(products)]
fn add_cross(
    width: u32,
    i: u32,
    p: &[u32],
    s: &[u32],
    out: &mut [u32],
    a: usize,
    t: &mut [u32],
    u: &mut [u32],
) -> usize
    requires coded { Coded width p.now × Coded width s.now }
    requires a_bound { (a ≤ 3073) × Coded width (take a out.old) }
    requires cross_space { CrossSpace width i (dec width p.now) (dec width s.now) (length t.old) (length out.old - a) (length u.old) }
    requires held { Held width (sum_of width (dec width (take a out.old)) (cross_of width i (dec width p.now) (dec width s.now))) }
    ensures { Made width (sum_of width (dec width (take a out.old))
        (cross_of width i (dec width p.now) (dec width s.now))) result out.new }
{
    let n = mul_by_pop(width, p, s, &mut t[1..], &mut out[a..], u);
    code_cross::sum_cross(width, i, out, a, t, n, u)
}

// p and pop(1, s)
#[cycle(products)]
fn mul_by_pop(
    width: u32,
    p: &[u32],
    s: &[u32],
    out: &mut [u32],
    t: &mut [u32],
    u: &mut [u32],
) -> usize
    requires coded { Coded width p.now × Coded width s.now }
    requires pop_space { PopSpace width (dec width p.now) (pop_of width 1 (dec width s.now)) (length out.old) (length t.old)
        (length u.old) }
    ensures { Made width (prod_of width (dec width p.now) (pop_of width 1 (dec width s.now))) result
        out.new }
{
    match code::head_of(s[0]) {
        Head::Leaf(b) => code_walk::scale(width, b, p, out),
        Head::Pop(j) => mul_any_pop(width, p, 1 + j, &s[1..], out, t, u),
        Head::Pow(..) => mul_any_pop(width, p, 1, s, out, t, u),
    }
}
