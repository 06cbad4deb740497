// The powers of a coded form (Definition 12), by repeated products: x stands at the front of a table, and the power so far behind it.
// Their lengths stand beside the table, since memory is fixed: there is no heap for a Vec of each.
#![tactic(auto)]

ghost use Rattle.std.specs.Prelude.{◌+◌, ◌≤◌, length, take, drop};
ghost use Rattle.code.specs.Coding.{Coded, Made, dec};
ghost use Rattle.code_room.specs.Fit.{prod_of};
ghost use Rattle.code_room.specs.Tables.{Space};
ghost use Rattle.code_power.specs.Raise.{raise_of, Raising};

// s holds a form of n words, and then one of m. Writes their product at the front of out, and returns its length.
fn multiply(
    width: u32,
    s: &[u32],
    n: usize,
    m: usize,
    out: &mut [u32],
    t: &mut [u32],
    u: &mut [u32],
) -> usize
    requires m_in_bounds { n + m ≤ length s.now }
    requires coded { Coded width (take n s.now) × Coded width (take m (drop n s.now)) }
    requires space { Space width (dec width (take n s.now)) (dec width (take m (drop n s.now))) (length out.old) (length t.old)
        (length u.old) }
    ensures { Made width (prod_of width (dec width (take n s.now)) (dec width (take m (drop n s.now)))) result
        out.new }
{
    let (x, y) = s[..n + m].split_at(n);
    code_product::product(width, x, y, out, t, u)
}

// The form at the front of s, of n words, to the k-th power, in its place.
pub fn raise(
    width: u32,
    s: &mut [u32],
    n: usize,
    k: u32,
    out: &mut [u32],
    t: &mut [u32],
    u: &mut [u32],
) -> usize
    requires coded { Coded width (take n s.old) }
    requires raising { Raising width (dec width (take n s.old)) k n (length s.old) (length out.old) (length t.old) (length u.old) }
    ensures { Made width (raise_of width (dec width (take n s.old)) k) result s.new }
{
    if k == 0 {
        s[0] = 1;
        return 1;
    }
    s[n] = 1;
    let mut m = 1;
    for _i in 0..k - 1 {
        m = multiply(width, s, n, m, out, t, u);
        code::copy(&out[..m], &mut s[n..]);
    }
    m = multiply(width, s, n, m, out, t, u);
    code::copy(&out[..m], s);
    m
}
