// Runs in words: the sum of a run and of a monomial times another.
#![tactic(auto)]

ghost use Rattle.std.specs.Prelude.{◌+◌, ◌<◌, ◌≤◌, length, []};
ghost use Rattle.horner.specs.definitions.Rings.{prime};
ghost use Rattle.code.specs.Coding.{Begins};
ghost use Rattle.run_merge.specs.Words.{pairs, summed, scaled, pushed, Fits, Wrote, produced, Producing};

// Writes the monomial (k, c) behind the first n words of out, unless c is 0, and returns how many words there are then.
pub fn put(out: &mut [u32], n: usize, k: u32, c: u32) -> usize
    requires { n + 2 ≤ length out.old }
    ensures { Wrote (pushed k c) out.old n result out.new }
{
    if c == 0 {
        return n;
    }
    out[n] = k;
    out[n + 1] = c;
    n + 2
}

// Writes the product of the monomial (k, c) and the run y behind the first n words of out, and returns how many words there are then.
fn rest(k: u32, c: u32, mut y: &[u32], out: &mut [u32], mut n: usize) -> usize
    requires c_lt_prime { (c < prime) × Fits k (pairs y.now) }
    requires n_in_bounds { n + length y.now ≤ length out.old }
    ensures { Wrote (scaled k c y.now) out.old n result out.new }
{
    while let [b, d, left @ ..] = y {
        n = put(out, n, k + *b, code::leaf_product(0, c, *d));
        y = left;
    }
    n
}

// Writes x plus the product of the monomial (k, c) and y at the front of out, and returns its length.
pub fn add_times(mut x: &[u32], k: u32, c: u32, mut y: &[u32], out: &mut [u32]) -> usize
    requires fits { Fits 0 (pairs x.now) }
    requires c_lt_prime { (c < prime) × Fits k (pairs y.now) }
    requires y_in_bounds { length x.now + length y.now ≤ length out.old }
    ensures { Begins result (summed k c x.now y.now) out.new }
{
    let mut n: usize = 0;
    while let [a, v, x_left @ ..] = x {
        let [b, d, y_left @ ..] = y else {
            return rest(0, 1, x, out, n);
        };
        let a = *a;
        let b = k + *b;
        if a > b {
            n = put(out, n, a, *v);
            x = x_left;
        } else {
            let d = code::leaf_product(0, c, *d);
            if a == b {
                n = put(out, n, a, code::leaf_sum(0, *v, d));
                x = x_left;
            } else {
                n = put(out, n, b, d);
            }
            y = y_left;
        }
    }
    rest(k, c, y, out, n)
}

// Writes the product of x and y at the front of out, and returns its length; other is for the sums on the way.
pub fn product(mut x: &[u32], y: &[u32], out: &mut [u32], other: &mut [u32]) -> usize
    requires producing { Producing [] (pairs x.now) y.now (length other.old) }
    requires other_in_bounds { length other.old ≤ length out.old }
    ensures { Begins result (produced [] (pairs x.now) y.now) out.new }
{
    let mut n: usize = 0;
    while let [k, c, left @ ..] = x {
        n = add_times(&out[..n], *k, *c, y, other);
        code::copy(&other[..n], out);
        x = left;
    }
    n
}
