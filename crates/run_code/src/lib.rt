// The coded form of a run in words.
#![tactic(auto)]

ghost use Rattle.std.specs.Prelude.{◌≡◌, ◌+◌, ◌/◌, ◌^◌, ◌≤◌, length};
ghost use Rattle.code.specs.Coding.{Made, enc};
ghost use Rattle.run_merge.specs.Words.{pairs};
ghost use Rattle.run.specs.Merging.{cmpℕ, Falls};
ghost use Rattle.run_code.specs.Decoding.{form_at, Placed, Even, Cut};

// 64 to the m: what 1 in the first of m + 1 exponents adds to a key.
fn unit_of(m: u32) -> u32
    requires { m ≤ 3 }
    ensures { result ≡ 64 ^ m }
{
    1 << (6 * m)
}

// The first of m + 1 exponents that a key has over its base: how many units are in it.
fn first_exponent(m: u32, key: u32) -> u32
    requires { m ≤ 3 }
    ensures { result ≡ key / 64 ^ m }
{
    key >> (6 * m)
}

// How many words of x have keys from limit on.
fn cut(x: &[u32], limit: u32) -> usize
    requires { Falls cmpℕ (pairs x.now) }
    ensures { Cut limit x.now result }
{
    2 * x.as_chunks::<2>().0.partition_point(|m| m[0] >= limit)
}

// Writes the code of the form of the run x, in n variables, at the front of out, and returns its length.
pub fn to_code(x: &[u32], base: u32, n: u32, out: &mut [u32]) -> usize
    requires placed { Placed n base (pairs x.now) × Even (length x.now) }
    requires n_bound { (n ≤ 4) × (base ≤ 16777216) }
    requires n_in_bounds { (length (enc 0 (form_at n base x.now)) + n ≤ length out.old) × (length out.old ≤ 33554432) }
    ensures { Made 0 (form_at n base x.now) result out.new }
{
    if x.len() < 2 {
        out[0] = 0;
        return 1;
    }
    if n == 0 {
        out[0] = x[1];
        return 1;
    }
    let m = n - 1;
    let unit = unit_of(m);
    let e = cut(x, base + unit);
    if e == 0 {
        let a = to_code(x, base, m, &mut out[1..]);
        return code::make_pop(0, out, 1, a);
    }
    let i = first_exponent(m, x[e - 2] - base);
    let a = to_code(&x[..e], base + i * unit, n, &mut out[1..]);
    let f = 1 + a;
    let b = to_code(&x[e..], base, m, &mut out[f..]);
    code::make_pow(0, out, i, a, b)
}
