// Document 01's table on measures, of sums, products and powers, and the first limit that measures pass.
#![tactic(auto)]

ghost use Rattle.std.specs.Prelude.{◌≡◌, ◌+◌, ◌*◌, ◌^◌, ◌≤◌, ◌<◌, min, max};
ghost use Rattle.measure.specs.Measure.{box_m, add_m, mul_m, pow_m, limit_m, Small, Within};

// Of a subterm: its weight, its terms and its degree in each of four variables.
#[derive(Clone, Copy, Debug, PartialEq, Eq)]
pub struct Measures {
    pub weight: u32,
    pub terms: u32,
    pub d0: u32,
    pub d1: u32,
    pub d2: u32,
    pub d3: u32,
}

fn cut_product(a: u32, b: u32, limit: u32) -> u32
    ensures { result ≡ min (a * b) limit }
{
    let p = u64::from(a) * u64::from(b);
    p.min(u64::from(limit)) as u32
}

// a to the k, cut down to the limit.
fn cut_power(a: u32, k: u32, limit: u32) -> u32
    requires { 1 ≤ limit }
    ensures { result ≡ min (a ^ k) limit }
{
    let mut r = 1;
    for _i in 0..k {
        r = cut_product(a, r, limit);
    }
    r
}

// The product, over four variables, of degree plus 1, cut down to 16,777,216, which degrees of at most 63 do not pass.
fn box_of(a: u32, b: u32, c: u32, d: u32) -> u32
    requires { (a ≤ 4000) × ((b ≤ 4000) × ((c ≤ 4000) × (d ≤ 4000))) }
    ensures { result ≡ box_m a b c d }
{
    let z = cut_product(c + 1, d + 1, 16777216);
    let y = cut_product(b + 1, z, 16777216);
    cut_product(a + 1, y, 16777216)
}

// The sum or the difference of two subterms.
pub fn add(a: Measures, b: Measures) -> Measures
    requires { Small a × Small b }
    ensures { result ≡ add_m a b }
{
    let d0 = a.d0.max(b.d0);
    let d1 = a.d1.max(b.d1);
    let d2 = a.d2.max(b.d2);
    let d3 = a.d3.max(b.d3);
    Measures {
        weight: a.weight + b.weight,
        terms: (a.terms + b.terms).min(box_of(d0, d1, d2, d3)),
        d0,
        d1,
        d2,
        d3,
    }
}

// The product.
pub fn multiply(a: Measures, b: Measures) -> Measures
    requires { Small a × Small b }
    ensures { result ≡ mul_m a b }
{
    let d0 = a.d0 + b.d0;
    let d1 = a.d1 + b.d1;
    let d2 = a.d2 + b.d2;
    let d3 = a.d3 + b.d3;
    Measures {
        weight: cut_product(a.weight, b.weight, 1073741824),
        terms: (a.terms * b.terms).min(box_of(d0, d1, d2, d3)),
        d0,
        d1,
        d2,
        d3,
    }
}

// The k-th power.
pub fn raise(a: Measures, k: u32) -> Measures
    requires { Small a × (k ≤ 63) }
    ensures { result ≡ pow_m a k }
{
    let d0 = k * a.d0;
    let d1 = k * a.d1;
    let d2 = k * a.d2;
    let d3 = k * a.d3;
    Measures {
        weight: cut_power(a.weight, k, 1073741824),
        terms: cut_power(a.terms, k, 16777216).min(box_of(d0, d1, d2, d3)),
        d0,
        d1,
        d2,
        d3,
    }
}

// 0, or the number of the limit that the measures pass: the lowest.
pub fn limit_of(m: Measures) -> u32
    ensures { result ≡ limit_m m }
{
    if 63 < m.d0 {
        return 8;
    }
    if 63 < m.d1 {
        return 8;
    }
    if 63 < m.d2 {
        return 8;
    }
    if 63 < m.d3 {
        return 8;
    }
    if 1073741823 < m.weight {
        return 9;
    }
    if 256 < m.terms {
        return 10;
    }
    0
}

// Whether the measures are within the limits; if not, the lowest number of a limit that they pass.
pub fn within(m: Measures) -> Result<(), u32>
    ensures { Within m result }
{
    match limit_of(m) {
        0 => Ok(()),
        number => Err(number),
    }
}
