// The measures of every subterm of a coded term, in order of finishing, and the first that passes a limit, with its place and its end.
#![tactic(auto)]

ghost use Rattle.std.specs.Prelude.{◌≡◌, ◌<◌};
ghost use Rattle.measure.specs.Measure.{Small};
ghost use Rattle.term_measure.specs.Found.{weight_in, integer_m, letter_m, joined_m, flaw_in, judged, judged_power, Coded, MeasuredAs};

use measure::Measures;
use refusal::Flaw;
use term_tree::{Head, Operation};

// The limit of exponents.
const EXPONENT: u32 = 63;

// The magnitude of a coded integer, cut down above the limit of weights.
fn weight_in(h: u32) -> u32
    requires { h < 2147483648 }
    ensures { result ≡ weight_in h }
{
    if h == 2147483647 {
        return 1073741824;
    }
    if 1073741823 < h {
        return 2147483647 - h;
    }
    h
}

// Of a coded integer.
fn integer(h: u32) -> Measures
    requires { h < 2147483648 }
    ensures { result ≡ integer_m h }
{
    Measures {
        weight: weight_in(h),
        terms: 1,
        d0: 0,
        d1: 0,
        d2: 0,
        d3: 0,
    }
}

// Of the letter with the index i in the row.
fn letter(i: u32) -> Measures
    ensures { result ≡ letter_m i }
{
    Measures {
        weight: 1,
        terms: 1,
        d0: u32::from(i == 0),
        d1: u32::from(i == 1),
        d2: u32::from(i == 2),
        d3: u32::from(i == 3),
    }
}

// Of two subterms under an operator.
fn joined(o: Operation, a: Measures, b: Measures) -> Measures
    requires { Small a × Small b }
    ensures { result ≡ joined_m o a b }
{
    match o {
        Operation::Multiply => measure::multiply(a, b),
        Operation::Add | Operation::Subtract => measure::add(a, b),
    }
}

// The limit with the number n is passed by a subterm whose second word is v.
fn flaw_in(n: u32, v: u32) -> Flaw
    ensures { result ≡ flaw_in n v }
{
    Flaw {
        number: n,
        place: (v % 65536) as usize,
        end: (v / 65536) as usize,
    }
}

// A subterm with the measures m, whose second word is v.
fn judge(m: Measures, v: u32) -> Result<Measures, Flaw>
    ensures { result ≡ judged m v }
{
    match measure::within(m) {
        Ok(()) => Ok(m),
        Err(n) => Err(flaw_in(n, v)),
    }
}

// A power with the exponent k, of a subterm with the measures a; its second word is v.
fn judge_power(a: Measures, k: u32, v: u32) -> Result<Measures, Flaw>
    requires { Small a }
    ensures { result ≡ judged_power a k v }
{
    if EXPONENT < k {
        return Err(flaw_in(8, v));
    }
    judge(measure::raise(a, k), v)
}

// Of the coded term w.
pub fn measure_tree(w: &[u32]) -> Result<Measures, Flaw>
    requires { Coded w.now }
    ensures { MeasuredAs w.now result }
{
    let v = w[1];
    match term_tree::head_of(w[0]) {
        Head::Integer(h) => judge(integer(h), v),
        Head::Letter(i) => judge(letter(i), v),
        Head::Negative => {
            let a = measure_tree(&w[2..])?;
            judge(a, v)
        }
        Head::Power(k) => {
            let base = measure_tree(&w[2..])?;
            judge_power(base, k, v)
        }
        Head::Pair(o, k) => {
            let e = 2 + k;
            let left = measure_tree(&w[2..e])?;
            let right = measure_tree(&w[e..])?;
            judge(joined(o, left, right), v)
        }
    }
}
