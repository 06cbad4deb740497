// The text of a form in three passes: judged, measured, and made a coded form over the remainders by P.
#![tactic(auto)]

ghost use Rattle.std.specs.Prelude.{◌≡◌, ◌≤◌, ℤ, length};
ghost use Rattle.horner.specs.definitions.Form.{Form};
ghost use Rattle.code.specs.Coding.{Made};
ghost use Rattle.text.specs.definitions.Bytes.{read};
ghost use Rattle.text.specs.definitions.FormReading.{accept_form};
ghost use Rattle.form_head.specs.Heads.{Standing};
ghost use Rattle.form_build.specs.Measure.{leaf_m, later_m, pop_m, pow_m, at_least_one, MeasuredAt};
ghost use Rattle.form_build.specs.Answer.{IsRead, judged_of, limited_m};
ghost use Rattle.form_build.specs.Build.{over_p, leaf_word, ReadyAt, BuiltAt, Accepted};

use code::NODE;
use form_head::Kind;
use measure::Measures;
use refusal::Fault;

// The measures of a form, and the place behind its text.
#[derive(Clone, Copy, Debug, PartialEq, Eq)]
pub struct Measured {
    pub found: Measures,
    pub next: usize,
}

// The measures of an integer, from its magnitude.
#[tactic(auto, unfolding(text_laws::specs::laws::Picks::pick))]
fn leaf_measures(number: u32) -> Measures
    ensures { result ≡ leaf_m number }
{
    Measures {
        weight: number,
        terms: number.min(1),
        d0: 0,
        d1: 0,
        d2: 0,
        d3: 0,
    }
}

// The measures of a form one variable later.
fn later(a: Measures) -> Measures
    ensures { result ≡ later_m a }
{
    Measures {
        weight: a.weight,
        terms: a.terms,
        d0: 0,
        d1: a.d0,
        d2: a.d1,
        d3: a.d2,
    }
}

// The measures of a form i variables later.
fn popped(i: u32, a: Measures) -> Measures
    ensures { result ≡ pop_m i a }
{
    let mut r = a;
    for _ in 0..i {
        r = later(r);
    }
    r
}

// The measures of a POW, from those of its p and q.
fn joined(i: u32, a: Measures, b: Measures) -> Measures
    ensures { result ≡ pow_m i a b }
{
    Measures {
        weight: a.weight.saturating_add(b.weight).min(1073741824),
        terms: a.terms.saturating_add(b.terms).min(257),
        d0: i.saturating_add(a.d0).min(64),
        d1: a.d1.max(b.d0),
        d2: a.d2.max(b.d1),
        d3: a.d3.max(b.d2),
    }
}

// Measures the form at a place; terms counts the coefficients that are not 0.
fn measure_at(s: &[u8], at: usize) -> Measured
    requires { Standing s.now at }
    ensures { MeasuredAt s.now at result.found result.next }
{
    let head = form_head::head_at(s, at);
    let i = head.number;
    match head.kind {
        Kind::Integer | Kind::Negative => Measured {
            found: leaf_measures(i),
            next: head.next,
        },
        Kind::Pop => {
            let p = measure_at(s, head.next);
            Measured {
                found: popped(i, p.found),
                next: p.next + 1,
            }
        }
        Kind::Pow => {
            let p = measure_at(s, head.next);
            let q = measure_at(s, p.next + 1);
            Measured {
                found: joined(i, p.found, q.found),
                next: q.next + 1,
            }
        }
    }
}

// The terms of the zero polynomial are 1.
fn at_least_one(a: Measures) -> Measures
    ensures { result ≡ at_least_one a }
{
    Measures {
        terms: a.terms.max(1),
        ..a
    }
}

// A normal form by its measures: refusals 8, 9, 10.
fn limited(a: Measures) -> Result<Measures, Fault>
    ensures { result ≡ limited_m a }
{
    measure::within(a).map_err(|number| Fault { number, place: 0 })?;
    Ok(a)
}

// Judges the text of a form over a row of m: refusal 7, then 8, 9, 10; or its measures.
pub fn judge_text(m: usize, s: &[u8]) -> Result<Measures, Fault>
    requires m_bound { m ≤ 4 }
    requires read { IsRead s.now }
    ensures { result ≡ judged_of m (accept_form m s.now) }
{
    form_normal::judge_at(m, s, 0).map_err(|place| Fault { number: 7, place })?;
    let measured = measure_at(s, 0);
    limited(at_least_one(measured.found))
}

// The words of a form that was built, and the place behind its text.
#[derive(Clone, Copy, Debug, PartialEq, Eq)]
pub struct Built {
    pub words: usize,
    pub next: usize,
}

// The remainder by P of an integer, from its kind and its magnitude.
fn leaf_word(kind: Kind, number: u32) -> u32
    requires { number ≤ 2147483647 }
    ensures { result ≡ leaf_word kind number }
{
    match kind {
        Kind::Integer => number,
        Kind::Negative | Kind::Pop | Kind::Pow => 2147483647 - number,
    }
}

// Writes the code of the form at a place at the front of out.
fn build_at(s: &[u8], at: usize, out: &mut [u32]) -> Built
    requires { ReadyAt s.now at (length out.old) }
    ensures { BuiltAt s.now at result.words result.next out.new }
{
    let head = form_head::head_at(s, at);
    let number = head.number;
    match head.kind {
        Kind::Integer | Kind::Negative => {
            out[0] = leaf_word(head.kind, number);
            Built {
                words: 1,
                next: head.next,
            }
        }
        Kind::Pop => {
            let p = build_at(s, head.next, &mut out[1..]);
            out[0] = NODE + number;
            Built {
                words: 1 + p.words,
                next: p.next + 1,
            }
        }
        Kind::Pow => {
            let p = build_at(s, head.next, &mut out[1..]);
            out[0] = NODE + 64 * (p.words as u32) + number;
            let f = 1 + p.words;
            let q = build_at(s, p.next + 1, &mut out[f..]);
            Built {
                words: f + q.words,
                next: q.next + 1,
            }
        }
    }
}

// Writes the code of an accepted form over the remainders by P at the front of out, and returns how many words it takes.
pub fn build_form(m: usize, s: &[u8], out: &mut [u32]) -> usize
    requires m_bound { (m ≤ 4) × Accepted m s.now }
    requires in_bounds { (3073 ≤ length out.old) × (length out.old ≤ 33554432) }
    ensures { (f : Form ℤ) → accept_form m s.now ≡ read f → Made 0 (over_p f) result out.new }
{
    build_at(s, 0, out).words
}
