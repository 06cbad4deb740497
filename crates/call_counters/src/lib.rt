// The call `counters`: two terms as wrapping counters.
#![tactic(auto)]

ghost use Rattle.std.specs.Prelude.{true, ◌+◌, ◌≡◌, length, take, drop};
ghost use Rattle.code.specs.Coding.{dec};
ghost use Rattle.code_counters.specs.Same.{same_of};
ghost use Rattle.text.specs.definitions.Bytes.{is_row};
ghost use Rattle.reply.specs.definitions.Reply.{work};
ghost use Rattle.reply.specs.definitions.Calls.{CountersCall};
ghost use Rattle.code.specs.Lengths.{Full};
ghost use Rattle.run_code.specs.Decoding.{form_at};
ghost use Rattle.door_terms.specs.Terms.{Paired};
ghost use Rattle.door_compare.specs.Compare.{Sides, Wide};
ghost use Rattle.call_counters.specs.Counters.{counted_of, width_of, inner};

use code::TABLE;
use door_terms::Sizes;
use refusal::Refusal;
use reply::Counted;

// At how many bits counters of the width wrap: 0 stands for 16, and 14 is refused.
fn bits_of(width: u32) -> Result<u32, Refusal>
    ensures { result ≡ width_of width }
{
    match width {
        0 | 16 => Ok(16),
        8 => Ok(8),
        _ => Err(refusal::of_neither(14)),
    }
}

// Whether the form in the first k words of l and the one behind it are the same as counters.
fn counted(width: u32, l: &[u32], k: usize, a: &mut [u32], b: &mut [u32], c: &mut [u32]) -> bool
    requires sides { Sides k l.now }
    requires wide { Wide (length l.now) (length a.old) (length b.old) (length c.old) }
    ensures { result ≡ same_of width (dec 0 (take k l.now)) (dec 0 (drop k l.now)) }
{
    code_counters::same_counters(width, &l[..k], &l[k..], &mut a[..TABLE], &mut b[..TABLE], c)
}

// Two runs side by side at the front of d: their forms are made in a, and compared as counters.
fn verdict(
    width: u32,
    n: usize,
    runs: Sizes,
    a: &mut [u32],
    b: &mut [u32],
    c: &mut [u32],
    d: &mut [u32],
) -> bool
    requires paired { Paired n runs.left (runs.left + runs.right) d.old }
    requires full { Full (length a.old) (length b.old) (length c.old) (length d.old) }
    ensures { let l = take (runs.left + runs.right) d.old in
        result ≡ same_of width (form_at n 0 (take runs.left l)) (form_at n 0 (drop runs.left l)) }
{
    let e = runs.left + runs.right;
    let forms = door_terms::code_pair(n as u32, &d[..e], runs.left, &mut a[..TABLE]);
    let g = forms.left + forms.right;
    counted(width, &a[..g], forms.left, b, c, d)
}

// The comparison of the terms s and t, where the row is proper and the tables are long enough.
fn counters_of(
    row: &[u8],
    width: u32,
    s: &[u8],
    t: &[u8],
    a: &mut [u32],
    b: &mut [u32],
    c: &mut [u32],
    d: &mut [u32],
) -> Counted
    requires row_value { is_row row.now ≡ true }
    requires full { Full (length a.old) (length b.old) (length c.old) (length d.old) }
    ensures { result ≡ counted_of (inner row.now width s.now t.now) }
{
    let bits = bits_of(width)?;
    let runs = door_terms::read_pair(row, s, t, a, b, c, d)?;
    Ok(verdict(bits, row.len(), runs, a, b, c, d))
}

// Compares the terms s and t over the row as counters of the width. The work tables are cleared, but not where 1 or 2 is refused.
pub fn counters(
    row: &[u8],
    width: u32,
    s: &[u8],
    t: &[u8],
    a: &mut [u32],
    b: &mut [u32],
    c: &mut [u32],
    d: &mut [u32],
) -> Counted
    ensures { CountersCall row.now width s.now t.now result
        (work a.old b.old c.old d.old)
        (work a.new b.new c.new d.new) }
{
    door::ready(row, a.len(), b.len(), c.len(), d.len())?;
    let answer = counters_of(row, width, s, t, a, b, c, d);
    door::clear_tables(a, b, c, d);
    answer
}
