// Two terms over the whole numbers, where the door is open: the same, or the first point at which they part.
#![tactic(auto)]

ghost use Rattle.std.specs.Prelude.{Ok, true, ◌+◌, ◌++◌, ◌≡◌, ◌≤◌, length, take, drop};
ghost use Rattle.code.specs.Coding.{Made, dec};
ghost use Rattle.code.specs.Operations.{value_of};
ghost use Rattle.code_walk.specs.Shapes.{Decides};
ghost use Rattle.code_point.specs.Points.{point_of, Ready};
ghost use Rattle.text.specs.definitions.Bytes.{is_row};
ghost use Rattle.reply.specs.definitions.Calls.{compare_of, point_after};
ghost use Rattle.reply.specs.declared.Comparison.TheVariants.{Different};
ghost use Rattle.code.specs.Lengths.{Full};
ghost use Rattle.door_compare.specs.Compare.{compared_of, gap_of, Sides, Rooms, Parting, Parted, Beside, Told};
ghost use Rattle.run_code.specs.Decoding.{form_at};

use code::TABLE;
use door_terms::Sizes;
use reply::{Compared, Comparison};

// The difference of the form in the first k words of l and the one behind it, at the front of c.
fn gap(l: &[u32], k: usize, b: &mut [u32], c: &mut [u32]) -> usize
    requires sides { Sides k l.now }
    requires rooms { Rooms (length l.now) (length b.old) (length c.old) }
    ensures { Made 0 (gap_of k l.now) result c.new }
{
    let m = code_walk::negate(0, &l[k..], b);
    code_sum::sum(0, &l[..k], &b[..m], c)
}

// Two forms that are not the same: the first point at which their values differ, and these values.
fn part(
    n: usize,
    l: &[u32],
    k: usize,
    a: &mut [u32],
    b: &mut [u32],
    c: &mut [u32],
    point: &mut [u32],
) -> Compared
    requires sides { Sides k l.now × Ready n (gap_of k l.now) }
    requires rooms { Rooms (length l.now) (length b.old) (length c.old) × Rooms (length l.now) (length a.old) (length b.old) }
    requires n_in_bounds { n ≤ length point.old }
    ensures value { result ≡ Ok (Different (value_of 0 (dec 0 (take k l.now)) (point_of n (gap_of k l.now)))
        (value_of 0 (dec 0 (drop k l.now)) (point_of n (gap_of k l.now)))) }
    ensures point_then { point.new ≡ point_of n (gap_of k l.now) ++ drop n point.old }
{
    let g = gap(l, k, b, c);
    code_point::first_point(n, c, g, a, b, point);
    let x = code_walk::value(0, &l[..k], &point[..n]);
    let y = code_walk::value(0, &l[k..], &point[..n]);
    Ok(Comparison::Different(x, y))
}

// Whether the first k words of l are those behind them.
fn alike(l: &[u32], k: usize) -> bool
    requires { k ≤ length l.now }
    ensures { Decides result (take k l.now ≡ drop k l.now) }
{
    code_walk::same(&l[..k], &l[k..])
}

// Two runs that are not the same, side by side at the front of d: their forms are made in a, and the point is looked for.
fn parted(
    n: usize,
    runs: Sizes,
    point: &mut [u32],
    a: &mut [u32],
    b: &mut [u32],
    c: &mut [u32],
    d: &mut [u32],
) -> Compared
    requires parting { Parting n runs.left (runs.left + runs.right) d.old }
    requires full { Full (length a.old) (length b.old) (length c.old) (length d.old) }
    requires n_in_bounds { n ≤ length point.old }
    ensures { let l = take (runs.left + runs.right) d.old in
        Parted n (form_at n 0 (take runs.left l)) (form_at n 0 (drop runs.left l)) result point.old point.new }
{
    let e = runs.left + runs.right;
    let forms = door_terms::code_pair(n as u32, &d[..e], runs.left, &mut a[..TABLE]);
    let g = forms.left + forms.right;
    part(
        n,
        &a[..g],
        forms.left,
        &mut b[..TABLE],
        &mut c[..TABLE],
        &mut d[..TABLE],
        point,
    )
}

// Two runs side by side at the front of d: the same, or the first point at which their values differ.
fn verdict(
    n: usize,
    runs: Sizes,
    point: &mut [u32],
    a: &mut [u32],
    b: &mut [u32],
    c: &mut [u32],
    d: &mut [u32],
) -> Compared
    requires beside { Beside n runs.left (runs.left + runs.right) d.old }
    requires full { Full (length a.old) (length b.old) (length c.old) (length d.old) }
    requires n_in_bounds { n ≤ length point.old }
    ensures { Told n runs.left (runs.left + runs.right) d.old result point.old point.new }
{
    let e = runs.left + runs.right;
    if alike(&d[..e], runs.left) {
        return Ok(Comparison::Same);
    }
    parted(n, runs, point, a, b, c, d)
}

// The comparison of the terms s and t, where the row is proper and what was lent is long enough.
pub fn compare_of(
    row: &[u8],
    s: &[u8],
    t: &[u8],
    point: &mut [u32],
    a: &mut [u32],
    b: &mut [u32],
    c: &mut [u32],
    d: &mut [u32],
) -> Compared
    requires row_value { is_row row.now ≡ true }
    requires full { Full (length a.old) (length b.old) (length c.old) (length d.old) }
    requires row_in_bounds { length row.now ≤ length point.old }
    ensures value { result ≡ compared_of (compare_of row.now s.now t.now) }
    ensures point_then { point.new ≡ point_after (compare_of row.now s.now t.now)
        point.old }
{
    let runs = door_terms::read_pair(row, s, t, a, b, c, d)?;
    verdict(row.len(), runs, point, a, b, c, d)
}
