// Two forms compared as counters, whose numbers wrap.
#![tactic(auto)]

ghost use Rattle.std.specs.Prelude.{◌≡◌, ◌+◌, ◌≤◌, length};
ghost use Rattle.code.specs.Coding.{Coded, RoomUnder, dec};
ghost use Rattle.code_counters.specs.Same.{same_of};

// Whether the forms x and y are the same as counters of the width: each is reduced, the second negated, and their wrapped sum is 0. a, b
// and c are work space.
pub fn same_counters(
    width: u32,
    x: &[u32],
    y: &[u32],
    a: &mut [u32],
    b: &mut [u32],
    c: &mut [u32],
) -> bool
    requires coded { Coded 0 x.now × Coded 0 y.now }
    requires room_under { RoomUnder (1 + length x.now) a.old }
    requires room_under_2 { RoomUnder (length x.now + length y.now) b.old }
    requires y_in_bounds { length y.now ≤ length c.old }
    ensures { result ≡ same_of width (dec 0 x.now) (dec 0 y.now) }
{
    let n = code_walk::reduce(width, x, a);
    let m = code_walk::reduce(width, y, b);
    let k = code_walk::negate(width, &b[..m], c);
    let j = code_sum::sum(width, &a[..n], &c[..k], b);
    code_walk::is_zero(width, &b[..j])
}
