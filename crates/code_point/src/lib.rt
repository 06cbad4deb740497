// The first point at which a coded form over the remainders by P is not 0.
#![tactic(auto)]

ghost use Rattle.std.specs.Prelude.{◌≡◌, ◌++◌, ◌+◌, ◌≤◌, length, take, drop};
ghost use Rattle.code.specs.Coding.{Coded, Made, RoomUnder, dec};
ghost use Rattle.code_first.specs.First.{at_first_of};
ghost use Rattle.code_point.specs.Points.{point_of, Ready, vanishes, IsLeast, Fails};

// A number put for the first variable, and how many words the form takes that it leaves.
#[derive(Clone, Copy)]
struct Found {
    value: u32,
    words: usize,
}

// The least number that, put for the first variable of the form x, leaves a form that is not 0. That form is left at the front of out.
fn least_value(x: &[u32], out: &mut [u32], spare: &mut [u32]) -> Found
    requires coded { Coded 0 x.now }
    requires room_under { RoomUnder (1 + length x.now) out.old × RoomUnder (1 + length x.now) spare.old }
    requires fails { Fails (vanishes (dec 0 x.now)) }
    ensures { IsLeast (vanishes (dec 0 x.now)) result.value
        × Made 0 (at_first_of 0 (dec 0 x.now) result.value) result.words out.new }
{
    let mut a = 0;
    // A `for` would need an end of its range, and an answer behind it, that no form reaches.
    loop {
        let m = code_first::at_first(0, x, a, out, spare);
        if !code_walk::is_zero(0, &out[..m]) {
            return Found { value: a, words: m };
        }
        a += 1;
    }
}

// Writes the first point in n variables at which the form in the first k words of x is not 0 to the front of point. The other tables are
// work space: as many words as the form has are enough in each. k stays beside x: each next form is copied into x (fixed memory).
pub fn first_point(
    n: usize,
    x: &mut [u32],
    k: usize,
    out: &mut [u32],
    spare: &mut [u32],
    point: &mut [u32],
)
    requires k_in_bounds { (k ≤ length x.old) × (n ≤ length point.old) }
    requires coded { Coded 0 (take k x.old) }
    requires room_under { RoomUnder (1 + k) out.old × RoomUnder (1 + k) spare.old }
    requires ready { Ready n (dec 0 (take k x.old)) }
    ensures { point.new ≡ point_of n (dec 0 (take k x.old)) ++ drop n point.old }
{
    if n == 0 {
        return;
    }
    let f = least_value(&x[..k], out, spare);
    let m = f.words;
    code::copy(&out[..m], x);
    point[0] = f.value;
    first_point(n - 1, x, m, out, spare, &mut point[1..]);
}
