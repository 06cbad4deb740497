// The point of a call: the remainders of its coordinates.
#![tactic(auto)]

ghost use Rattle.std.specs.Prelude.{◌++◌, ◌≡◌, ◌≤◌, length, drop};
ghost use Rattle.door_point.specs.Point.{residues_of};
ghost use Rattle.reply.specs.definitions.Calls.{remainder};

// Writes the remainders of the coordinates to the front of out. What lies after them stays.
pub fn put_point(point: &[i32], out: &mut [u32])
    requires { length point.now ≤ length out.old }
    ensures { out.new ≡ residues_of point.now ++ drop (length point.now) out.old }
{
    for i in 0..point.len() {
        out[i] = of_coordinate(point[i]);
    }
}

// The remainder of a signed coordinate: twice P is added first, so that nothing is negative.
fn of_coordinate(x: i32) -> u32
    ensures { result ≡ remainder x }
{
    let up = i64::from(x) + 4294967294;
    code_remainder::by_p(up as u64)
}
