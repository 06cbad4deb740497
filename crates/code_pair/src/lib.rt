// Two forms side by side at the front of a table, and their sum or product in their place. The forms' lengths stand beside the table,
// since memory is fixed: there is no heap for a Vec of each. What the two functions have in common are a slicing and a copy: a function
// that takes what is between them as a closure would be longer.
#![tactic(auto)]

ghost use Rattle.std.specs.Prelude.{◌+◌, ◌≤◌, length};
ghost use Rattle.code.specs.Coding.{Made, RoomUnder, enc};
ghost use Rattle.code.specs.Operations.{sum_of};
ghost use Rattle.code_room.specs.Fit.{prod_of};
ghost use Rattle.code_room.specs.Tables.{Space};
ghost use Rattle.code_pair.specs.Pair.{Pair, left, right};

// The sum of the form in the first a words of stack and of the one in the b words behind it, in their place.
pub fn add(stack: &mut [u32], a: usize, b: usize, out: &mut [u32]) -> usize
    requires pair { Pair a b stack.old }
    requires room_under { RoomUnder (a + b) out.old }
    ensures { Made 0 (sum_of 0 (left a stack.old) (right a b stack.old)) result stack.new }
{
    let (x, y) = stack[..a + b].split_at(a);
    let n = code_sum::sum(0, x, y, out);
    code::copy(&out[..n], stack);
    n
}

// The product of the two.
pub fn multiply(
    stack: &mut [u32],
    a: usize,
    b: usize,
    out: &mut [u32],
    t: &mut [u32],
    u: &mut [u32],
) -> usize
    requires pair { Pair a b stack.old }
    requires space { Space 0 (left a stack.old) (right a b stack.old) (length out.old) (length t.old) (length u.old) }
    requires stack_in_bounds { length (enc 0 (prod_of 0 (left a stack.old) (right a b stack.old))) ≤ length stack.old }
    ensures { Made 0 (prod_of 0 (left a stack.old) (right a b stack.old)) result stack.new }
{
    let (x, y) = stack[..a + b].split_at(a);
    let n = code_product::product(0, x, y, out, t, u);
    code::copy(&out[..n], stack);
    n
}
