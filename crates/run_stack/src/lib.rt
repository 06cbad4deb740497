// Runs in words, side by side at the front of a table, and what an operator makes of them in their place. The runs' lengths stand beside
// the table, since memory is fixed: there is no heap for a Vec of each run.
#![tactic(auto)]

ghost use Rattle.std.specs.Prelude.{[], ◌+◌, ◌-◌, ◌<◌, ◌≤◌, length, take, drop};
ghost use Rattle.horner.specs.definitions.Rings.{prime};
ghost use Rattle.code.specs.Coding.{Begins};
ghost use Rattle.run_merge.specs.Words.{pairs, summed, Fits};
ghost use Rattle.run_stack.specs.Stack.{multiplied, ProductRoom, raised, PowerRoom, Beside};

// The negative of the run in the first a words of stack, in its place.
pub fn negate(stack: &mut [u32], a: usize, out: &mut [u32]) -> usize
    requires a_in_bounds { (a ≤ length stack.old) × (a ≤ length out.old) }
    requires fits { Fits 0 (pairs (take a stack.old)) }
    ensures { Begins result (summed 0 2147483646 [] (take a stack.old)) stack.new }
{
    add(stack, 0, a, 2147483646, out)
}

// The run in the first a words of stack plus c times the one in the b words behind it, in their place.
pub fn add(stack: &mut [u32], a: usize, b: usize, c: u32, out: &mut [u32]) -> usize
    requires b_in_bounds { (a + b ≤ length stack.old) × (a + b ≤ length out.old) }
    requires c_lt_prime { (c < prime) × Fits 0 (pairs (take a stack.old)) × Fits 0 (pairs (take b (drop a stack.old))) }
    ensures { Begins result (summed 0 c (take a stack.old) (take b (drop a stack.old))) stack.new }
{
    let (x, y) = stack[..a + b].split_at(a);
    let r = run_merge::add_times(x, 0, c, y, out);
    code::copy(&out[..r], stack);
    r
}

// Writes the product of x and y at the front of out, the shorter one first, and returns its length; other is for the sums on the way.
fn product(x: &[u32], y: &[u32], out: &mut [u32], other: &mut [u32]) -> usize
    requires product_room { ProductRoom x.now y.now (length other.old) }
    requires other_in_bounds { length other.old ≤ length out.old }
    ensures { Begins result (multiplied x.now y.now) out.new }
{
    if x.len() <= y.len() {
        run_merge::product(x, y, out, other)
    } else {
        run_merge::product(y, x, out, other)
    }
}

// The product of the run in the first a words of stack and the one in the b words behind it, in their place. What it has in common with
// `add` are a slicing and a copy: a function that takes what is between them as a closure would be longer.
pub fn multiply(stack: &mut [u32], a: usize, b: usize, out: &mut [u32], other: &mut [u32]) -> usize
    requires b_in_bounds { (a + b ≤ length stack.old) × (length other.old ≤ length out.old) }
    requires product_room { ProductRoom (take a stack.old) (take b (drop a stack.old)) (length other.old) }
    requires stack_in_bounds { length (multiplied (take a stack.old) (take b (drop a stack.old))) ≤ length stack.old }
    ensures { Begins result (multiplied (take a stack.old) (take b (drop a stack.old))) stack.new }
{
    let (x, y) = stack[..a + b].split_at(a);
    let r = product(x, y, out, other);
    code::copy(&out[..r], stack);
    r
}

// out begins with a power, of m words, of the run in the first a words of stack. Puts the next power in its place, by way of the words
// behind the run.
fn next(stack: &mut [u32], a: usize, m: usize, out: &mut [u32], other: &mut [u32]) -> usize
    requires m_in_bounds { (a + m ≤ length stack.old) × (m ≤ length out.old) × (length other.old ≤ length out.old) }
    requires product_room { ProductRoom (take a stack.old) (take m out.old) (length other.old) }
    ensures { Beside (take a stack.old) (multiplied (take a stack.old) (take m out.old)) a result
        stack.new out.new }
{
    code::copy(&out[..m], &mut stack[a..]);
    let (x, y) = stack[..a + m].split_at(a);
    product(x, y, out, other)
}

// The run in the first a words of stack to the k-th power, in its place.
pub fn raise(stack: &mut [u32], a: usize, k: u32, out: &mut [u32], other: &mut [u32]) -> usize
    requires le_k { (1 ≤ k) × (a ≤ length stack.old) × (length other.old ≤ length out.old) }
    requires power_room { PowerRoom (take a stack.old) (k - 1) (length other.old) (length stack.old) }
    ensures { Begins result (raised (k - 1) (take a stack.old)) stack.new }
{
    let d = k - 1;
    if d == 0 {
        return a;
    }
    let x = &stack[..a];
    let mut m = product(x, x, out, other);
    for _i in 1..d {
        m = next(stack, a, m, out, other);
    }
    code::copy(&out[..m], stack);
    m
}
