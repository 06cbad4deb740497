// From the words of a term's tree to the words of its polynomial's run, over an environment: each letter of the row has a run of its own.
#![tactic(auto)]

ghost use Rattle.std.specs.Prelude.{[], ◌≡◌, ◌≤◌, length, get_or};
ghost use Rattle.code.specs.Coding.{Begins};
ghost use Rattle.term_build.specs.Build.{env_of, Given, Built, Joining, joined, Plain, PlainBuilt};
ghost use Rattle.term_build.specs.laws.Plain.{letters};

use term_tree::{Head, Operation};

// Two words for each letter of the longest row, and behind them nothing that is read: in a shorter row the first is a later one of these.
const LETTERS: [u32; 14] = [262144, 1, 4096, 1, 64, 1, 1, 1, 0, 0, 0, 0, 0, 0];

// The run of each letter of a row, in order.
#[derive(Clone, Copy)]
pub struct Letters<'a> {
    pub e0: &'a [u32],
    pub e1: &'a [u32],
    pub e2: &'a [u32],
    pub e3: &'a [u32],
}

impl<'a> Letters<'a> {
    // Of a row of n letters, each of which stands for itself.
    fn of_row(n: usize) -> Letters<'static>
        requires { (1 ≤ n) × (n ≤ 4) }
        ensures { env_of result ≡ letters n }
    {
        let own = &LETTERS[8 - 2 * n..];
        Letters {
            e0: &own[..2],
            e1: &own[2..4],
            e2: &own[4..6],
            e3: &own[6..8],
        }
    }

    // The run of the letter with the index i.
    fn run(&self, i: u32) -> &'a [u32]
        ensures { result.now ≡ get_or (env_of self.now) i [] }
    {
        match i {
            0 => self.e0,
            1 => self.e1,
            2 => self.e2,
            3 => self.e3,
            _ => &[],
        }
    }
}

// The run of the letter with the index i, at the front of out.
fn letter_run(i: u32, letters: &Letters<'_>, out: &mut [u32]) -> usize
    requires { length (get_or (env_of letters.now) i []) ≤ length out.old }
    ensures { Begins result (get_or (env_of letters.now) i []) out.new }
{
    let run = letters.run(i);
    code::copy(run, out);
    run.len()
}

// What the operator makes of the two runs at the front of stack, of a and b words. No heap: runs that wait lie in one table.
fn join(
    o: Operation,
    stack: &mut [u32],
    a: usize,
    b: usize,
    out: &mut [u32],
    other: &mut [u32],
) -> usize
    requires { Joining o a b stack.old (length out.old) (length other.old) }
    ensures { Begins result (joined o a b stack.old) stack.new }
{
    match o {
        Operation::Add => run_stack::add(stack, a, b, 1, out),
        Operation::Subtract => run_stack::add(stack, a, b, 2147483646, out),
        Operation::Multiply => run_stack::multiply(stack, a, b, out, other),
    }
}

// The run of the coded term w, at the front of stack; the base of a power by 0 is not built.
// The tables stay three parameters: each call lends them anew, and that of a second operand begins further on in stack.
pub fn build(
    w: &[u32],
    letters: &Letters<'_>,
    stack: &mut [u32],
    out: &mut [u32],
    other: &mut [u32],
) -> usize
    requires { Given w.now (env_of letters.now) (length stack.old) (length out.old) (length other.old) }
    ensures { Built w.now (env_of letters.now) result stack.new }
{
    match term_tree::head_of(w[0]) {
        Head::Integer(h) => run_merge::put(stack, 0, 0, h),
        Head::Letter(i) => letter_run(i, letters, stack),
        Head::Negative => {
            let a = build(&w[2..], letters, stack, out, other);
            run_stack::negate(stack, a, out)
        }
        Head::Power(0) => run_merge::put(stack, 0, 0, 1),
        Head::Power(k) => {
            let base = build(&w[2..], letters, stack, out, other);
            run_stack::raise(stack, base, k, out, other)
        }
        Head::Pair(o, k) => {
            let e = 2 + k;
            let left = build(&w[2..e], letters, stack, out, other);
            let right = build(&w[e..], letters, &mut stack[left..], out, other);
            join(o, stack, left, right, out, other)
        }
    }
}

// The run of the coded term w over a row of n letters, each of which stands for itself, at the front of stack.
pub fn build_term(
    n: usize,
    w: &[u32],
    stack: &mut [u32],
    out: &mut [u32],
    other: &mut [u32],
) -> usize
    requires { Plain n w.now (length stack.old) (length out.old) (length other.old) }
    ensures { PlainBuilt n w.now result stack.new }
{
    build(w, &Letters::of_row(n), stack, out, other)
}
