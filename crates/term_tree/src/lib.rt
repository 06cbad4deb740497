// The code of a term as words of 32 bits stands in specs/. Here is what the first word of a node says. No heap: a tree is a slice of words.
#![tactic(auto)]

ghost use Rattle.std.specs.Prelude.{◌≡◌, ◌≤◌};
ghost use Rattle.term_tree.specs.Heads.{tag_for, HeadIs};

// What stands between two operands.
#[derive(Clone, Copy, Debug, PartialEq, Eq)]
pub enum Operation {
    Add,
    Subtract,
    Multiply,
}

// What the first word of a node says.
#[derive(Clone, Copy, Debug, PartialEq, Eq)]
pub enum Head {
    // the coded integer
    Integer(u32),
    // the letter's index in the row
    Letter(u32),
    Negative,
    // of two operands, and how many words the first takes
    Pair(Operation, usize),
    // the exponent
    Power(u32),
}

// The operator with a tag.
#[inline(always)]
fn operation_of(tag: u32) -> Operation
    requires { (2 ≤ tag) × (tag ≤ 4) }
    ensures { tag ≡ tag_for result }
{
    match tag {
        2 => Operation::Add,
        3 => Operation::Subtract,
        _ => Operation::Multiply,
    }
}

// Of every word: those that begin no node are read as powers.
#[inline(always)]
pub fn head_of(h: u32) -> Head
    ensures { HeadIs h result }
{
    if h < 2147483648 {
        return Head::Integer(h);
    }
    let tag = (h - 2147483648) % 8;
    let k = (h - 2147483648) / 8;
    match tag {
        0 => Head::Letter(k),
        1 => Head::Negative,
        2..=4 => Head::Pair(operation_of(tag), k as usize),
        _ => Head::Power(k),
    }
}
