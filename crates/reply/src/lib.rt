// What the calls answer: a value, or the refusal record.
#![tactic(auto)]

use refusal::Refusal;

// How many bytes of text were written.
pub type Written = Result<usize, Refusal>;

// The remainder.
pub type Remaindered = Result<u32, Refusal>;

// The text is a form.
pub type Judged = Result<(), Refusal>;

// What is said of two terms: the same, or different with both remainders at the first point, left first.
#[derive(Clone, Copy, Debug, PartialEq, Eq)]
pub enum Comparison {
    Same,
    Different(u32, u32),
}

pub type Compared = Result<Comparison, Refusal>;

// Whether two terms are the same as counters.
pub type Counted = Result<bool, Refusal>;
