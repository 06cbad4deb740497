// The calls that are tried.
use std::fmt;

#[derive(Clone, Copy, Debug, PartialEq, Eq)]
pub enum Call {
    Form,
    Negate,
    Add,
    Multiply,
    Raise,
    Remainder,
    FormRemainder,
    Compare,
    Counters,
    PrintBook,
    Judge,
}

impl fmt::Display for Call {
    fn fmt<W: fmt::Write>(&self, f: &mut fmt::Formatter<W>) -> fmt::Result {
        match self {
            Call::Form => write!(f, "form"),
            Call::Negate => write!(f, "negate"),
            Call::Add => write!(f, "add"),
            Call::Multiply => write!(f, "multiply"),
            Call::Raise => write!(f, "raise"),
            Call::Remainder => write!(f, "remainder"),
            Call::FormRemainder => write!(f, "form_remainder"),
            Call::Compare => write!(f, "compare"),
            Call::Counters => write!(f, "counters"),
            Call::PrintBook => write!(f, "print_book"),
            Call::Judge => write!(f, "judge"),
        }
    }
}

// Those that take work tables, in the order of their tries.
pub const WITH_TABLES: [Call; 10] = [
    Call::Form,
    Call::Negate,
    Call::Add,
    Call::Multiply,
    Call::Raise,
    Call::Remainder,
    Call::FormRemainder,
    Call::Compare,
    Call::Counters,
    Call::PrintBook,
];
