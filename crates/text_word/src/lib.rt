// What a word is: an integer, an operator, a letter of the row; and rows.
#![tactic(auto)]

ghost use Rattle.std.specs.Prelude.{◌≡◌, true, ◌≤◌, min};
ghost use Rattle.text.specs.definitions.Bytes.{digit, capital, index_in, all, canonical, value_from};
ghost use Rattle.text_word.specs.Words.{is_positive, is_integer, operator_of};

// An operator, as its word says it.
#[derive(Clone, Copy, Debug, PartialEq, Eq)]
pub enum Operator {
    Plus,
    Minus,
    Times,
    Power,
}

pub fn is_digit(b: u8) -> bool
    ensures { result ≡ digit b }
{
    b.is_ascii_digit()
}

pub fn is_capital(b: u8) -> bool
    ensures { result ≡ capital b }
{
    b.is_ascii_uppercase()
}

// Whether w is an integer's text that is not below zero.
pub fn is_natural(w: &[u8]) -> bool
    ensures { result ≡ canonical w.now }
{
    match w {
        [b'0', rest @ ..] => rest.is_empty(),
        _ => is_positive(w),
    }
}

// Whether w is digits that do not begin with 0.
fn is_positive(w: &[u8]) -> bool
    ensures { result ≡ is_positive w.now }
{
    match w {
        [] | [b'0', ..] => false,
        _ => w.iter().all(|b| is_digit(*b)),
    }
}

// Whether w is an integer's text.
pub fn is_integer(w: &[u8]) -> bool
    ensures { result ≡ is_integer w.now }
{
    match w {
        [b'-', rest @ ..] => is_positive(rest),
        _ => is_natural(w),
    }
}

// The number that the digits of w stand for, cut down to the limit.
pub fn cut_wide(w: &[u8], limit: u64) -> u64
    requires digits { all digit w.now ≡ true }
    requires bound { limit ≤ 4294967296 }
    ensures { result ≡ min (value_from 0 w.now) limit }
{
    let mut value = 0;
    for b in w {
        value = (value * 10 + u64::from(*b - b'0')).min(limit);
    }
    value
}

// The same, to a limit that is a word.
pub fn cut_value(w: &[u8], limit: u32) -> u32
    requires { all digit w.now ≡ true }
    ensures { result ≡ min (value_from 0 w.now) limit }
{
    cut_wide(w, u64::from(limit)) as u32
}

// The operator that w is.
pub fn operator_of(w: &[u8]) -> Option<Operator>
    ensures { result ≡ operator_of w.now }
{
    match w {
        [b'+'] => Some(Operator::Plus),
        [b'-'] => Some(Operator::Minus),
        [b'*'] => Some(Operator::Times),
        [b'E', b'X', b'P', b'T'] => Some(Operator::Power),
        _ => None,
    }
}

// Which letter of the row b is: 0 for the first, the row's length where it is none.
pub fn index_in(row: &[u8], b: u8) -> usize
    ensures { result ≡ index_in row.now b }
{
    row.iter().position(|c| b == *c).unwrap_or(row.len())
}
