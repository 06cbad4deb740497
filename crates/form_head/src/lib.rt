// What a form begins with, at a place of a text that is known to hold a form there.
#![tactic(auto)]

ghost use Rattle.std.specs.Prelude.{◌≡◌, ◌+◌, ◌≤◌, length, drop};
ghost use Rattle.form_head.specs.Heads.{digits, NumberAt, Standing, Headed};

// What a form is: an integer, one below zero, `(POP i p)` or `(POW i p q)`.
#[derive(Clone, Copy, Debug, PartialEq, Eq)]
pub enum Kind {
    Integer,
    Negative,
    Pop,
    Pow,
}

// What a form begins with. number: the magnitude cut down to 1,073,741,824, or i cut down to 64. next: the place behind the integer, or
// that of p.
#[derive(Clone, Copy, Debug, PartialEq, Eq)]
pub struct Head {
    pub kind: Kind,
    pub number: u32,
    pub next: usize,
}

// A number, and the place behind its digits.
#[derive(Clone, Copy, Debug, PartialEq, Eq)]
pub struct Number {
    pub value: u32,
    pub next: usize,
}

// The place behind the digits at a place.
pub fn digits_end(s: &[u8], at: usize) -> usize
    requires { at ≤ length s.now }
    ensures { result ≡ at + length (digits (drop at s.now)) }
{
    at + s[at..]
        .iter()
        .take_while(|b| text_word::is_digit(**b))
        .count()
}

// The number at a place, cut down to the limit.
fn number_at(s: &[u8], at: usize, limit: u32) -> Number
    requires { at ≤ length s.now }
    ensures { NumberAt s.now at limit result.value result.next }
{
    let next = digits_end(s, at);
    let value = text_word::cut_value(&s[at..next], limit);
    Number { value, next }
}

// What the form at a place begins with.
pub fn head_at(s: &[u8], at: usize) -> Head
    requires { Standing s.now at }
    ensures { Headed s.now at result.kind result.number result.next }
{
    let b = s[at];
    if b == b'-' {
        let n = number_at(s, at + 1, 1073741824);
        return Head {
            kind: Kind::Negative,
            number: n.value,
            next: n.next,
        };
    }
    if b != b'(' {
        let n = number_at(s, at, 1073741824);
        return Head {
            kind: Kind::Integer,
            number: n.value,
            next: n.next,
        };
    }
    let i = number_at(s, at + 5, 64);
    let number = i.value;
    let next = i.next + 1;
    if s[at + 3] == b'P' {
        return Head {
            kind: Kind::Pop,
            number,
            next,
        };
    }
    Head {
        kind: Kind::Pow,
        number,
        next,
    }
}
