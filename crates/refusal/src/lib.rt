// The refusal record: what every answer holds when it refuses, and every caller hands on unopened.
#![tactic(auto)]

ghost use Rattle.std.specs.Prelude.{◌≡◌};
ghost use Rattle.refusal.specs.Refusal.{on_side, of_neither, fault_of};

use std::fmt;

// Which text a refusal speaks of.
#[derive(Clone, Copy, Debug, PartialEq, Eq)]
pub enum Side {
    Left,
    Right,
    Neither,
}

// What is wrong with a text: the refusal's number, and the place in the text.
#[derive(Clone, Copy, Debug, PartialEq, Eq)]
pub struct Fault {
    pub number: u32,
    pub place: usize,
}

// What is wrong with a term's text: the refusal's number, and the bytes that it speaks of, from its place to its end.
#[derive(Clone, Copy, Debug, PartialEq, Eq)]
pub struct Flaw {
    pub number: u32,
    pub place: usize,
    pub end: usize,
}

// A refusal says where it is, and not yet where that ends.
impl From<Flaw> for Fault {
    ghost from_gives = { λ flaw fault. fault ≡ fault_of flaw };

    fn from(flaw: Flaw) -> Fault
        ensures { result ≡ fault_of flaw }
    {
        Fault {
            number: flaw.number,
            place: flaw.place,
        }
    }
}

// What a call is refused with: the number, the side, and the place in that side's text.
#[derive(Clone, Copy, Debug, PartialEq, Eq)]
pub struct Refusal {
    pub number: u32,
    pub side: Side,
    pub place: usize,
}

// The fault of the text on a side, as the call's refusal.
pub fn on_side(side: Side, fault: Fault) -> Refusal
    ensures { result ≡ on_side side fault }
{
    Refusal {
        number: fault.number,
        side,
        place: fault.place,
    }
}

// The refusal of what was lent, or of a result.
pub fn of_neither(number: u32) -> Refusal
    ensures { result ≡ of_neither number }
{
    Refusal {
        number,
        side: Side::Neither,
        place: 0,
    }
}

impl fmt::Display for Side {
    fn fmt<W: fmt::Write>(&self, f: &mut fmt::Formatter<W>) -> fmt::Result {
        match self {
            Side::Left => write!(f, "left"),
            Side::Right => write!(f, "right"),
            Side::Neither => write!(f, "neither"),
        }
    }
}

impl fmt::Display for Refusal {
    fn fmt<W: fmt::Write>(&self, f: &mut fmt::Formatter<W>) -> fmt::Result {
        let number = self.number;
        let side = self.side;
        let place = self.place;
        write!(f, "REFUSED {number} {side} {place}")
    }
}
