// The calls that the panel's build tool makes: compare, form and remainder, on numbers and slices. An enum cannot cross to C, so each
// answers a struct of numbers; specs/Panel says which. The crate panel_c hands them to C, and include/panel.h is the same for C.
#![tactic(auto)]

ghost use Rattle.std.specs.Prelude.{◌≡◌};
ghost use Rattle.reply.specs.definitions.Reply.{work};
ghost use Rattle.panel.specs.Panel.{side_number, refusal_answer, PanelCompareCall, PanelFormCall, PanelRemainderCall};
ghost use Rattle.panel.specs.Laws.{of_compared, of_written, of_remaindered};

use refusal::{Refusal, Side};
use reply::{Compared, Comparison, Remaindered, Written};

// kind: 0 same, written, or a remainder; 1 different; 2 refused. Then, of a refusal, its number, its side (0 neither, 1 left, 2 right) and
// its place; of 'different' both remainders; of a text its length; of a remainder itself.
#[repr(C)]
#[derive(Clone, Copy, Debug, PartialEq, Eq)]
pub struct PanelAnswer {
    pub kind: u32,
    pub number: u32,
    pub side: u32,
    pub left: u32,
    pub right: u32,
    pub place: usize,
}

// The answer of zeros: 'same', and what each other answer leaves as it is.
const NOTHING: PanelAnswer = PanelAnswer {
    kind: 0,
    number: 0,
    side: 0,
    left: 0,
    right: 0,
    place: 0,
};

// The side's number for C: a function, since From takes no impl where neither type is this crate's.
fn side_number(side: Side) -> u32
    ensures { result ≡ side_number side }
{
    match side {
        Side::Neither => 0,
        Side::Left => 1,
        Side::Right => 2,
    }
}

impl From<Refusal> for PanelAnswer {
    ghost from_gives = { λ bad answer. answer ≡ refusal_answer bad };

    fn from(bad: Refusal) -> PanelAnswer
        ensures { result ≡ refusal_answer bad }
    {
        let side = side_number(bad.side);
        PanelAnswer {
            kind: 2,
            number: bad.number,
            side,
            place: bad.place,
            ..NOTHING
        }
    }
}

impl From<Compared> for PanelAnswer {
    ghost from_gives = { λ said answer. answer ≡ of_compared said };

    fn from(said: Compared) -> PanelAnswer
        ensures { result ≡ of_compared said }
    {
        match said {
            Ok(Comparison::Same) => NOTHING,
            Ok(Comparison::Different(x, y)) => PanelAnswer {
                kind: 1,
                left: x,
                right: y,
                ..NOTHING
            },
            Err(bad) => PanelAnswer::from(bad),
        }
    }
}

impl From<Written> for PanelAnswer {
    ghost from_gives = { λ said answer. answer ≡ of_written said };

    fn from(said: Written) -> PanelAnswer
        ensures { result ≡ of_written said }
    {
        match said {
            Ok(n) => PanelAnswer {
                place: n,
                ..NOTHING
            },
            Err(bad) => PanelAnswer::from(bad),
        }
    }
}

impl From<Remaindered> for PanelAnswer {
    ghost from_gives = { λ said answer. answer ≡ of_remaindered said };

    fn from(said: Remaindered) -> PanelAnswer
        ensures { result ≡ of_remaindered said }
    {
        match said {
            Ok(n) => PanelAnswer { left: n, ..NOTHING },
            Err(bad) => PanelAnswer::from(bad),
        }
    }
}

// The call `compare`.
pub fn panel_compare(
    row: &[u8],
    s: &[u8],
    t: &[u8],
    point: &mut [u32],
    a: &mut [u32],
    b: &mut [u32],
    c: &mut [u32],
    d: &mut [u32],
) -> PanelAnswer
    ensures { PanelCompareCall row.now s.now t.now result point.old point.new
        (work a.old b.old c.old d.old)
        (work a.new b.new c.new d.new) }
{
    PanelAnswer::from(call_compare::compare(row, s, t, point, a, b, c, d))
}

// The call `form`: the length of the text stands in `place`.
pub fn panel_form(
    row: &[u8],
    s: &[u8],
    res: &mut [u8],
    a: &mut [u32],
    b: &mut [u32],
    c: &mut [u32],
    d: &mut [u32],
) -> PanelAnswer
    ensures { PanelFormCall row.now s.now result res.old res.new
        (work a.old b.old c.old d.old)
        (work a.new b.new c.new d.new) }
{
    PanelAnswer::from(call_form::form(row, s, res, a, b, c, d))
}

// The call `remainder`: the remainder stands in `left`.
pub fn panel_remainder(
    row: &[u8],
    s: &[u8],
    point: &[i32],
    a: &mut [u32],
    b: &mut [u32],
    c: &mut [u32],
    d: &mut [u32],
) -> PanelAnswer
    ensures { PanelRemainderCall row.now s.now point.now result
        (work a.old b.old c.old d.old)
        (work a.new b.new c.new d.new) }
{
    PanelAnswer::from(call_remainder::remainder(row, s, point, a, b, c, d))
}
