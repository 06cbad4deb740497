// The call `add`: two forms' texts in, the text of their sum out.
#![tactic(auto)]

ghost use Rattle.horner.specs.definitions.Form.{sum};
ghost use Rattle.horner.specs.definitions.Rings.{ℤ_ring};
ghost use Rattle.reply.specs.definitions.Reply.{work};
ghost use Rattle.reply.specs.definitions.Calls.{of_sum, AddCall};
ghost use Rattle.measure.specs.Measure.{add_m};
ghost use Rattle.call_add.specs.laws.Add.{sum_laws};

use code::TABLE;
use door_forms::{FormPair, Operation};
use measure::Measures;
use reply::Written;

struct Sum;

impl Operation for Sum {
    ghost measured = { of_sum };

    ghost found = { add_m };

    ghost op = { sum ℤ_ring };

    ghost laws = { sum_laws };

    fn measure(x: Measures, y: Measures) -> Measures {
        measure::add(x, y)
    }

    fn combine(
        pair: FormPair,
        a: &mut [u32],
        b: &mut [u32],
        _c: &mut [u32],
        _d: &mut [u32],
    ) -> usize {
        code_pair::add(a, pair.left.words, pair.right.words, &mut b[..TABLE])
    }
}

// The text of the sum of the forms s and t over the row, at the front of the result buffer; or a refusal. The work tables are cleared, but
// not where 1 or 2 is refused.
pub fn add(
    row: &[u8],
    s: &[u8],
    t: &[u8],
    res: &mut [u8],
    a: &mut [u32],
    b: &mut [u32],
    c: &mut [u32],
    d: &mut [u32],
) -> Written
    ensures { AddCall row.now s.now t.now result res.old res.new
        (work a.old b.old c.old d.old)
        (work a.new b.new c.new d.new) }
{
    door_forms::operate::<Sum>(row, s, t, res, a, b, c, d)
}
