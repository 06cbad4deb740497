// The call `multiply`: two forms' texts in, the text of their product out.
#![tactic(auto)]

ghost use Rattle.horner.specs.definitions.Form.{prod};
ghost use Rattle.horner.specs.definitions.Rings.{ℤ_ring};
ghost use Rattle.reply.specs.definitions.Reply.{work};
ghost use Rattle.reply.specs.definitions.Calls.{of_product, MultiplyCall};
ghost use Rattle.measure.specs.Measure.{mul_m};
ghost use Rattle.call_multiply.specs.laws.Multiply.{product-laws};

use code::TABLE;
use door_forms::{FormPair, Operation};
use measure::Measures;
use reply::Written;

struct Product;

impl Operation for Product {
    ghost measured = { of_product };

    ghost found = { mul_m };

    ghost op = { prod ℤ_ring };

    ghost laws = { product-laws };

    fn measure(x: Measures, y: Measures) -> Measures {
        measure::multiply(x, y)
    }

    fn combine(
        pair: FormPair,
        a: &mut [u32],
        b: &mut [u32],
        c: &mut [u32],
        d: &mut [u32],
    ) -> usize {
        code_pair::multiply(
            a,
            pair.left.words,
            pair.right.words,
            &mut b[..TABLE],
            &mut c[..TABLE],
            &mut d[..6146],
        )
    }
}

// The text of the product of the forms s and t over the row, at the front of the result buffer; or a refusal. The work tables are cleared,
// but not where 1 or 2 is refused.
pub fn multiply(
    row: &[u8],
    s: &[u8],
    t: &[u8],
    res: &mut [u8],
    a: &mut [u32],
    b: &mut [u32],
    c: &mut [u32],
    d: &mut [u32],
) -> Written
    ensures { MultiplyCall row.now s.now t.now result res.old res.new
        (work a.old b.old c.old d.old)
        (work a.new b.new c.new d.new) }
{
    door_forms::operate::<Product>(row, s, t, res, a, b, c, d)
}
