// The call `negate`: a form's text in, the text of its negative out.
#![tactic(auto)]

ghost use Rattle.std.specs.Prelude.{true, ◌≡◌, ◌≤◌, length};
ghost use Rattle.code.specs.Lengths.{table};
ghost use Rattle.text.specs.definitions.Bytes.{is_row};
ghost use Rattle.reply.specs.definitions.Reply.{result_after, work};
ghost use Rattle.reply.specs.definitions.Calls.{negate_of, NegateCall};
ghost use Rattle.door_result.specs.Result.{written_of};

use refusal::Side;
use reply::Written;

// The text of the negative of the form s, where the row is proper and the tables are long enough.
fn negate_of(row: &[u8], s: &[u8], res: &mut [u8], a: &mut [u32], b: &mut [u32]) -> Written
    requires row_value { is_row row.now ≡ true }
    requires table_in_bounds { (table ≤ length a.old) × (table ≤ length b.old) }
    ensures value { result ≡ written_of (negate_of row.now s.now (length res.old)) }
    ensures res_after { res.new ≡ result_after (negate_of row.now s.now (length res.old))
        res.old }
{
    let reading = form_read::read_form(row.len(), s, a);
    let form = reading.map_err(|fault| refusal::on_side(Side::Left, fault))?;
    let k = code_walk::negate(0, &a[..form.words], b);
    door_result::write_result(&b[..k], res)
}

// The text of the negative of the form s over the row, at the front of the result buffer; or a refusal. The work tables are cleared, but
// not where 1 or 2 is refused.
pub fn negate(
    row: &[u8],
    s: &[u8],
    res: &mut [u8],
    a: &mut [u32],
    b: &mut [u32],
    c: &mut [u32],
    d: &mut [u32],
) -> Written
    ensures { NegateCall row.now s.now result res.old res.new
        (work a.old b.old c.old d.old)
        (work a.new b.new c.new d.new) }
{
    door::ready(row, a.len(), b.len(), c.len(), d.len())?;
    let answer = negate_of(row, s, res, a, b);
    door::clear_tables(a, b, c, d);
    answer
}
