// The call `form`: a term in, its form's text out.
#![tactic(auto)]

ghost use Rattle.std.specs.Prelude.{true, ◌≡◌, length};
ghost use Rattle.text.specs.definitions.Bytes.{is_row};
ghost use Rattle.reply.specs.definitions.Reply.{result_after, work};
ghost use Rattle.reply.specs.definitions.Calls.{form_of, FormCall};
ghost use Rattle.code.specs.Lengths.{Long};
ghost use Rattle.door_result.specs.Result.{written_of};

use refusal::Side;
use reply::Written;

// The form's text of the term s, where the row is proper and the tables are long enough.
fn form_of(
    row: &[u8],
    s: &[u8],
    res: &mut [u8],
    a: &mut [u32],
    b: &mut [u32],
    c: &mut [u32],
    d: &mut [u32],
) -> Written
    requires row_value { is_row row.now ≡ true }
    requires long { Long (length a.old) (length b.old) (length c.old) (length d.old) }
    ensures value { result ≡ written_of (form_of row.now s.now (length res.old)) }
    ensures res_after { res.new ≡ result_after (form_of row.now s.now (length res.old))
        res.old }
{
    let reading = term_read::read_term(row, s, a, b, c, d);
    let n = reading.map_err(|fault| refusal::on_side(Side::Left, fault))?;
    door_result::write_result(&a[..n], res)
}

// The form's text of the term s over the row, at the front of the result buffer; or a refusal. The work tables are cleared, but not where
// 1 or 2 is refused.
pub fn form(
    row: &[u8],
    s: &[u8],
    res: &mut [u8],
    a: &mut [u32],
    b: &mut [u32],
    c: &mut [u32],
    d: &mut [u32],
) -> Written
    ensures { FormCall row.now s.now result res.old res.new
        (work a.old b.old c.old d.old)
        (work a.new b.new c.new d.new) }
{
    door::ready(row, a.len(), b.len(), c.len(), d.len())?;
    let answer = form_of(row, s, res, a, b, c, d);
    door::clear_tables(a, b, c, d);
    answer
}
