// The call `raise`: a form's text in, the text of its power out.
#![tactic(auto)]

ghost use Rattle.std.specs.Prelude.{true, ◌≡◌, length};
ghost use Rattle.text.specs.definitions.Bytes.{is_row};
ghost use Rattle.reply.specs.definitions.Reply.{result_after, work};
ghost use Rattle.reply.specs.definitions.Calls.{raise_of, RaiseCall};
ghost use Rattle.code.specs.Lengths.{Long};
ghost use Rattle.door_result.specs.Result.{written_of};

use code::TABLE;
use refusal::Side;
use reply::Written;

// The text of the k-th power of the form s, where the row is proper and the tables are long enough.
fn raise_of(
    row: &[u8],
    s: &[u8],
    k: u32,
    res: &mut [u8],
    a: &mut [u32],
    b: &mut [u32],
    c: &mut [u32],
    d: &mut [u32],
) -> Written
    requires row_value { is_row row.now ≡ true }
    requires long { Long (length a.old) (length b.old) (length c.old) (length d.old) }
    ensures value { result ≡ written_of (raise_of row.now s.now k (length res.old)) }
    ensures res_after { res.new ≡ result_after (raise_of row.now s.now k (length res.old))
        res.old }
{
    let reading = form_read::read_form(row.len(), s, a);
    let form = reading.map_err(|fault| refusal::on_side(Side::Left, fault))?;
    if 63 < k {
        return Err(refusal::of_neither(8));
    }
    let found = measure::raise(form.measures, k);
    measure::within(found).map_err(refusal::of_neither)?;
    let n = form.words;
    let words = code_power::raise(0, a, n, k, &mut b[..TABLE], &mut c[..TABLE], &mut d[..6146]);
    door_result::write_result(&a[..words], res)
}

// The text of the k-th power of the form s over the row, at the front of the result buffer; or a refusal. The work tables are cleared, but
// not where 1 or 2 is refused.
pub fn raise(
    row: &[u8],
    s: &[u8],
    k: u32,
    res: &mut [u8],
    a: &mut [u32],
    b: &mut [u32],
    c: &mut [u32],
    d: &mut [u32],
) -> Written
    ensures { RaiseCall row.now s.now k result res.old res.new
        (work a.old b.old c.old d.old)
        (work a.new b.new c.new d.new) }
{
    door::ready(row, a.len(), b.len(), c.len(), d.len())?;
    let answer = raise_of(row, s, k, res, a, b, c, d);
    door::clear_tables(a, b, c, d);
    answer
}
