// The call `form_remainder`: a form's text and a point in, the remainder by P of the form's value there out.
#![tactic(auto)]

ghost use Rattle.std.specs.Prelude.{true, ◌≡◌, ◌≤◌, length};
ghost use Rattle.code.specs.Lengths.{table};
ghost use Rattle.text.specs.definitions.Bytes.{is_row};
ghost use Rattle.reply.specs.definitions.Reply.{work};
ghost use Rattle.reply.specs.definitions.Calls.{form_remainder_of, FormRemainderCall};
ghost use Rattle.door_point.specs.Point.{remaindered_of};

use refusal::Side;
use reply::Remaindered;

// The remainder of the form s at the point, where the row is proper, the tables are long enough and the point is as long as the row.
fn form_remainder_of(
    row: &[u8],
    s: &[u8],
    point: &[i32],
    a: &mut [u32],
    b: &mut [u32],
) -> Remaindered
    requires row_value { is_row row.now ≡ true }
    requires table_in_bounds { (table ≤ length a.old) × (table ≤ length b.old) }
    requires point_len { length point.now ≡ length row.now }
    ensures { result ≡ remaindered_of (form_remainder_of row.now s.now point.now) }
{
    let reading = form_read::read_form(row.len(), s, a);
    let form = reading.map_err(|fault| refusal::on_side(Side::Left, fault))?;
    door_point::put_point(point, b);
    let v = code_walk::value(0, &a[..form.words], &b[..point.len()]);
    Ok(v)
}

// The remainder by P of the value of the form s over the row, at a point of signed coordinates; or a refusal. The work tables are cleared,
// but not where 1 or 2 is refused.
pub fn form_remainder(
    row: &[u8],
    s: &[u8],
    point: &[i32],
    a: &mut [u32],
    b: &mut [u32],
    c: &mut [u32],
    d: &mut [u32],
) -> Remaindered
    ensures { FormRemainderCall row.now s.now point.now result
        (work a.old b.old c.old d.old)
        (work a.new b.new c.new d.new) }
{
    door::ready(row, a.len(), b.len(), c.len(), d.len())?;
    if point.len() != row.len() {
        door::clear_tables(a, b, c, d);
        return Err(refusal::of_neither(12));
    }
    let answer = form_remainder_of(row, s, point, a, b);
    door::clear_tables(a, b, c, d);
    answer
}
