// The call `remainder`: a term and a point in, the remainder by P of the term's value there out.
#![tactic(auto)]

ghost use Rattle.std.specs.Prelude.{true, ◌≡◌, length};
ghost use Rattle.text.specs.definitions.Bytes.{is_row};
ghost use Rattle.reply.specs.definitions.Reply.{work};
ghost use Rattle.reply.specs.definitions.Calls.{remainder_of, RemainderCall};
ghost use Rattle.code.specs.Lengths.{Long};
ghost use Rattle.door_point.specs.Point.{remaindered_of};

use refusal::Side;
use reply::Remaindered;

// The remainder of the term s at the point, where the row is proper, the tables are long enough and the point is as long as the row.
fn remainder_of(
    row: &[u8],
    s: &[u8],
    point: &[i32],
    a: &mut [u32],
    b: &mut [u32],
    c: &mut [u32],
    d: &mut [u32],
) -> Remaindered
    requires row_value { is_row row.now ≡ true }
    requires long { Long (length a.old) (length b.old) (length c.old) (length d.old) }
    requires point_len { length point.now ≡ length row.now }
    ensures { result ≡ remaindered_of (remainder_of row.now s.now point.now) }
{
    let reading = term_read::read_term(row, s, a, b, c, d);
    let n = reading.map_err(|fault| refusal::on_side(Side::Left, fault))?;
    door_point::put_point(point, b);
    let v = code_walk::value(0, &a[..n], &b[..point.len()]);
    Ok(v)
}

// The remainder by P of the value of the term s over the row, at a point of signed coordinates; or a refusal. The work tables are cleared,
// but not where 1 or 2 is refused.
pub fn remainder(
    row: &[u8],
    s: &[u8],
    point: &[i32],
    a: &mut [u32],
    b: &mut [u32],
    c: &mut [u32],
    d: &mut [u32],
) -> Remaindered
    ensures { RemainderCall row.now s.now point.now result
        (work a.old b.old c.old d.old)
        (work a.new b.new c.new d.new) }
{
    door::ready(row, a.len(), b.len(), c.len(), d.len())?;
    if point.len() != row.len() {
        door::clear_tables(a, b, c, d);
        return Err(refusal::of_neither(12));
    }
    let answer = remainder_of(row, s, point, a, b, c, d);
    door::clear_tables(a, b, c, d);
    answer
}
