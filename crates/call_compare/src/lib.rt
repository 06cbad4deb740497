// The call `compare`: two terms over the whole numbers.
#![tactic(auto)]

ghost use Rattle.reply.specs.definitions.Reply.{work};
ghost use Rattle.reply.specs.definitions.Calls.{CompareCall};

use reply::Compared;

// Compares the terms s and t over the row. On 'different' the first point stands at the front of the point buffer. The work tables are
// cleared, but not where 1 or 2 is refused.
pub fn compare(
    row: &[u8],
    s: &[u8],
    t: &[u8],
    point: &mut [u32],
    a: &mut [u32],
    b: &mut [u32],
    c: &mut [u32],
    d: &mut [u32],
) -> Compared
    ensures { CompareCall row.now s.now t.now result point.old point.new
        (work a.old b.old c.old d.old)
        (work a.new b.new c.new d.new) }
{
    door::ready(row, a.len(), b.len(), c.len(), d.len())?;
    if point.len() < row.len() {
        return Err(refusal::of_neither(2));
    }
    let answer = door_compare::compare_of(row, s, t, point, a, b, c, d);
    door::clear_tables(a, b, c, d);
    answer
}
