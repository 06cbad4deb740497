// The lines of `compare` and `counters`: each reads the fields of its request, makes its call and writes the answer's line.
#![tactic(auto)]

ghost use Rattle.std.specs.Prelude.{[], ◌∷◌, ◌≤◌, length};
ghost use Rattle.form_write.specs.Write.{Wrote};
ghost use Rattle.desk_reply.specs.Reply.{room};
ghost use Rattle.desk_compare.specs.Compare.{compared_line, compare_line, counted_line, counters_line};

use reply::{Compared, Comparison, Counted};

// The line of a comparison at this point.
fn compared(answer: Compared, point: &[u32], out: &mut [u8]) -> usize
    requires point_len_bound { length point.now ≤ 4 }
    requires room_in_bounds { room ≤ length out.old }
    ensures { Wrote result (compared_line answer point.now) out.old out.new }
{
    match answer {
        Ok(Comparison::Same) => form_write::put(b"SAME", out),
        Ok(Comparison::Different(l, r)) => text_line::different(point, l, r, out),
        Err(bad) => desk_reply::refused(bad, out),
    }
}

// `compare ROW TERM TERM`
pub fn compare_line(
    line: &[u8],
    out: &mut [u8],
    a: &mut [u32],
    b: &mut [u32],
    c: &mut [u32],
    d: &mut [u32],
) -> usize
    requires { room ≤ length out.old }
    ensures { Wrote result (compare_line (length a.old ∷ length b.old ∷ length c.old ∷
        length d.old ∷ []) line.now) out.old out.new }
{
    let n = desk_field::count(line);
    if n != 4 {
        return desk_serve::miscounted(n, 4, out);
    }
    let row = desk_field::field(line, 1);
    let s = desk_field::field(line, 2);
    let t = desk_field::field(line, 3);
    let e = row.len().min(4);
    let mut point = [0u32; 4];
    let answer = call_compare::compare(row, s, t, &mut point, a, b, c, d);
    compared(answer, &point[..e], out)
}

// The line of a comparison as counters.
fn counted(answer: Counted, out: &mut [u8]) -> usize
    requires { room ≤ length out.old }
    ensures { Wrote result (counted_line answer) out.old out.new }
{
    match answer {
        Ok(true) => form_write::put(b"SAME", out),
        Ok(false) => form_write::put(b"DIFF", out),
        Err(bad) => desk_reply::refused(bad, out),
    }
}

// `counters ROW WIDTH TERM TERM`
pub fn counters_line(
    line: &[u8],
    out: &mut [u8],
    a: &mut [u32],
    b: &mut [u32],
    c: &mut [u32],
    d: &mut [u32],
) -> usize
    requires { room ≤ length out.old }
    ensures { Wrote result (counters_line (length a.old ∷ length b.old ∷ length c.old ∷
        length d.old ∷ []) line.now) out.old out.new }
{
    let n = desk_field::count(line);
    if n < 3 {
        return desk_reply::wrong(n, out);
    }
    let Some(w) = desk_field::natural(desk_field::field(line, 2)) else {
        return desk_reply::wrong(2, out);
    };
    if n != 5 {
        return desk_serve::miscounted(n, 5, out);
    }
    let row = desk_field::field(line, 1);
    let s = desk_field::field(line, 3);
    let t = desk_field::field(line, 4);
    let answer = call_counters::counters(row, w, s, t, a, b, c, d);
    counted(answer, out)
}
