// The lines of `judge`, `negate`, `raise` and `formremainder`, the words on one form: each reads the fields of its request, makes its call
// and writes the answer's line.
#![tactic(auto)]

ghost use Rattle.std.specs.Prelude.{[], ◌∷◌, ◌≤◌, length};
ghost use Rattle.form_write.specs.Write.{Wrote};
ghost use Rattle.desk_reply.specs.Reply.{room};
ghost use Rattle.desk_form.specs.Form.{judged_line, judge_line, negate_line, raise_line, form_remainder_line};

use reply::Judged;

// The line of a judgement.
fn judged(answer: Judged, out: &mut [u8]) -> usize
    requires { room ≤ length out.old }
    ensures { Wrote result (judged_line answer) out.old out.new }
{
    match answer {
        Ok(()) => form_write::put(b"YES", out),
        Err(bad) => desk_reply::refused(bad, out),
    }
}

// `judge ROW FORM`
pub fn judge_line(line: &[u8], out: &mut [u8]) -> usize
    requires { room ≤ length out.old }
    ensures { Wrote result (judge_line line.now) out.old out.new }
{
    let n = desk_field::count(line);
    if n != 3 {
        return desk_serve::miscounted(n, 3, out);
    }
    let row = desk_field::field(line, 1);
    let x = desk_field::field(line, 2);
    let answer = call_judge::judge(row, x);
    judged(answer, out)
}

// `negate ROW FORM`
pub fn negate_line(
    line: &[u8],
    out: &mut [u8],
    a: &mut [u32],
    b: &mut [u32],
    c: &mut [u32],
    d: &mut [u32],
) -> usize
    requires { room ≤ length out.old }
    ensures { Wrote result (negate_line (length a.old ∷ length b.old ∷ length c.old ∷
        length d.old ∷ []) line.now) out.old out.new }
{
    let n = desk_field::count(line);
    if n != 3 {
        return desk_serve::miscounted(n, 3, out);
    }
    let row = desk_field::field(line, 1);
    let x = desk_field::field(line, 2);
    let answer = call_negate::negate(row, x, &mut out[5..desk_reply::ROOM], a, b, c, d);
    desk_reply::written(answer, out)
}

// `raise ROW FORM N`
pub fn raise_line(
    line: &[u8],
    out: &mut [u8],
    a: &mut [u32],
    b: &mut [u32],
    c: &mut [u32],
    d: &mut [u32],
) -> usize
    requires { room ≤ length out.old }
    ensures { Wrote result (raise_line (length a.old ∷ length b.old ∷ length c.old ∷
        length d.old ∷ []) line.now) out.old out.new }
{
    let n = desk_field::count(line);
    if n < 4 {
        return desk_reply::wrong(n, out);
    }
    let Some(k) = desk_field::natural(desk_field::field(line, 3)) else {
        return desk_reply::wrong(3, out);
    };
    if n != 4 {
        return desk_serve::miscounted(n, 4, out);
    }
    let row = desk_field::field(line, 1);
    let x = desk_field::field(line, 2);
    let answer = call_raise::raise(row, x, k, &mut out[5..desk_reply::ROOM], a, b, c, d);
    desk_reply::written(answer, out)
}

// `formremainder ROW FORM X1 ..`
pub fn form_remainder_line(
    line: &[u8],
    out: &mut [u8],
    a: &mut [u32],
    b: &mut [u32],
    c: &mut [u32],
    d: &mut [u32],
) -> usize
    requires { room ≤ length out.old }
    ensures { Wrote result (form_remainder_line (length a.old ∷ length b.old ∷ length c.old ∷
        length d.old ∷ []) line.now) out.old out.new }
{
    if let Some(f) = desk_serve::point_fault(line) {
        return desk_reply::wrong(f, out);
    }
    let row = desk_field::field(line, 1);
    let x = desk_field::field(line, 2);
    let point = desk_serve::five(line);
    let e = desk_serve::point_length(line);
    let answer = call_form_remainder::form_remainder(row, x, &point[..e], a, b, c, d);
    desk_serve::remaindered(answer, out)
}
