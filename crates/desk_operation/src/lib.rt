// The lines of `add` and `multiply`, the words on two forms: each reads the fields of its request, makes its call and writes the answer's
// line.
#![tactic(auto)]

ghost use Rattle.std.specs.Prelude.{[], ◌∷◌, ◌≤◌, length};
ghost use Rattle.form_write.specs.Write.{Wrote};
ghost use Rattle.desk_reply.specs.Reply.{room};
ghost use Rattle.desk_operation.specs.Operation.{add_line, multiply_line};

// `add ROW FORM FORM`
pub fn add_line(
    line: &[u8],
    out: &mut [u8],
    a: &mut [u32],
    b: &mut [u32],
    c: &mut [u32],
    d: &mut [u32],
) -> usize
    requires { room ≤ length out.old }
    ensures { Wrote result (add_line (length a.old ∷ length b.old ∷ length c.old ∷
        length d.old ∷ []) line.now) out.old out.new }
{
    let n = desk_field::count(line);
    if n != 4 {
        return desk_serve::miscounted(n, 4, out);
    }
    let row = desk_field::field(line, 1);
    let x = desk_field::field(line, 2);
    let y = desk_field::field(line, 3);
    let answer = call_add::add(row, x, y, &mut out[5..desk_reply::ROOM], a, b, c, d);
    desk_reply::written(answer, out)
}

// `multiply ROW FORM FORM`
pub fn multiply_line(
    line: &[u8],
    out: &mut [u8],
    a: &mut [u32],
    b: &mut [u32],
    c: &mut [u32],
    d: &mut [u32],
) -> usize
    requires { room ≤ length out.old }
    ensures { Wrote result (multiply_line (length a.old ∷ length b.old ∷ length c.old ∷
        length d.old ∷ []) line.now) out.old out.new }
{
    let n = desk_field::count(line);
    if n != 4 {
        return desk_serve::miscounted(n, 4, out);
    }
    let row = desk_field::field(line, 1);
    let x = desk_field::field(line, 2);
    let y = desk_field::field(line, 3);
    let answer = call_multiply::multiply(row, x, y, &mut out[5..desk_reply::ROOM], a, b, c, d);
    desk_reply::written(answer, out)
}
