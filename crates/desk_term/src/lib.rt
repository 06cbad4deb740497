// The lines of `form` and `remainder`: each reads the fields of its request, makes its call and writes the answer's line.
#![tactic(auto)]

ghost use Rattle.std.specs.Prelude.{[], ◌∷◌, ◌≤◌, length};
ghost use Rattle.form_write.specs.Write.{Wrote};
ghost use Rattle.desk_reply.specs.Reply.{room};
ghost use Rattle.desk_term.specs.Term.{form_line, remainder_line};

// `form ROW TERM`
pub fn form_line(
    line: &[u8],
    out: &mut [u8],
    a: &mut [u32],
    b: &mut [u32],
    c: &mut [u32],
    d: &mut [u32],
) -> usize
    requires { room ≤ length out.old }
    ensures { Wrote result (form_line (length a.old ∷ length b.old ∷ length c.old ∷
        length d.old ∷ []) line.now) out.old out.new }
{
    let n = desk_field::count(line);
    if n != 3 {
        return desk_serve::miscounted(n, 3, out);
    }
    let row = desk_field::field(line, 1);
    let term = desk_field::field(line, 2);
    let answer = call_form::form(row, term, &mut out[5..desk_reply::ROOM], a, b, c, d);
    desk_reply::written(answer, out)
}

// `remainder ROW TERM X1 ..`
pub fn remainder_line(
    line: &[u8],
    out: &mut [u8],
    a: &mut [u32],
    b: &mut [u32],
    c: &mut [u32],
    d: &mut [u32],
) -> usize
    requires { room ≤ length out.old }
    ensures { Wrote result (remainder_line (length a.old ∷ length b.old ∷ length c.old ∷
        length d.old ∷ []) line.now) out.old out.new }
{
    if let Some(f) = desk_serve::point_fault(line) {
        return desk_reply::wrong(f, out);
    }
    let row = desk_field::field(line, 1);
    let term = desk_field::field(line, 2);
    let point = desk_serve::five(line);
    let e = desk_serve::point_length(line);
    let answer = call_remainder::remainder(row, term, &point[..e], a, b, c, d);
    desk_serve::remaindered(answer, out)
}
