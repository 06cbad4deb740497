// The answer to a request line: its word chooses which line is written.
#![tactic(auto)]

ghost use Rattle.std.specs.Prelude.{[], ◌∷◌, ◌≡◌, ◌≤◌, length};
ghost use Rattle.form_write.specs.Write.{Wrote};
ghost use Rattle.desk_reply.specs.Reply.{room};
ghost use Rattle.desk_answer.specs.Answer.{word_of, line_answer, answer_in};

// The words, and what is none.
#[derive(Clone, Copy, Debug, PartialEq, Eq)]
enum Word {
    Form,
    Remainder,
    Judge,
    Negate,
    Add,
    Multiply,
    Raise,
    FormRemainder,
    Compare,
    Counters,
    Unknown,
}

// Which word is spelt so. A `match` on the bytes was tried, and its proof did not close: its last arm alone is more than 25 goals.
fn word_of(field: &[u8]) -> Word
    ensures { result ≡ word_of field.now }
{
    if check::same(field, b"form") {
        return Word::Form;
    }
    if check::same(field, b"remainder") {
        return Word::Remainder;
    }
    if check::same(field, b"judge") {
        return Word::Judge;
    }
    if check::same(field, b"negate") {
        return Word::Negate;
    }
    if check::same(field, b"add") {
        return Word::Add;
    }
    if check::same(field, b"multiply") {
        return Word::Multiply;
    }
    if check::same(field, b"raise") {
        return Word::Raise;
    }
    if check::same(field, b"formremainder") {
        return Word::FormRemainder;
    }
    if check::same(field, b"compare") {
        return Word::Compare;
    }
    if check::same(field, b"counters") {
        return Word::Counters;
    }
    Word::Unknown
}

// The answer to a line, by its word. A new word is one arm.
fn word_line(
    line: &[u8],
    out: &mut [u8],
    a: &mut [u32],
    b: &mut [u32],
    c: &mut [u32],
    d: &mut [u32],
) -> usize
    requires { room ≤ length out.old }
    ensures { Wrote result
        (line_answer (length a.old ∷ length b.old ∷ length c.old ∷ length d.old ∷ [])
        line.now)
        out.old out.new }
{
    let word = word_of(desk_field::field(line, 0));
    match word {
        Word::Form => desk_term::form_line(line, out, a, b, c, d),
        Word::Remainder => desk_term::remainder_line(line, out, a, b, c, d),
        Word::Judge => desk_form::judge_line(line, out),
        Word::Negate => desk_form::negate_line(line, out, a, b, c, d),
        Word::Add => desk_operation::add_line(line, out, a, b, c, d),
        Word::Multiply => desk_operation::multiply_line(line, out, a, b, c, d),
        Word::Raise => desk_form::raise_line(line, out, a, b, c, d),
        Word::FormRemainder => desk_form::form_remainder_line(line, out, a, b, c, d),
        Word::Compare => desk_compare::compare_line(line, out, a, b, c, d),
        Word::Counters => desk_compare::counters_line(line, out, a, b, c, d),
        Word::Unknown => desk_reply::wrong(0, out),
    }
}

// The answer to a request line, at the front of out, and how many bytes it takes; none where out is shorter than an answer may be.
pub fn answer_line(
    line: &[u8],
    out: &mut [u8],
    a: &mut [u32],
    b: &mut [u32],
    c: &mut [u32],
    d: &mut [u32],
) -> usize
    ensures { Wrote result
        (answer_in (length out.old)
        (length a.old ∷ length b.old ∷ length c.old ∷ length d.old ∷ []) line.now)
        out.old out.new }
{
    if out.len() < desk_reply::ROOM {
        return 0;
    }
    word_line(line, out, a, b, c, d)
}
