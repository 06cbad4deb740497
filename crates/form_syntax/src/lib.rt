// Whether a text is a form's text: one function for each part of a form, which answers the place behind the part, or the refusal. Nothing
// is built.
#![tactic(auto)]

ghost use Rattle.std.specs.Prelude.{◌≡◌, false};
ghost use Rattle.refusal.specs.Refusal.{fault};
ghost use Rattle.text.specs.definitions.FormReading.{read_form};
ghost use Rattle.form_syntax.specs.Answer.{form_syntax_of};
ghost use Rattle.form_syntax.specs.Found.{is_at, Expects, NaturalAt, IntAt, IndexAt, LettersAt, FormAt, LastAt, PopAt, PowAt};

use refusal::Fault;

// "Forms nest at most 256 deep."
const DEEPEST: usize = 256;

// The refusal of a byte that no form has there, or of a text that ends too soon.
fn unexpected(place: usize) -> Fault
    ensures { result ≡ fault 4 place }
{
    Fault { number: 4, place }
}

// Whether the byte b stands at a place.
fn is_at(s: &[u8], at: usize, b: u8) -> bool
    ensures { result ≡ is_at s.now at b }
{
    if s.len() <= at {
        return false;
    }
    s[at] == b
}

// The byte b, and no other.
fn expect(s: &[u8], at: usize, b: u8) -> Result<usize, Fault>
    ensures { Expects s.now at b result }
{
    if is_at(s, at, b) {
        return Ok(at + 1);
    }
    Err(unexpected(at))
}

// An integer without a sign: `0`, or digits without a leading zero.
fn natural_at(s: &[u8], at: usize) -> Result<usize, Fault>
    ensures { NaturalAt s.now at result }
{
    if s.len() <= at {
        return Err(unexpected(at));
    }
    let b = s[at];
    let i = at + 1;
    if b == b'0' {
        return Ok(i);
    }
    if !text_word::is_digit(b) {
        return Err(unexpected(at));
    }
    Ok(form_head::digits_end(s, i))
}

// An integer, where no `(` stands; `-0` is none.
fn int_at(s: &[u8], at: usize) -> Result<usize, Fault>
    requires { is_at s.now at 40 ≡ false }
    ensures { IntAt s.now at result }
{
    if !is_at(s, at, b'-') {
        return natural_at(s, at);
    }
    let i = at + 1;
    if is_at(s, i, b'0') {
        return Err(unexpected(i));
    }
    natural_at(s, i)
}

// A space, the i of a POP or POW, and a space.
fn index_at(s: &[u8], at: usize) -> Result<usize, Fault>
    ensures { IndexAt s.now at result }
{
    let i = expect(s, at, b' ')?;
    let e = natural_at(s, i)?;
    expect(s, e, b' ')
}

// The letters `PO`.
fn letters_at(s: &[u8], at: usize) -> Result<usize, Fault>
    ensures { LettersAt s.now at result }
{
    let o = expect(s, at, b'P')?;
    expect(s, o, b'O')
}

// A form, with depth parentheses open.
#[cycle(parts)]
fn form_at(s: &[u8], at: usize, depth: usize) -> Result<usize, Fault>
    ensures { FormAt s.now at depth result }
{
    if !is_at(s, at, b'(') {
        return int_at(s, at);
    }
    if DEEPEST <= depth {
        return Err(Fault {
            number: 6,
            place: at,
        });
    }
    let n = letters_at(s, at + 1)?;
    if is_at(s, n, b'P') {
        return pop_at(s, n + 1, depth + 1);
    }
    if is_at(s, n, b'W') {
        return pow_at(s, n + 1, depth + 1);
    }
    Err(unexpected(n))
}

// The last form of a parenthesis, and the `)`.
#[cycle(parts)]
fn last_at(s: &[u8], at: usize, depth: usize) -> Result<usize, Fault>
    ensures { LastAt s.now at depth result }
{
    let e = form_at(s, at, depth)?;
    expect(s, e, b')')
}

// What follows `(POP`.
#[cycle(parts)]
fn pop_at(s: &[u8], at: usize, depth: usize) -> Result<usize, Fault>
    ensures { PopAt s.now at depth result }
{
    let i = index_at(s, at)?;
    last_at(s, i, depth)
}

// What follows `(POW`.
#[cycle(parts)]
fn pow_at(s: &[u8], at: usize, depth: usize) -> Result<usize, Fault>
    ensures { PowAt s.now at depth result }
{
    let i = index_at(s, at)?;
    let e = form_at(s, i, depth)?;
    let q = expect(s, e, b' ')?;
    last_at(s, q, depth)
}

// Whether s is a form's text, or the refusal 3, 4 or 6 and its place.
pub fn judge_form(s: &[u8]) -> Result<(), Fault>
    ensures { result ≡ form_syntax_of (read_form s.now) }
{
    if 65535 < s.len() {
        return Err(Fault {
            number: 3,
            place: 0,
        });
    }
    let e = form_at(s, 0, 0)?;
    if e != s.len() {
        return Err(unexpected(e));
    }
    Ok(())
}
