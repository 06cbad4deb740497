// The text of a form, with all its refusals: judged, and read into its coded form.
#![tactic(auto)]

ghost use Rattle.std.specs.Prelude.{◌≡◌, ◌≤◌, length};
ghost use Rattle.text.specs.definitions.FormReading.{accept_form};
ghost use Rattle.form_build.specs.Answer.{judged_of};
ghost use Rattle.form_read.specs.Read.{FormRead};

use measure::Measures;
use refusal::Fault;

// Of a form that was read: its measures, and how many words its code takes.
#[derive(Clone, Copy, Debug, PartialEq, Eq)]
pub struct FormCode {
    pub measures: Measures,
    pub words: usize,
}

// Whether s is a form over a row of m letters: its measures, or the refusal 3, 4, 6, 7, 8, 9 or 10 and its place.
#[tactic(auto, using(crate::specs::laws::Read::syntax_refused))]
pub fn accept_form(m: usize, s: &[u8]) -> Result<Measures, Fault>
    requires { m ≤ 4 }
    ensures { result ≡ judged_of m (accept_form m s.now) }
{
    form_syntax::judge_form(s)?;
    form_build::judge_text(m, s)
}

// Reads the form s over a row of m letters and leaves its code at the front of out.
pub fn read_form(m: usize, s: &[u8], out: &mut [u32]) -> Result<FormCode, Fault>
    requires { (m ≤ 4) × (3073 ≤ length out.old) }
    ensures { FormRead m s.now result out.new }
{
    let measures = accept_form(m, s)?;
    let words = form_build::build_form(m, s, &mut out[..3073]);
    Ok(FormCode { measures, words })
}
