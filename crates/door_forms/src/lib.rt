// Two forms read one after the other, their codes side by side at the front of one table; and the operations on them.
#![tactic(auto)]

ghost use Rattle.std.specs.Prelude.{true, ◌≡◌, ◌≤◌, ℕ, ℤ, length};
ghost use Rattle.horner.specs.definitions.Form.{Form};
ghost use Rattle.text.specs.definitions.Bytes.{is_row};
ghost use Rattle.reply.specs.definitions.Reply.{lengths, opened, result_after, work, Writes};
ghost use Rattle.reply.specs.definitions.Calls.{two_of, Measured};
ghost use Rattle.code.specs.Coding.{Made};
ghost use Rattle.code.specs.Lengths.{Long};
ghost use Rattle.measure.specs.Measure.{Small};
ghost use Rattle.measure.specs.declared.Measures.{Measures};
ghost use Rattle.form_build.specs.Build.{over_p};
ghost use Rattle.door_result.specs.Result.{written_of};
ghost use Rattle.door_forms.specs.Forms.{PairRead};
ghost use Rattle.door_forms.specs.Operation.{Fitting, OperationLaws};

use form_read::FormCode;
use measure::Measures;
use refusal::{Refusal, Side};
use reply::Written;

// The left form and the right one, as they were read.
#[derive(Clone, Copy, Debug, PartialEq, Eq)]
pub struct FormPair {
    pub left: FormCode,
    pub right: FormCode,
}

// Reads the form s, then the form t, over a row of m letters, and leaves their codes at the front of the table a, one behind the other.
pub fn read_pair(m: usize, s: &[u8], t: &[u8], a: &mut [u32]) -> Result<FormPair, Refusal>
    requires { (m ≤ 4) × (6146 ≤ length a.old) }
    ensures { PairRead m s.now t.now result a.new }
{
    let reading = form_read::read_form(m, s, a);
    let Ok(left) = reading else {
        return Err(refusal::on_side(Side::Left, reading.unwrap_err()));
    };
    let behind = form_read::read_form(m, t, &mut a[left.words..]);
    let right = behind.map_err(|fault| refusal::on_side(Side::Right, fault))?;
    Ok(FormPair { left, right })
}

// What the calls on two forms differ in.
pub trait Operation {
    // How the result is measured, of two forms over a row and of the measures that were found of them; and the result.
    ghost measured: { ℕ → Form ℤ → Form ℤ → Measured };

    ghost found: { Measures → Measures → Measures };

    ghost op: { Form ℤ → Form ℤ → Form ℤ };

    fn measure(x: Measures, y: Measures) -> Measures
        requires { Small x × Small y }
        ensures { result ≡ found x y };

    // Writes the result of the pair in the table a at its front, and returns how many words it takes. The other tables are for the work.
    fn combine(pair: FormPair, a: &mut [u32], b: &mut [u32], c: &mut [u32], d: &mut [u32]) -> usize
        requires long { Long (length a.old) (length b.old) (length c.old) (length d.old) }
        requires fitting { Fitting found pair a.old }
        ensures { (F : Fitting found pair a.old) → Made 0 (over_p (op F.pair.of_left.f F.pair.of_right.f)) result a.new };

    ghost laws: { OperationLaws measured found op };
}

// The text of the result of the forms s and t, where the row is proper and the tables are long enough.
fn two_of<O: Operation>(
    row: &[u8],
    s: &[u8],
    t: &[u8],
    res: &mut [u8],
    a: &mut [u32],
    b: &mut [u32],
    c: &mut [u32],
    d: &mut [u32],
) -> Written
    requires row_value { is_row row.now ≡ true }
    requires long { Long (length a.old) (length b.old) (length c.old) (length d.old) }
    ensures value { result ≡ written_of (two_of (O.measured (length row.now)) O.op row.now s.now t.now (length res.old)) }
    ensures res_after { res.new ≡ result_after (two_of (O.measured (length row.now)) O.op row.now s.now t.now (length res.old))
        res.old }
{
    let pair = read_pair(row.len(), s, t, a)?;
    let found = O::measure(pair.left.measures, pair.right.measures);
    measure::within(found).map_err(refusal::of_neither)?;
    let words = O::combine(pair, a, b, c, d);
    door_result::write_result(&a[..words], res)
}

// The text of the result of the forms s and t over the row, at the front of the result buffer; or a refusal. The work tables are cleared,
// but not where 1 or 2 is refused.
pub fn operate<O: Operation>(
    row: &[u8],
    s: &[u8],
    t: &[u8],
    res: &mut [u8],
    a: &mut [u32],
    b: &mut [u32],
    c: &mut [u32],
    d: &mut [u32],
) -> Written
    ensures { Writes
        (opened row.now (lengths (work a.old b.old c.old d.old))
        (λ u. two_of (O.measured (length row.now)) O.op row.now s.now t.now (length res.old)))
        result res.old res.new (work a.old b.old c.old d.old) (work a.new b.new c.new d.new) }
{
    door::ready(row, a.len(), b.len(), c.len(), d.len())?;
    let answer = two_of::<O>(row, s, t, res, a, b, c, d);
    door::clear_tables(a, b, c, d);
    answer
}
