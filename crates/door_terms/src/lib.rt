// Two terms read one after the other: the runs of their polynomials stand side by side in the last table, and their forms can be made
// of them.
#![tactic(auto)]

ghost use Rattle.std.specs.Prelude.{true, ◌≡◌, length};
ghost use Rattle.text.specs.definitions.Bytes.{is_row};
ghost use Rattle.code.specs.Lengths.{Full};
ghost use Rattle.term_read.specs.Read.{Roomy, RunRead};
ghost use Rattle.door_terms.specs.Terms.{PairRead, Coding, CodedSides};

use refusal::{Fault, Refusal, Side};

// How many words the left one and the right one take, of two runs or of two forms.
#[derive(Clone, Copy, Debug, PartialEq, Eq)]
pub struct Sizes {
    pub left: usize,
    pub right: usize,
}

// Reads the term s and leaves its run at the front of the table d.
fn read_into(
    row: &[u8],
    s: &[u8],
    a: &mut [u32],
    b: &mut [u32],
    c: &mut [u32],
    d: &mut [u32],
) -> Result<usize, Fault>
    requires row_value { is_row row.now ≡ true }
    requires roomy { Roomy (length a.old) (length b.old) (length c.old) (length d.old) }
    ensures { RunRead row.now s.now result d.new }
{
    let n = term_read::read_run(row, s, a, b, c, d)?;
    code::copy(&a[..n], d);
    Ok(n)
}

// Reads the term s, then the term t, and leaves their runs at the front of the table d, one behind the other.
pub fn read_pair(
    row: &[u8],
    s: &[u8],
    t: &[u8],
    a: &mut [u32],
    b: &mut [u32],
    c: &mut [u32],
    d: &mut [u32],
) -> Result<Sizes, Refusal>
    requires row_value { is_row row.now ≡ true }
    requires full { Full (length a.old) (length b.old) (length c.old) (length d.old) }
    ensures { PairRead row.now s.now t.now result d.new }
{
    let reading = read_into(row, s, a, b, c, d);
    let Ok(left) = reading else {
        return Err(refusal::on_side(Side::Left, reading.unwrap_err()));
    };
    let behind = read_into(row, t, a, b, c, &mut d[left..]);
    let right = behind.map_err(|fault| refusal::on_side(Side::Right, fault))?;
    Ok(Sizes { left, right })
}

// The forms of two runs in n variables, one in the first k words of l and one behind it: their codes, side by side at the front of out.
pub fn code_pair(n: u32, l: &[u32], k: usize, out: &mut [u32]) -> Sizes
    requires { Coding n k l.now (length out.old) }
    ensures { CodedSides n k l.now result.left result.right out.new }
{
    let left = run_code::to_code(&l[..k], 0, n, out);
    let right = run_code::to_code(&l[k..], 0, n, &mut out[left..]);
    Sizes { left, right }
}
