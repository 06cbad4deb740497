// A term's text read into the run of its polynomial, and into its coded form.
#![tactic(auto)]

ghost use Rattle.std.specs.Prelude.{true, ◌≡◌, length};
ghost use Rattle.text.specs.definitions.Bytes.{is_row};
ghost use Rattle.code.specs.Lengths.{Long};
ghost use Rattle.term_read.specs.Read.{Roomy, RunRead, TermRead};

use code::TABLE;
use refusal::Fault;

// Reads the term s and leaves its polynomial's run at the front of stack; the other tables are for its tree, and for what is on its way.
// Answers how many words the run takes.
pub fn read_run(
    row: &[u8],
    s: &[u8],
    stack: &mut [u32],
    tree: &mut [u32],
    out: &mut [u32],
    other: &mut [u32],
) -> Result<usize, Fault>
    requires row_value { is_row row.now ≡ true }
    requires roomy { Roomy (length stack.old) (length tree.old) (length out.old) (length other.old) }
    ensures { RunRead row.now s.now result stack.new }
{
    match term_accept::accept_term(dialect::ordinary(), row, s, tree) {
        Ok(k) => Ok(term_build::build_term(row.len(), &tree[..k], stack, out, &mut other[..1024])),
        Err(flaw) => Err(Fault::from(flaw)),
    }
}

// Reads the term s and leaves its form at the front of the table a. Answers how many words the form takes.
pub fn read_term(
    row: &[u8],
    s: &[u8],
    a: &mut [u32],
    b: &mut [u32],
    c: &mut [u32],
    d: &mut [u32],
) -> Result<usize, Fault>
    requires row_value { is_row row.now ≡ true }
    requires long { Long (length a.old) (length b.old) (length c.old) (length d.old) }
    ensures { TermRead row.now s.now result a.new }
{
    let n = read_run(row, s, b, c, a, d)?;
    Ok(run_code::to_code(&b[..n], 0, row.len() as u32, &mut a[..TABLE]))
}
