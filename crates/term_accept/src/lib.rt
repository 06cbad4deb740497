// A term's text of a dialect, read once into its tree and measured over the tree: every refusal, with place and end.
#![tactic(auto)]

ghost use Rattle.std.specs.Prelude.{length};
ghost use Rattle.term_parse.specs.Found.{ParseReady};
ghost use Rattle.term_accept.specs.Accepted.{AcceptedAs};

use dialect::Dialect;
use refusal::Flaw;

// How many words at the front of out are the tree, or the refusal.
pub fn accept_term(d: Dialect, row: &[u8], s: &[u8], out: &mut [u32]) -> Result<usize, Flaw>
    requires { ParseReady d row.now (length out.old) }
    ensures { AcceptedAs d row.now s.now out.new result }
{
    let k = term_parse::parse(d, row, s, out)?;
    match term_measure::measure_tree(&out[..k]) {
        Ok(_) => Ok(k),
        Err(flaw) => Err(flaw),
    }
}
