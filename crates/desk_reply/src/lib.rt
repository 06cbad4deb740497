// The line that answers a request, written at the front of a lent buffer.
#![tactic(auto)]

ghost use Rattle.std.specs.Prelude.{◌++◌, ◌+◌, ◌≤◌, length};
ghost use Rattle.text.specs.definitions.Bytes.{decimal};
ghost use Rattle.form_write.specs.Write.{Wrote};
ghost use Rattle.desk_reply.specs.Reply.{wrong_text, refused_text, remainder_text, LineFits, Replied};

use refusal::{Refusal, Side};
use reply::Written;

// The bytes that an answer may take: `FORM `, and a result of at most 65,535 bytes.
pub const ROOM: usize = 65540;

// Words, and a number behind them.
fn put_numbered(words: &[u8], n: u64, out: &mut [u8]) -> usize
    requires { length words.now + 20 ≤ length out.old }
    ensures wrote { Wrote result (words.now ++ decimal n) out.old out.new }
    ensures upper_bound { result ≤ length words.now + 20 }
{
    let at = form_write::put(words, out);
    at + form_write::write_number(n, &mut out[at..])
}

// `? n`: field n of the request is the first wrong one.
pub fn wrong(n: usize, out: &mut [u8]) -> usize
    requires { 64 ≤ length out.old }
    ensures { Wrote result (wrong_text n) out.old out.new }
{
    put_numbered(b"? ", n as u64, out)
}

// `REFUSED number side place`
pub fn refused(bad: Refusal, out: &mut [u8]) -> usize
    requires { 64 ≤ length out.old }
    ensures { Wrote result (refused_text bad) out.old out.new }
{
    let side: &[u8] = match bad.side {
        Side::Left => b" left ",
        Side::Right => b" right ",
        Side::Neither => b" neither ",
    };
    let at = put_numbered(b"REFUSED ", u64::from(bad.number), out);
    at + put_numbered(side, bad.place as u64, &mut out[at..])
}

// `FORM text`, where the text stands behind the first 5 bytes already; or a refusal.
pub fn written(answer: Written, out: &mut [u8]) -> usize
    requires { LineFits answer (length out.old) }
    ensures { Replied answer result out.old out.new }
{
    match answer {
        Ok(n) => form_write::put(b"FORM ", out) + n,
        Err(bad) => refused(bad, out),
    }
}

// `REMAINDER n`
pub fn remainder(n: u32, out: &mut [u8]) -> usize
    requires { 64 ≤ length out.old }
    ensures { Wrote result (remainder_text n) out.old out.new }
{
    put_numbered(b"REMAINDER ", u64::from(n), out)
}
