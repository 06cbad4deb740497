// A term's text is read once, into the words of its tree: one function for each part of a term, which answers how many words were written
// at the front of `out` and the place behind the part, or the refusal, as one number.
#![tactic(auto)]

ghost use Rattle.std.specs.Prelude.{◌≡◌, [], length};
ghost use Rattle.term_leaf.specs.Leaf.{part_in};
ghost use Rattle.term_parse.specs.Found.{closes_only, Ready, TermAt, ListAt, SecondAt, PowerAt, ExponentAt, LetterAt, ClosedAt};
ghost use Rattle.term_parse.specs.Found.{TokenReady, OperandOf, code_of};
ghost use Rattle.term_parse.specs.Found.{ParsedAs, ListReady, PowerReady, OperandReady, SecondReady, ClosedReady, ParseReady};

use dialect::Dialect;
use refusal::Flaw;
use term_leaf::{Answer, Kind, Token};
use text_word::Operator;

// The number that begins a node's head word, by its operator.
fn code_of(op: Operator) -> u32
    ensures { result ≡ code_of op }
{
    match op {
        Operator::Plus => 2147483650,
        Operator::Minus => 2147483651,
        Operator::Times => 2147483652,
        Operator::Power => 2147483653,
    }
}

// A text, the dialect that it is read in, and the row of its letters.
#[derive(Clone, Copy)]
struct Source<'a> {
    dialect: Dialect,
    row: &'a [u8],
    text: &'a [u8],
}

impl Source<'_> {
    // The end of the node at p, whose operands are in place: a `)`, and then its first two words.
    fn closed(&self, p: usize, head: u32, size: usize, at: usize, out: &mut [u32]) -> Answer
        requires { ClosedReady self.now.text.now p size at (length out.old) }
        ensures { ClosedAt self.now.dialect self.now.text.now p head size at out.old out.new (part_in self.now.dialect result) }
    {
        let t = term_leaf::peek(self.text, at);
        if t.kind != Kind::Close {
            return Answer::refuse(0, t.from, t.end);
        }
        term_leaf::put(out, head, p, t.end);
        Answer::found(size, t.end)
    }

    // A power's exponent, and its `)`; the base, of k words, stands in out behind two free words.
    fn exponent_at(&self, p: usize, k: usize, at: usize, out: &mut [u32]) -> Answer
        requires { OperandReady self.now.dialect self.now.row.now self.now.text.now p k at (length out.old) }
        ensures { ExponentAt self.now.dialect self.now.row.now self.now.text.now p k at out.old out.new (part_in self.now.dialect result) }
    {
        let t = term_leaf::peek(self.text, at);
        if t.kind != Kind::Word {
            return Answer::refuse(0, t.from, t.end);
        }
        let word = &self.text[t.from..t.end];
        if !text_word::is_natural(word) {
            return Answer::refuse(0, t.from, t.end);
        }
        let n = text_word::cut_value(word, 64);
        self.closed(p, code_of(Operator::Power) + 8 * n, 2 + k, t.end, out)
    }

    // A panel term's base: a letter.
    fn letter_at(&self, at: usize, out: &mut [u32]) -> Answer
        requires { Ready self.now.dialect self.now.row.now self.now.text.now at at (length out.old) }
        ensures { LetterAt self.now.dialect self.now.row.now self.now.text.now at out.new (part_in self.now.dialect result) }
    {
        let t = term_leaf::peek(self.text, at);
        if t.kind != Kind::Word {
            return Answer::refuse(0, t.from, t.end);
        }
        let word = &self.text[t.from..t.end];
        term_leaf::letter_of(self.dialect, self.row, word, t.from, t.end, out)
    }

    // A term, with depth parentheses open.
    #[cycle(terms)]
    fn term_at(&self, at: usize, depth: usize, out: &mut [u32]) -> Answer
        requires { Ready self.now.dialect self.now.row.now self.now.text.now at at (length out.old) }
        ensures { TermAt self.now.dialect self.now.row.now self.now.text.now at depth out.new (part_in self.now.dialect result) }
    {
        self.operand_of(term_leaf::peek(self.text, at), depth, out)
    }

    // A term whose first token is known, with depth parentheses open.
    #[cycle(terms)]
    fn operand_of(&self, t: Token, depth: usize, out: &mut [u32]) -> Answer
        requires { TokenReady self.now.dialect self.now.row.now self.now.text.now t.kind t.from t.end (length out.old) }
        ensures { OperandOf self.now.dialect self.now.row.now self.now.text.now t.kind t.from t.end depth out.new
            (part_in self.now.dialect result) }
    {
        match t.kind {
            Kind::Word => {
                let word = &self.text[t.from..t.end];
                term_leaf::word_at(self.dialect, self.row, word, t.from, t.end, out)
            }
            Kind::Open if self.dialect.depth <= depth => Answer::refuse(6, t.from, t.end),
            Kind::Open => self.list_at(t.from, t.end, depth, out),
            Kind::Close | Kind::End => Answer::refuse(0, t.from, t.end),
        }
    }

    // What follows the `(` at p.
    #[cycle(terms)]
    fn list_at(&self, p: usize, at: usize, depth: usize, out: &mut [u32]) -> Answer
        requires { ListReady self.now.dialect self.now.row.now self.now.text.now p at depth (length out.old) }
        ensures { ListAt self.now.dialect self.now.row.now self.now.text.now p at depth out.new (part_in self.now.dialect result) }
    {
        let t = term_leaf::peek(self.text, at);
        if t.kind != Kind::Word {
            return Answer::refuse(0, t.from, t.end);
        }
        let Some(op) = text_word::operator_of(&self.text[t.from..t.end]) else {
            return Answer::refuse(0, t.from, t.end);
        };
        if op == Operator::Power {
            return self.power_at(p, t.end, depth, out);
        }
        let x = self.term_at(t.end, depth + 1, &mut out[2..]);
        if x.is_refusal() {
            return x;
        }
        self.second_at(p, op, x.words(), x.past(), depth, out)
    }

    // Whether behind the first operand only a `)` may stand.
    fn closes_only(&self, op: Operator) -> bool
        ensures { result ≡ closes_only self.now.dialect [] op }
    {
        op == Operator::Minus && self.dialect.panel
    }

    // What follows the first operand of `+`, `-` or `*`, of k words, which stands in out behind two free words.
    // Inlined into its one caller, as the next is: a second operand has one frame.
    #[inline(always)]
    #[cycle(terms)]
    fn second_at(
        &self,
        p: usize,
        op: Operator,
        k: usize,
        at: usize,
        depth: usize,
        out: &mut [u32],
    ) -> Answer
        requires { SecondReady self.now.dialect self.now.row.now self.now.text.now p op k at depth (length out.old) }
        ensures { SecondAt self.now.dialect self.now.row.now self.now.text.now p op k at depth out.old out.new
            (part_in self.now.dialect result) }
    {
        let t = term_leaf::peek(self.text, at);
        if t.kind == Kind::Close {
            if op == Operator::Minus {
                term_leaf::put(out, 2147483649, p, t.end);
                return Answer::found(2 + k, t.end);
            }
            return Answer::refuse(0, t.from, t.end);
        }
        if self.closes_only(op) {
            return Answer::refuse(0, t.from, t.end);
        }
        let y = self.operand_of(t, depth + 1, &mut out[2 + k..]);
        if y.is_refusal() {
            return y;
        }
        let head = code_of(op) + 8 * (k as u32);
        self.closed(p, head, 2 + k + y.words(), y.past(), out)
    }

    // What follows `(EXPT`.
    #[inline(always)]
    #[cycle(terms)]
    fn power_at(&self, p: usize, at: usize, depth: usize, out: &mut [u32]) -> Answer
        requires { PowerReady self.now.dialect self.now.row.now self.now.text.now p at depth (length out.old) }
        ensures { PowerAt self.now.dialect self.now.row.now self.now.text.now p at depth out.new (part_in self.now.dialect result) }
    {
        if self.dialect.panel {
            let b = self.letter_at(at, &mut out[2..]);
            if b.is_refusal() {
                return b;
            }
            return self.exponent_at(p, b.words(), b.past(), out);
        }
        let x = self.term_at(at, depth + 1, &mut out[2..]);
        if x.is_refusal() {
            return x;
        }
        self.exponent_at(p, x.words(), x.past(), out)
    }
}

// How many words at the front of out are the tree of the whole text, or the refusal.
pub fn parse(d: Dialect, row: &[u8], s: &[u8], out: &mut [u32]) -> Result<usize, Flaw>
    requires { ParseReady d row.now (length out.old) }
    ensures { ParsedAs d row.now s.now out.new result }
{
    if d.bytes < s.len() {
        return Err(Flaw {
            number: 3,
            place: 0,
            end: 0,
        });
    }
    let source = Source {
        dialect: d,
        row,
        text: s,
    };
    let x = source.term_at(0, 0, out);
    if x.is_refusal() {
        return Err(x.flaw(d));
    }
    let t = term_leaf::peek(s, x.past());
    if t.kind != Kind::End {
        return Err(Flaw {
            number: d.wrong,
            place: t.from,
            end: t.end,
        });
    }
    Ok(x.words())
}
