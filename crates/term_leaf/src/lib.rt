// The leaves of a term's text: its tokens, and what a word is where a letter or an operand may stand, put down as a leaf's two words.
#![tactic(auto)]

ghost use Rattle.std.specs.Prelude.{◌≡◌, true, ◌∷◌, ◌%◌, ◌+◌, ◌*◌, ◌≤◌, ◌<◌, length, drop};
ghost use Rattle.text_word.specs.Words.{is_integer};
ghost use Rattle.term_leaf.specs.Leaf.{On, Off, number_in, part_in, is_refusal, words, past, AnswerIs, RefusalIs};
ghost use Rattle.term_leaf.specs.Leaf.{WordReady, TokenAt, CodeOf, hex_here, WordSays, word_tree, letter_tree};

use dialect::Dialect;
use refusal::Flaw;
use term_token::{Reader, Step};

// What is answered of a subterm: the words of its tree and the place behind it, or a refusal, whose number 0 is the dialect's own.
// One number, for speed: a Result of 24 bytes was copied through memory at each return.
#[derive(Clone, Copy, Debug, PartialEq, Eq)]
pub struct Answer {
    packed: usize,
}

// From here on it is a refusal.
pub const OFF: usize = 9223372036854775808;

impl Answer {
    pub fn found(words: usize, past: usize) -> Answer
        requires { (words < 1048576) × (past < 65536) }
        ensures { AnswerIs (On words past) result }
    {
        Answer {
            packed: words + 1048576 * past,
        }
    }

    pub fn refuse(number: usize, place: usize, end: usize) -> Answer
        requires { (number < 8) × ((place < 65536) × (end < 65536)) }
        ensures { RefusalIs number place end result }
    {
        Answer {
            packed: OFF + number + 8 * place + 524288 * end,
        }
    }

    pub fn is_refusal(self) -> bool
        ensures { result ≡ is_refusal self }
    {
        OFF <= self.packed
    }

    // The words of the tree that was found.
    pub fn words(self) -> usize
        ensures { result ≡ words self }
    {
        self.packed % 1048576
    }

    // The place behind it.
    pub fn past(self) -> usize
        ensures { result ≡ past self }
    {
        self.packed / 1048576
    }

    // What a refusal says.
    pub fn flaw(self, d: Dialect) -> Flaw
        ensures number { result.number ≡ number_in d (self.packed % 8) }
        ensures refusal { is_refusal self ≡ true → part_in d self ≡ Off result.number result.place result.end }
    {
        let own = (self.packed % 8) as u32;
        Flaw {
            number: if own == 0 { d.wrong } else { own },
            place: self.packed / 8 % 65536,
            end: self.packed / 524288 % 65536,
        }
    }
}

// What a token is.
#[derive(Clone, Copy, Debug, PartialEq, Eq)]
pub enum Kind {
    Open,
    Close,
    Word,
    End,
}

// A token from its first byte to the byte after it.
#[derive(Clone, Copy, Debug, PartialEq, Eq)]
pub struct Token {
    pub kind: Kind,
    pub from: usize,
    pub end: usize,
}

// The token at or behind a place. Inlined, so that its three words go through no memory.
#[inline(always)]
pub fn peek(s: &[u8], at: usize) -> Token
    requires { at ≤ length s.now }
    ensures { TokenAt s.now at result.kind result.from result.end }
{
    let reader = Reader { at };
    let step = reader.next(s);
    match step {
        Step::Open(from, next) => Token {
            kind: Kind::Open,
            from,
            end: next.at,
        },
        Step::Close(from, next) => Token {
            kind: Kind::Close,
            from,
            end: next.at,
        },
        Step::Word { from, next } => Token {
            kind: Kind::Word,
            from,
            end: next.at,
        },
        Step::End => Token {
            kind: Kind::End,
            from: s.len(),
            end: s.len(),
        },
    }
}

// A node's first two words.
pub fn put(out: &mut [u32], head: u32, place: usize, end: usize)
    requires { (2 ≤ length out.old) × ((place < 65536) × (end < 65536)) }
    ensures { out.new ≡ head ∷ ((place + 65536 * end) ∷ drop 2 out.old) }
{
    out[0] = head;
    out[1] = (place as u32) + 65536 * (end as u32);
}

// The code of a decimal integer.
fn decimal(w: &[u8]) -> u32
    requires { is_integer w.now ≡ true }
    ensures { CodeOf w.now result }
{
    if w[0] == b'-' {
        let m = text_word::cut_value(&w[1..], 1073741824);
        if m == 1073741824 {
            return 2147483647;
        }
        return 2147483647 - m;
    }
    let m = text_word::cut_value(w, 1073741824);
    if m == 1073741824 {
        return 2147483647;
    }
    m
}

// A word from p to e, where a letter may stand.
pub fn letter_of(d: Dialect, row: &[u8], w: &[u8], p: usize, e: usize, out: &mut [u32]) -> Answer
    requires { WordReady row.now w.now p e (length out.old) }
    ensures { WordSays d row.now (letter_tree p w.now) w.now p e out.new (part_in d result) }
{
    if w.len() != 1 {
        return Answer::refuse(0, p, e);
    }
    let b = w[0];
    if !text_word::is_capital(b) {
        return Answer::refuse(0, p, e);
    }
    let i = text_word::index_in(row, b);
    if row.len() <= i {
        return Answer::refuse(5, p, e);
    }
    put(out, 2147483648 + 8 * (i as u32), p, e);
    Answer::found(2, e)
}

// Whether the dialect has hexadecimal integers and w is one.
fn hex_here(d: Dialect, w: &[u8]) -> bool
    ensures { result ≡ hex_here d w.now }
{
    d.hex && term_hex::is_hex(w)
}

// A word from p to e, where an operand may stand.
pub fn word_at(d: Dialect, row: &[u8], w: &[u8], p: usize, e: usize, out: &mut [u32]) -> Answer
    requires { WordReady row.now w.now p e (length out.old) }
    ensures { WordSays d row.now (word_tree d p w.now) w.now p e out.new (part_in d result) }
{
    if text_word::is_integer(w) {
        put(out, decimal(w), p, e);
        return Answer::found(2, e);
    }
    if hex_here(d, w) {
        put(out, term_hex::hex_code(w), p, e);
        return Answer::found(2, e);
    }
    letter_of(d, row, w, p, e, out)
}
