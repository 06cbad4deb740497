// The tokens of a text, one after the other, and what a word is.
#![tactic(auto)]

ghost use Rattle.std.specs.Prelude.{◌≡◌, ℕ, Bool, ◌+◌, ◌≤◌, length, drop};
ghost use Rattle.text.specs.definitions.Bytes.{blank, tokens, in_word};
ghost use Rattle.term_token.specs.Steps.{lead, step_of};

// How far a text has been read. Each method consumes it, and hands on the token together with the advanced reader.
#[derive(Debug, Drop, PartialEq, Eq)]
pub struct Reader {
    pub at: usize,
}

#[derive(Debug, Drop, PartialEq, Eq)]
pub enum Step {
    // its place, and the reader past it
    Open(usize, Reader),
    Close(usize, Reader),
    Word { from: usize, next: Reader },
    End,
}

fn is_blank(b: u8) -> bool
    ensures { result ≡ blank b }
{
    matches!(b, b' ' | b'\n')
}

fn is_plain(b: u8) -> bool
    ensures { result ≡ in_word b }
{
    !is_blank(b) && !matches!(b, b'(' | b')')
}

// The first place at or after `at` whose byte doesn't pass the test.
fn run_end<F: Fn(u8) -> bool>(s: &[u8], at: usize, passes: F) -> usize
    requires inside { at ≤ length s.now }
    requires callable { F.IsAlwaysCallable passes }
    ensures value { (t : ℕ → Bool) → ((x : ℕ) (b : Bool) → F.post passes x b → b ≡ t x) → result ≡ at + lead t (drop at s.now) }
    ensures upper_bound { result ≤ length s.now }
{
    match s[at..].iter().position(|b| !passes(*b)) {
        Some(n) => at + n,
        None => s.len(),
    }
}

impl Reader {
    // The next token of s, or its end.
    pub fn next(self, s: &[u8]) -> Step
        requires { self.at ≤ length s.now }
        ensures { result ≡ step_of (tokens self.at (drop self.at s.now)) }
    {
        let from = run_end(s, self.at, is_blank);
        match s.get(from) {
            None => Step::End,
            Some(b'(') => Step::Open(from, Reader { at: from + 1 }),
            Some(b')') => Step::Close(from, Reader { at: from + 1 }),
            Some(_) => Step::Word {
                from,
                next: Reader {
                    at: run_end(s, from, is_plain),
                },
            },
        }
    }
}
