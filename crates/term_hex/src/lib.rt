// Hexadecimal integers: whether a word is one, and its code in a tree.
#![tactic(auto)]

ghost use Rattle.std.specs.Prelude.{◌≡◌, true, ◌≤◌, min, pos, drop};
ghost use Rattle.text.specs.definitions.Bytes.{all};
ghost use Rattle.term_tree.specs.Coding.{int_code};
ghost use Rattle.text.specs.definitions.Integers.{hex_digit, hex_value, hex_digits, is_hex, hex_from};

// "one to eight digits"
const LONGEST: usize = 8;

// Whether b is 0 to 9 or A to F.
fn is_hex_digit(b: u8) -> bool
    ensures { result ≡ hex_digit b }
{
    matches!(b, b'0'..=b'9' | b'A'..=b'F')
}

// What a digit stands for.
fn value_of(b: u8) -> u64
    requires { hex_digit b ≡ true }
    ensures { (result ≡ hex_value b) × (result ≤ 15) }
{
    let value = if b < b'A' { b - b'0' } else { b - b'A' + 10 };
    u64::from(value)
}

// One to eight digits without a leading zero, or `0`.
#[tactic(auto, using(crate::specs::Laws::digits_long))]
fn hex_digits(w: &[u8]) -> bool
    ensures { result ≡ hex_digits w.now }
{
    match w {
        [] => false,
        [b'0', rest @ ..] => rest.is_empty(),
        _ => w.len() <= LONGEST && w.iter().all(|b| is_hex_digit(*b)),
    }
}

// Whether w is a hexadecimal integer.
#[tactic(auto, unfolding(text::specs::definitions::Integers::is_hex))]
pub fn is_hex(w: &[u8]) -> bool
    ensures { result ≡ is_hex w.now }
{
    match w {
        [b'0', b'x', digits @ ..] => hex_digits(digits),
        _ => false,
    }
}

// What the digits stand for, cut down above the limit of weights.
// One function for this and text_word::cut_wide would take the base, a digit's value and what each byte has to be: it is longer than both.
fn cut_hex(w: &[u8]) -> u32
    requires { all hex_digit w.now ≡ true }
    ensures { result ≡ min (hex_from 0 w.now) 1073741824 }
{
    let mut value = 0;
    for b in w {
        value = (value * 16 + value_of(*b)).min(1073741824);
    }
    value as u32
}

// The code of a hexadecimal integer.
pub fn hex_code(w: &[u8]) -> u32
    requires { is_hex w.now ≡ true }
    ensures { result ≡ int_code (pos (hex_from 0 (drop 2 w.now))) }
{
    let m = cut_hex(&w[2..]);
    if m == 1073741824 {
        return 2147483647;
    }
    m
}
