// The fields of a request line, parted by one tab each, and the numbers in them.
#![tactic(auto)]

ghost use Rattle.std.specs.Prelude.{◌≡◌};
ghost use Rattle.text.specs.definitions.Bytes.{read_nat, below0, from0};
ghost use Rattle.desk_field.specs.Fields.{EndsAt, first_of, rest_of, field_of, count_of, cut_of, natural_of, signed32, signed_of};
ghost use Rattle.desk_field.specs.Fields.{is_coordinate, coordinate_of, coordinates_of};

const TAB: u8 = b'\t';

// Where the first tab stands, or the length where there is none.
fn first_end(s: &[u8]) -> usize
    ensures { EndsAt result s.now }
{
    s.iter().position(|b| *b == TAB).unwrap_or(s.len())
}

// How many fields the line has: one more than it has tabs.
pub fn count(line: &[u8]) -> usize
    ensures { result ≡ count_of line.now }
{
    line.iter().filter(|b| **b == TAB).count() + 1
}

// The first field.
fn first(s: &[u8]) -> &[u8]
    ensures { result.now ≡ first_of s.now }
{
    &s[..first_end(s)]
}

// What stands behind the first field and its tab.
fn rest(s: &[u8]) -> &[u8]
    ensures { result.now ≡ rest_of s.now }
{
    let e = first_end(s);
    if e == s.len() {
        return &[];
    }
    &s[e + 1..]
}

// The field k of the line, counted from 0; nothing where the line has no such field.
pub fn field(line: &[u8], k: usize) -> &[u8]
    ensures { result.now ≡ field_of line.now k }
{
    if k == 0 {
        return first(line);
    }
    field(rest(line), k - 1)
}

// The number of 32 bits that the field w is.
pub fn natural(w: &[u8]) -> Option<u32>
    ensures { result ≡ natural_of w.now }
{
    u32::try_from(value(w)?).ok()
}

// The number that the field w is, cut down to 4,294,967,296.
fn value(w: &[u8]) -> Option<u64>
    ensures { result ≡ cut_of (read_nat w.now) }
{
    if !text_word::is_natural(w) {
        return None;
    }
    Some(text_word::cut_wide(w, 4294967296))
}

// The coordinate that is as far below zero as the number w.
fn below_zero(w: &[u8]) -> Option<i32>
    ensures { result ≡ signed32 (below0 (read_nat w.now)) }
{
    let n = value(w)?;
    if n == 0 {
        return None;
    }
    i32::try_from(-(n as i64)).ok()
}

// The coordinate that is the number w.
fn from_zero(w: &[u8]) -> Option<i32>
    ensures { result ≡ signed32 (from0 (read_nat w.now)) }
{
    i32::try_from(value(w)?).ok()
}

// The signed number of 32 bits that the field w is.
fn signed(w: &[u8]) -> Option<i32>
    ensures { result ≡ signed_of w.now }
{
    match w {
        [b'-', rest @ ..] => below_zero(rest),
        _ => from_zero(w),
    }
}

// Whether the first field of s is a coordinate.
fn begins_coordinate(s: &[u8]) -> bool
    ensures { result ≡ is_coordinate (signed_of (first_of s.now)) }
{
    signed(first(s)).is_some()
}

// How many of the first n fields of s are coordinates, up to the first that is none.
fn coordinates_in(s: &[u8], n: usize) -> usize
    ensures { result ≡ coordinates_of n s.now }
{
    let mut left = s;
    for k in 0..n {
        if !begins_coordinate(left) {
            return k;
        }
        left = rest(left);
    }
    n
}

// How many of the n fields from field 3 on are coordinates, up to the first that is none.
pub fn coordinates(line: &[u8], n: usize) -> usize
    ensures { result ≡ coordinates_of n (rest_of (rest_of (rest_of line.now))) }
{
    coordinates_in(rest(rest(rest(line))), n)
}

// The coordinate that the field w is; 0 where it is none.
pub fn coordinate_in(w: &[u8]) -> i32
    ensures { result ≡ coordinate_of (signed_of w.now) }
{
    signed(w).unwrap_or(0)
}
