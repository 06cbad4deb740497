// Forms coded in slices: a form is a slice of words in prefix order (specs/Coding). Here are the sums and products of leaves, and what
// puts a form together in place. Every function is handed the width of the ring; only those of leaves look at it. The width is the number
// of bits of a counter, 0 for the remainders by P. It stays a number: the rings and their laws (specs/Widths) are over every number.
#![tactic(auto)]

ghost use Rattle.std.specs.Prelude.{◌≡◌, ◌+◌, ◌*◌, ◌%◌, ◌<◌, ◌≤◌, ◌∷◌, ◌++◌, length, take, drop};
ghost use Rattle.code.specs.Widths.{add_by, neg_by, mul_by, pow_by, modulus};
ghost use Rattle.horner.specs.definitions.Form.{pow};
ghost use Rattle.code.specs.Coding.{Coded, Good, Begins, Made, RoomUnder, dec};
ghost use Rattle.code.specs.Operations.{pop_of, pow_of};
ghost use Rattle.code.specs.Heads.{HeadIs};

// The fixed length of a work table, in words.
pub const TABLE: usize = 16384;

// A head word from here on is a node's; one below is a leaf.
pub const NODE: u32 = 2147483648;

// What the first word of a coded form says.
#[derive(Clone, Copy, Debug, PartialEq, Eq)]
pub enum Head {
    Leaf(u32),
    // its exponent
    Pop(u32),
    // its exponent, and how many words its p takes
    Pow(u32, usize),
}

// What the word w says.
#[inline(always)]
pub fn head_of(w: u32) -> Head
    ensures { HeadIs w result }
{
    if w < NODE {
        return Head::Leaf(w);
    }
    let s = (w - NODE) / 64;
    if s == 0 {
        Head::Pop(w % 64)
    } else {
        Head::Pow(w % 64, s as usize)
    }
}

// The number of leaves in the ring of a width.
pub fn modulus_of(width: u32) -> u32
    ensures { result ≡ modulus width }
{
    match width {
        8 => 256,
        16 => 65536,
        _ => 2147483647,
    }
}

// The low 8 bits of a counter.
fn low8(a: u16) -> u16
    ensures { result ≡ a % 256 }
{
    a % 256
}

// The leaf of a number: its remainder by the modulus of the width.
pub fn leaf_of(width: u32, n: u64) -> u32
    ensures { (result ≡ n % modulus width) × (result < modulus width) }
{
    match width {
        8 => (n % 256) as u32,
        16 => (n % 65536) as u32,
        _ => code_remainder::by_p(n),
    }
}

// The sum of two leaves. "Counter sums wrap at that many bits, on purpose."
pub fn leaf_sum(width: u32, a: u32, b: u32) -> u32
    requires { (a < modulus width) × (b < modulus width) }
    ensures { (result ≡ add_by (modulus width) a b) × (result < modulus width) }
{
    if width == 16 {
        return (a as u16).wrapping_add(b as u16) as u32;
    }
    if width == 8 {
        return low8((a as u16).wrapping_add(b as u16)) as u32;
    }
    code_remainder::by_p((a + b) as u64)
}

// The negative of a leaf.
pub fn leaf_negation(width: u32, a: u32) -> u32
    requires { a < modulus width }
    ensures { (result ≡ neg_by (modulus width) a) × (result < modulus width) }
{
    if width == 16 {
        return 0u16.wrapping_sub(a as u16) as u32;
    }
    if width == 8 {
        return low8(0u16.wrapping_sub(a as u16)) as u32;
    }
    code_remainder::by_p((2147483647 - a) as u64)
}

// The product of two leaves.
pub fn leaf_product(width: u32, a: u32, b: u32) -> u32
    requires { (a < modulus width) × (b < modulus width) }
    ensures { (result ≡ mul_by (modulus width) a b) × (result < modulus width) }
{
    leaf_of(width, (a as u64) * (b as u64))
}

// The i-th power of a leaf.
pub fn leaf_power(width: u32, a: u32, i: u32) -> u32
    requires { a < modulus width }
    ensures { (result ≡ pow_by (modulus width) a i) × (result < modulus width) }
{
    let mut r = 1;
    for k in 0..i {
        r = leaf_product(width, a, r);
    }
    r
}

// Moves the n words at `gap` to the front of s. What lies after the first n words stays.
fn shift(s: &mut [u32], gap: usize, n: usize)
    requires { gap + n ≤ length s.old }
    ensures { s.new ≡ take n (drop gap s.old) ++ drop n s.old }
{
    s.copy_within(gap..gap + n, 0);
}

// Writes x at the front of out. What lies after it stays.
// A run of one monomial, the commonest, is copied here: its words were stored one by one, and a read of both at once waits for them.
pub fn copy(x: &[u32], out: &mut [u32])
    requires { length x.now ≤ length out.old }
    ensures { out.new ≡ x.now ++ drop (length x.now) out.old }
{
    match x {
        [key, number] => {
            out[0] = *key;
            out[1] = *number;
        }
        _ => out[..x.len()].copy_from_slice(x),
    }
}

// out holds a free word, and then a form of n words. Makes it pop(i, the form) (Definition 7), in place, and returns its length.
pub fn make_pop(width: u32, out: &mut [u32], i: u32, n: usize) -> usize
    requires n_in_bounds { 1 + n ≤ length out.old }
    requires coded { Coded width (take n (drop 1 out.old)) }
    requires i_nonzero { 0 < i }
    requires good { Good width (pop_of width i (dec width (take n (drop 1 out.old)))) }
    ensures { Made width (pop_of width i (dec width (take n (drop 1 out.old)))) result out.new }
{
    match head_of(out[1]) {
        Head::Leaf(a) => {
            out[0] = a;
            1
        },
        Head::Pop(j) => {
            out[0] = NODE + (i + j);
            shift(&mut out[1..], 1, n - 1);
            n
        },
        Head::Pow(..) => {
            out[0] = NODE + i;
            1 + n
        },
    }
}

// Moves s words from 2 to 1, and b words from 3 + s to 1 + s.
fn join(out: &mut [u32], s: usize, b: usize)
    requires { 3 + s + b ≤ length out.old }
    ensures { Begins (1 + s + b) ((take 1 out.old ++ take s (drop 2 out.old)) ++ take
        b (drop (3 + s) out.old)) out.new }
{
    shift(&mut out[1..], 1, s);
    let e = 1 + s;
    shift(&mut out[e..], 2, b);
}

// out holds a free word, then a form of a words, then one of b words. Makes it (POW i the one the other), and returns its length.
fn plain_pow(width: u32, out: &mut [u32], i: u32, a: usize, b: usize) -> usize
    requires b_in_bounds { (1 + a + b ≤ length out.old) × (length out.old ≤ 33554432) }
    requires coded { Coded width (take a (drop 1 out.old)) × Coded width (take b (drop (1 + a) out.old)) }
    requires i_bound { i ≤ 63 }
    ensures { Made width (pow i (dec width (take a (drop 1 out.old)))
        (dec width (take b (drop (1 + a) out.old)))) result out.new }
{
    out[0] = NODE + 64 * (a as u32) + i;
    1 + a + b
}

// The same, with pow(i, the one, the other) (Definition 8).
pub fn make_pow(width: u32, out: &mut [u32], i: u32, a: usize, b: usize) -> usize
    requires b_in_bounds { (1 + a + b ≤ length out.old) × (length out.old ≤ 33554432) }
    requires coded { Coded width (take a (drop 1 out.old)) × Coded width (take b (drop (1 + a) out.old)) }
    requires i_nonzero { 0 < i }
    requires good { Good width (pow_of width i (dec width (take a (drop 1 out.old))) (dec width (take b (drop (1 + a) out.old)))) }
    ensures { Made width (pow_of width i (dec width (take a (drop 1 out.old)))
        (dec width (take b (drop (1 + a) out.old)))) result out.new }
{
    match head_of(out[1]) {
        Head::Leaf(0) => {
            let n = make_pop(width, &mut out[1..], 1, b);
            shift(out, 1, n);
            n
        },
        Head::Pow(j, s) if out[2 + s] == 0 => {
            out[0] = NODE + 64 * (s as u32) + (i + j);
            join(out, s, b);
            1 + s + b
        },
        _ => plain_pow(width, out, i, a, b),
    }
}

// Writes the head word of a pow of exponent i and its p, and returns how many words those are.
pub fn put_pow(i: u32, p: &[u32], out: &mut [u32]) -> usize
    requires i_bound { i ≤ 63 }
    requires room_under { RoomUnder (3 + length p.now) out.old }
    ensures { Begins result ((2147483648 + 64 * length p.now + i) ∷ p.now) out.new }
{
    let n = p.len();
    out[0] = NODE + 64 * (n as u32) + i;
    copy(p, &mut out[1..]);
    1 + n
}
