// A book's head and contents looked at, field by field: fine, or the refusal.
#![tactic(auto)]

ghost use Rattle.std.specs.Prelude.{Err, ◌≡◌, ◌+◌, ◌*◌, ◌≤◌, length};
ghost use Rattle.book.specs.definitions.Book.{read_book, letters, number16, body, entries, contents};
ghost use Rattle.refusal.specs.Refusal.{fault};
ghost use Rattle.book_read.specs.Heads.{head_of, body_of, both_of, Near};

use refusal::Fault;

// The refusal of a field: 13, at its place.
fn wrong<T>(place: usize) -> Result<T, Fault>
    ensures { result ≡ Err (fault 13 place) }
{
    Err(Fault { number: 13, place })
}

// The little-endian number of 16 bits at p.
pub fn number_at(book: &[u8], p: usize) -> usize
    requires { p + 2 ≤ length book.now }
    ensures value { result ≡ number16 book.now p }
    ensures upper_bound { result ≤ 65535 }
{
    usize::from(book[p]) + 256 * usize::from(book[p + 1])
}

// The length of the body that has to begin at the byte at, from its two fields at p.
fn read_body(book: &[u8], p: usize, at: usize) -> Result<usize, Fault>
    requires { Near p at }
    ensures { result ≡ body_of (body book.now p at) }
{
    let q = p + 2;
    if book.len() < q {
        return wrong(book.len());
    }
    if number_at(book, p) != at {
        return wrong(p);
    }
    let e = q + 2;
    if book.len() < e {
        return wrong(book.len());
    }
    let n = number_at(book, q);
    if book.len() < at + n {
        return wrong(q);
    }
    Ok(n)
}

// The length of an entry's two bodies together.
fn read_both(book: &[u8], p: usize, at: usize) -> Result<usize, Fault>
    requires p_bound { (p ≤ 900) × (at ≤ 70000) }
    requires book_len_bound { length book.now ≤ 65535 }
    ensures { result ≡ body_of (both_of book.now p at) }
{
    let m = read_body(book, p, at)?;
    let n = read_body(book, p + 4, at + m)?;
    Ok(m + n)
}

// The k entries whose fields stand from p on, and whose bodies from the byte at on.
fn read_entries(book: &[u8], p: usize, at: usize, k: usize) -> Result<(), Fault>
    requires k_bound { (p + 8 * k ≤ 600) × (at ≤ 70000) }
    requires book_len_bound { length book.now ≤ 65535 }
    ensures { result ≡ head_of (entries book.now p at k) }
{
    if k == 0 {
        if at < book.len() {
            return wrong(at);
        }
        return Ok(());
    }
    let n = read_both(book, p, at)?;
    read_entries(book, p + 8, at + n, k - 1)
}

// The k letters behind the first i.
fn read_letters(book: &[u8], i: usize, k: usize) -> Result<(), Fault>
    requires { i + k ≤ 4 }
    ensures { result ≡ head_of (letters book.now i k) }
{
    if k == 0 {
        return Ok(());
    }
    let p = 1 + i;
    let e = p + 1;
    if book.len() < e {
        return wrong(book.len());
    }
    if !door::is_row(&book[1..e]) {
        return wrong(p);
    }
    read_letters(book, p, k - 1)
}

// The number of entries behind n letters, and the entries.
fn read_contents(book: &[u8], n: usize) -> Result<(), Fault>
    requires n_bound { n ≤ 4 }
    requires book_len_bound { length book.now ≤ 65535 }
    ensures { result ≡ head_of (contents book.now n) }
{
    let p = 1 + n;
    let e = p + 1;
    if book.len() < e {
        return wrong(book.len());
    }
    let k = book[p] as usize;
    if k < 1 {
        return wrong(p);
    }
    if 64 < k {
        return wrong(p);
    }
    read_entries(book, e, e + 8 * k, k)
}

// The whole book.
pub fn read_book(book: &[u8]) -> Result<(), Fault>
    ensures { result ≡ head_of (read_book book.now) }
{
    if 65535 < book.len() {
        return Err(Fault {
            number: 3,
            place: 0,
        });
    }
    if book.len() < 1 {
        return wrong(book.len());
    }
    let n = book[0] as usize;
    if n < 1 {
        return wrong(0);
    }
    if 4 < n {
        return wrong(0);
    }
    read_letters(book, 0, n)?;
    read_contents(book, n)
}
