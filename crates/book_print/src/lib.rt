// The printer's answer to a book.
#![tactic(auto)]

ghost use Rattle.std.specs.Prelude.{Ok, ◌≡◌, ◌+◌, ◌*◌, ◌≤◌, length};
ghost use Rattle.code.specs.Lengths.{Full};
ghost use Rattle.reply.specs.definitions.Reply.{work};
ghost use Rattle.book.specs.definitions.Book.{printed, PrintCall, read_book};
ghost use Rattle.form_write.specs.Write.{Wrote};
ghost use Rattle.book_read.specs.Heads.{head_of};
ghost use Rattle.book_print.specs.Print.{Row, Here, Left, page, line_at, lines_from};

use reply::Written;

// No book's answer is longer: it has a first line, and at most 64 of at most 160 bytes.
pub const PAGE: usize = 16384;

// The line of the entry with the number i, whose fields stand at p and whose bodies begin at the byte at.
fn print_entry(
    book: &[u8],
    n: usize,
    p: usize,
    at: usize,
    i: usize,
    out: &mut [u8],
    a: &mut [u32],
    b: &mut [u32],
    c: &mut [u32],
    d: &mut [u32],
) -> usize
    requires row { Row book.now n × Here book.now p at }
    requires full { Full (length a.old) (length b.old) (length c.old) (length d.old) }
    requires in_bounds { 160 ≤ length out.old }
    ensures wrote { Wrote result (line_at book.now n p at i) out.old out.new }
    ensures upper_bound { result ≤ 160 }
{
    let e = 1 + n;
    let mid = at + book_read::number_at(book, p + 2);
    let end = mid + book_read::number_at(book, p + 6);
    let mut point = [0u32; 4];
    let answer = door_compare::compare_of(
        &book[1..e],
        &book[at..mid],
        &book[mid..end],
        &mut point,
        a,
        b,
        c,
        d,
    );
    book_line::put_entry(i, answer, &point[..n], out)
}

// The lines of the last k entries, the first of which has the number i.
fn print_entries(
    book: &[u8],
    n: usize,
    p: usize,
    at: usize,
    i: usize,
    k: usize,
    out: &mut [u8],
    a: &mut [u32],
    b: &mut [u32],
    c: &mut [u32],
    d: &mut [u32],
) -> usize
    requires row { Row book.now n × Left book.now p at i k }
    requires full { Full (length a.old) (length b.old) (length c.old) (length d.old) }
    requires k_in_bounds { 160 * k ≤ length out.old }
    ensures wrote { Wrote result (lines_from book.now n p at i k) out.old out.new }
    ensures upper_bound { result ≤ 160 * k }
{
    if k == 0 {
        return 0;
    }
    let mid = at + book_read::number_at(book, p + 2);
    let end = mid + book_read::number_at(book, p + 6);
    let h = print_entry(book, n, p, at, i, out, a, b, c, d);
    h + print_entries(book, n, p + 8, end, i + 1, k - 1, &mut out[h..], a, b, c, d)
}

// The answer to a book that is fine.
fn print_fine(
    book: &[u8],
    out: &mut [u8],
    a: &mut [u32],
    b: &mut [u32],
    c: &mut [u32],
    d: &mut [u32],
) -> usize
    requires book_value { head_of (read_book book.now) ≡ Ok tt }
    requires full { Full (length a.old) (length b.old) (length c.old) (length d.old) }
    requires page_in_bounds { page ≤ length out.old }
    ensures { Wrote result (printed book.now) out.old out.new }
{
    let n = book[0] as usize;
    let q = 1 + n;
    let k = book[q] as usize;
    let p = q + 1;
    let h = book_line::put_head(n, k, out);
    h + print_entries(book, n, p, p + 8 * k, 0, k, &mut out[h..], a, b, c, d)
}

// The answer to any book.
fn print_any(
    book: &[u8],
    out: &mut [u8],
    a: &mut [u32],
    b: &mut [u32],
    c: &mut [u32],
    d: &mut [u32],
) -> usize
    requires full { Full (length a.old) (length b.old) (length c.old) (length d.old) }
    requires page_in_bounds { page ≤ length out.old }
    ensures { Wrote result (printed book.now) out.old out.new }
{
    match book_read::read_book(book) {
        Ok(()) => print_fine(book, out, a, b, c, d),
        Err(fault) => book_line::put_refusal(fault, out),
    }
}

// Prints the book: the printer's whole answer, at the front of out. The work tables are cleared, but not where 2 is refused.
pub fn print_book(
    book: &[u8],
    out: &mut [u8],
    a: &mut [u32],
    b: &mut [u32],
    c: &mut [u32],
    d: &mut [u32],
) -> Written
    ensures { PrintCall book.now result out.old out.new
        (work a.old b.old c.old d.old)
        (work a.new b.new c.new d.new) }
{
    if !door::enough(a.len(), b.len(), c.len(), d.len()) {
        return Err(refusal::of_neither(2));
    }
    let mut text = [0u8; PAGE];
    let n = print_any(book, &mut text, a, b, c, d);
    door::clear_tables(a, b, c, d);
    if out.len() < n {
        return Err(refusal::of_neither(11));
    }
    form_write::put(&text[..n], out);
    Ok(n)
}
