// The printer: a formula book from standard input, one line per entry on standard output.
#![tactic(auto)]

ghost use Rattle.std.specs.Prelude.{◌≡◌, take, IfOk, OnOk, IfSome};
ghost use Rattle.std.specs.Io.KnownBytes.{Appends};
ghost use Rattle.printer.specs.Printer.{shown, text_told};

use book_print::PAGE;
use code::TABLE;
use reply::Written;
use std::alloc::Global;
use std::io;
use std::io::{Read, Write};

// Writes the text at the front of out. With buffers of these lengths no answer is refused.
fn write_answer<W: Write>(answer: Written, out: &[u8], output: &mut W) -> io::Result<()>
    ensures { OnOk result (Appends (W.contents output.old) (W.contents output.new) (text_told answer out.now)) }
{
    if let Ok(n) = answer {
        if n <= out.len() {
            return output.write_all(&out[..n]);
        }
    }
    Ok(())
}

// Writes the answer to the book.
fn print_bytes<W: Write>(book: &[u8], output: &mut W) -> io::Result<()>
    ensures { OnOk result (Appends (W.contents output.old) (W.contents output.new) (shown book.now)) }
{
    let mut out = [0u8; PAGE];
    let mut a = [0u32; TABLE];
    let mut b = [0u32; TABLE];
    let mut c = [0u32; TABLE];
    let mut d = [0u32; TABLE];
    let answer = book_print::print_book(book, &mut out, &mut a, &mut b, &mut c, &mut d);
    write_answer(answer, &out, output)
}

// The book that the input holds. At most 65,536 bytes are read: a book that is longer is too long already.
fn read_book<R: Read + Drop>(alloc: Global, input: R) -> io::Result<Vec<u8>>
    ensures { IfOk result (λ book. IfSome (R.remaining input) (λ bytes. book.items ≡ take 65536 bytes)) }
{
    let mut book = Vec::new(alloc);
    input.take(65536).read_to_end(&mut book)?;
    Ok(book)
}

// Writes the answer to the book that the input holds.
fn print_input<R: Read + Drop, W: Write>(alloc: Global, input: R, output: &mut W) -> io::Result<()>
    ensures { OnOk result (IfSome (R.remaining input)
        (λ bytes. Appends (W.contents output.old) (W.contents output.new) (shown (take 65536 bytes)))) }
{
    let book = read_book(alloc, input)?;
    print_bytes(&book, output)
}

fn main(rt: HostRuntime) -> io::Result<()> {
    print_input(rt.alloc(), rt.stdin(), &mut rt.stdout())
}
