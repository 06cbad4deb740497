// What the calls begin and end with: the row and the tables looked at, the tables cleared.
#![tactic(auto)]

ghost use Rattle.std.specs.Prelude.{[], ◌∷◌, ◌≡◌, length, replicate};
ghost use Rattle.text.specs.definitions.Bytes.{is_in_row, is_row};
ghost use Rattle.reply.specs.definitions.Reply.{enough};
ghost use Rattle.door.specs.Door.{ready_of};

use code::TABLE;
use refusal::Refusal;

// Whether the letter is among those of the row.
fn has(row: &[u8], b: u8) -> bool
    ensures { result ≡ is_in_row row.now b }
{
    row.contains(&b)
}

// Whether the row is 1 to 4 distinct letters A to Z.
pub fn is_row(row: &[u8]) -> bool
    ensures { result ≡ is_row row.now }
{
    if row.len() == 0 {
        return false;
    }
    if 4 < row.len() {
        return false;
    }
    for (i, letter) in row.iter().enumerate() {
        if !text_word::is_capital(*letter) {
            return false;
        }
        if has(&row[i + 1..], *letter) {
            return false;
        }
    }
    true
}

// Whether tables of these lengths are long enough.
pub fn enough(a: usize, b: usize, c: usize, d: usize) -> bool
    ensures { result ≡ enough (a ∷ b ∷ c ∷ d ∷ []) }
{
    if a < TABLE {
        return false;
    }
    if b < TABLE {
        return false;
    }
    if c < TABLE {
        return false;
    }
    if d < TABLE {
        return false;
    }
    true
}

// Whether the row is proper and tables of these lengths are long enough; or the refusal 1 or 2.
pub fn ready(row: &[u8], a: usize, b: usize, c: usize, d: usize) -> Result<(), Refusal>
    ensures { result ≡ ready_of row.now (a ∷ b ∷ c ∷ d ∷ []) }
{
    if !is_row(row) {
        return Err(refusal::of_neither(1));
    }
    if !enough(a, b, c, d) {
        return Err(refusal::of_neither(2));
    }
    Ok(())
}

// Fills the four tables with zeros.
pub fn clear_tables(a: &mut [u32], b: &mut [u32], c: &mut [u32], d: &mut [u32])
    ensures a_after { a.new ≡ replicate (length a.old) 0 }
    ensures b_after { b.new ≡ replicate (length b.old) 0 }
    ensures c_after { c.new ≡ replicate (length c.old) 0 }
    ensures d_after { d.new ≡ replicate (length d.old) 0 }
{
    clear(a);
    clear(b);
    clear(c);
    clear(d);
}

// Fills a table with zeros.
fn clear(t: &mut [u32])
    ensures { t.new ≡ replicate (length t.old) 0 }
{
    t.fill(0);
}
