// What is lent to a call in try k. 0: tables of 16,384 words. 1 to 4: that table is a word short. 5: all are 7 words longer, and a point
// is one longer. 6: no letter. 7: five letters. 8: the result or the point is one short, the counters' width none. 9: it is exact. 10: the
// left text is refused. 11: the right one is.
ghost use Rattle.std.specs.Prelude.{◌≤◌};

// How many words of a table are lent.
pub fn words(k: u32, table: u32, most: usize) -> usize
    ensures { result ≤ most }
{
    if k == table {
        return most.min(16383);
    }
    match k {
        5 => most.min(16391),
        _ => most.min(16384),
    }
}

// How many letters the row has.
pub fn letters(k: u32, most: usize) -> usize
    ensures { result ≤ most }
{
    match k {
        6 => 0,
        7 => most.min(5),
        _ => most.min(2),
    }
}

// How many bytes of the result buffer are lent, where the text takes n.
pub fn room(k: u32, n: u8, most: usize) -> usize
    ensures { result ≤ most }
{
    match k {
        8 => most.min(usize::from(n).saturating_sub(1)),
        9 => most.min(usize::from(n)),
        _ => most,
    }
}

// How many numbers of the point are lent; the row has two letters.
pub fn coordinates(k: u32, most: usize) -> usize
    ensures { result ≤ most }
{
    match k {
        5 => most.min(3),
        8 => most.min(1),
        _ => most.min(2),
    }
}

// The counters' width: 7 is none.
pub fn width(k: u32) -> u32 {
    match k {
        8 => 7,
        9 => 16,
        _ => 8,
    }
}

// How many of n bytes of a text are lent: one fewer in the try in which it is refused.
pub fn cut(k: u32, refused: u32, n: usize) -> usize
    ensures { result ≤ n }
{
    if k != refused {
        return n;
    }
    n.saturating_sub(1)
}

// The text that is lent.
pub fn given(k: u32, refused: u32, text: &[u8]) -> &[u8] {
    let n = cut(k, refused, text.len());
    &text[..n]
}
