// The remainder by P, which is 2,147,483,647, without a division.
#![tactic(auto)]

ghost use Rattle.std.specs.Prelude.{◌≡◌, ◌%◌, ◌<◌};
ghost use Rattle.horner.specs.definitions.Rings.{prime};
ghost use Rattle.code_remainder.specs.Folding.{folded};

// The low 31 bits of x added to the rest.
fn fold(x: u64) -> u64
    ensures { result ≡ folded x }
{
    x % 2147483648 + x / 2147483648
}

// The remainder of x by P.
pub fn by_p(x: u64) -> u32
    ensures { (result ≡ x % prime) × (result < prime) }
{
    let mut y = x;
    while y >= 2147483648 {
        y = fold(y);
    }
    if y == 2147483647 {
        return 0;
    }
    y as u32
}
