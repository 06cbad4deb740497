// The rules of a dialect of terms: how long a text may be, how deep it may nest, the number of 'not a term', and what is allowed in it.
#![tactic(auto)]

ghost use Rattle.std.specs.Prelude.{◌≡◌};
ghost use Rattle.dialect.specs.Dialects;

#[derive(Clone, Copy)]
pub struct Dialect {
    pub bytes: usize,
    pub depth: usize,
    pub wrong: u32,
    pub hex: bool,
    pub panel: bool,
}

// Document 01's terms.
pub fn ordinary() -> Dialect
    ensures { result ≡ Rattle.dialect.specs.Dialects.ordinary }
{
    Dialect {
        bytes: 4096,
        depth: 16,
        wrong: 4,
        hex: false,
        panel: false,
    }
}

// Request 106's terms.
pub fn with_hex() -> Dialect
    ensures { result ≡ Rattle.dialect.specs.Dialects.with_hex }
{
    Dialect {
        bytes: 4096,
        depth: 16,
        wrong: 4,
        hex: true,
        panel: false,
    }
}

// Request 101's panel terms.
pub fn panel_terms() -> Dialect
    ensures { result ≡ Rattle.dialect.specs.Dialects.panel_terms }
{
    Dialect {
        bytes: 65535,
        depth: 512,
        wrong: 15,
        hex: false,
        panel: true,
    }
}
