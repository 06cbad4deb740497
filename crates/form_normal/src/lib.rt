// The form at a place of a text, judged node by node: refusal 7.
#![tactic(auto)]

ghost use Rattle.std.specs.Prelude.{◌≡◌, ◌≤◌};
ghost use Rattle.form_head.specs.Heads.{Standing};
ghost use Rattle.form_normal.specs.Normal.{pop_seen, pow_seen, SeenAt};

use form_head::Kind;

// What "normal" asks of a part: the integer 0, another integer, a POP, a POW whose q is 0, or another POW.
#[derive(Clone, Copy, Debug, PartialEq, Eq)]
pub enum Shape {
    Zero,
    Number,
    Pop,
    PowZero,
    Pow,
}

// What is seen of a form: its shape, and the place behind it.
#[derive(Clone, Copy, Debug, PartialEq, Eq)]
pub struct Seen {
    pub shape: Shape,
    pub next: usize,
}

// A POP at a place, by i and the shape of its p.
#[tactic(auto, unfolding(text_laws::specs::laws::Picks::pick))]
fn judge_pop(i: u32, p: Shape, at: usize, next: usize) -> Result<Seen, usize>
    ensures { result ≡ pop_seen i p at next }
{
    if i == 0 {
        return Err(at);
    }
    match p {
        Shape::Zero | Shape::Number | Shape::Pop => Err(at),
        Shape::PowZero | Shape::Pow => Ok(Seen {
            shape: Shape::Pop,
            next,
        }),
    }
}

// A POW at a place, by how many variables are left, i, and the shapes of its p and q.
#[tactic(auto, unfolding(text_laws::specs::laws::Picks::pick))]
fn judge_pow(left: usize, i: u32, p: Shape, q: Shape, at: usize, next: usize) -> Result<Seen, usize>
    ensures { result ≡ pow_seen left i p q at next }
{
    if left == 0 || i == 0 {
        return Err(at);
    }
    if matches!(p, Shape::Zero | Shape::PowZero) {
        return Err(at);
    }
    let shape = if q == Shape::Zero {
        Shape::PowZero
    } else {
        Shape::Pow
    };
    Ok(Seen { shape, next })
}

// Judges the form at a place, node by node in order of finishing: its shape and the place behind it, or the place of the node that is not
// normal, refusal 7.
pub fn judge_at(left: usize, s: &[u8], at: usize) -> Result<Seen, usize>
    requires { (left ≤ 4) × Standing s.now at }
    ensures { SeenAt left s.now at result }
{
    let head = form_head::head_at(s, at);
    let i = head.number;
    match head.kind {
        Kind::Integer | Kind::Negative => {
            let shape = if i == 0 { Shape::Zero } else { Shape::Number };
            Ok(Seen {
                shape,
                next: head.next,
            })
        }
        Kind::Pop => {
            let p = judge_at(left.saturating_sub(i as usize), s, head.next)?;
            judge_pop(i, p.shape, at, p.next + 1)
        }
        Kind::Pow => {
            let p = judge_at(left, s, head.next)?;
            let q = judge_at(left.saturating_sub(1), s, p.next + 1)?;
            judge_pow(left, i, p.shape, q.shape, at, q.next + 1)
        }
    }
}
