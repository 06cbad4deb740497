// What the lines of the desk share: the number of their fields, the coordinates of a point, the line of a remainder.
#![tactic(auto)]

ghost use Rattle.std.specs.Prelude.{◌≡◌, ◌-◌, ◌≤◌, min, length};
ghost use Rattle.form_write.specs.Write.{Wrote};
ghost use Rattle.desk_field.specs.Fields.{count_of};
ghost use Rattle.desk_reply.specs.Reply.{room, wrong_text};
ghost use Rattle.desk_serve.specs.Serve.{point_fault, some_fault, five_of, remaindered_line};

use reply::Remaindered;

// The answer to a request of n fields, where k are wanted: the first that is missing or too many.
pub fn miscounted(n: usize, k: usize, out: &mut [u8]) -> usize
    requires { room ≤ length out.old }
    ensures { Wrote result (wrong_text (min n k)) out.old out.new }
{
    desk_reply::wrong(n.min(k), out)
}

// The first wrong field of a request with coordinates from field 3 on.
pub fn point_fault(line: &[u8]) -> Option<usize>
    ensures { result ≡ some_fault (point_fault line.now) }
{
    let n = desk_field::count(line);
    if n < 3 {
        return Some(n);
    }
    let m = n - 3;
    let k = desk_field::coordinates(line, m);
    if k < m {
        return Some(3 + k);
    }
    None
}

// The numbers of the fields 3 to 7.
pub fn five(line: &[u8]) -> [i32; 5]
    ensures { result ≡ five_of line.now }
{
    let x = desk_field::coordinate_in(desk_field::field(line, 3));
    let y = desk_field::coordinate_in(desk_field::field(line, 4));
    let z = desk_field::coordinate_in(desk_field::field(line, 5));
    let u = desk_field::coordinate_in(desk_field::field(line, 6));
    let v = desk_field::coordinate_in(desk_field::field(line, 7));
    [x, y, z, u, v]
}

// How many coordinates the point has, at most five.
pub fn point_length(line: &[u8]) -> usize
    ensures { result ≡ min (count_of line.now - 3) 5 }
{
    desk_field::count(line).saturating_sub(3).min(5)
}

// The line of a remainder.
pub fn remaindered(answer: Remaindered, out: &mut [u8]) -> usize
    requires { room ≤ length out.old }
    ensures { Wrote result (remaindered_line answer) out.old out.new }
{
    match answer {
        Ok(n) => desk_reply::remainder(n, out),
        Err(bad) => desk_reply::refused(bad, out),
    }
}
