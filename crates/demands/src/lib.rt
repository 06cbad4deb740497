// The three demands are theorems about replies (specs/). Here each public function is called once more under the contract that these
// theorems speak of: so the gate breaks where a part of its own `ensures` is missing.
#![tactic(auto)]

ghost use Rattle.book.specs.definitions.Book.{PrintCall};
ghost use Rattle.panel.specs.Panel.{PanelCompareCall, PanelFormCall, PanelRemainderCall};
ghost use Rattle.reply.specs.definitions.Calls.{CompareCall, CountersCall, JudgeCall, NegateCall, AddCall, MultiplyCall, RaiseCall};
ghost use Rattle.reply.specs.definitions.Calls.{FormRemainderCall, FormCall, RemainderCall};
ghost use Rattle.reply.specs.definitions.Reply.{work};

use panel::PanelAnswer;
use reply::{Compared, Counted, Judged, Remaindered, Written};

pub fn judge(row: &[u8], s: &[u8]) -> Judged
    ensures { JudgeCall row.now s.now result }
{
    call_judge::judge(row, s)
}

pub fn form(
    row: &[u8],
    s: &[u8],
    res: &mut [u8],
    a: &mut [u32],
    b: &mut [u32],
    c: &mut [u32],
    d: &mut [u32],
) -> Written
    ensures { FormCall row.now s.now result res.old res.new
        (work a.old b.old c.old d.old)
        (work a.new b.new c.new d.new) }
{
    call_form::form(row, s, res, a, b, c, d)
}

pub fn negate(
    row: &[u8],
    s: &[u8],
    res: &mut [u8],
    a: &mut [u32],
    b: &mut [u32],
    c: &mut [u32],
    d: &mut [u32],
) -> Written
    ensures { NegateCall row.now s.now result res.old res.new
        (work a.old b.old c.old d.old)
        (work a.new b.new c.new d.new) }
{
    call_negate::negate(row, s, res, a, b, c, d)
}

pub fn add(
    row: &[u8],
    s: &[u8],
    t: &[u8],
    res: &mut [u8],
    a: &mut [u32],
    b: &mut [u32],
    c: &mut [u32],
    d: &mut [u32],
) -> Written
    ensures { AddCall row.now s.now t.now result res.old res.new
        (work a.old b.old c.old d.old)
        (work a.new b.new c.new d.new) }
{
    call_add::add(row, s, t, res, a, b, c, d)
}

pub fn multiply(
    row: &[u8],
    s: &[u8],
    t: &[u8],
    res: &mut [u8],
    a: &mut [u32],
    b: &mut [u32],
    c: &mut [u32],
    d: &mut [u32],
) -> Written
    ensures { MultiplyCall row.now s.now t.now result res.old res.new
        (work a.old b.old c.old d.old)
        (work a.new b.new c.new d.new) }
{
    call_multiply::multiply(row, s, t, res, a, b, c, d)
}

pub fn raise(
    row: &[u8],
    s: &[u8],
    k: u32,
    res: &mut [u8],
    a: &mut [u32],
    b: &mut [u32],
    c: &mut [u32],
    d: &mut [u32],
) -> Written
    ensures { RaiseCall row.now s.now k result res.old res.new
        (work a.old b.old c.old d.old)
        (work a.new b.new c.new d.new) }
{
    call_raise::raise(row, s, k, res, a, b, c, d)
}

pub fn print_book(
    book: &[u8],
    out: &mut [u8],
    a: &mut [u32],
    b: &mut [u32],
    c: &mut [u32],
    d: &mut [u32],
) -> Written
    ensures { PrintCall book.now result out.old out.new
        (work a.old b.old c.old d.old)
        (work a.new b.new c.new d.new) }
{
    book_print::print_book(book, out, a, b, c, d)
}

pub fn remainder(
    row: &[u8],
    s: &[u8],
    point: &[i32],
    a: &mut [u32],
    b: &mut [u32],
    c: &mut [u32],
    d: &mut [u32],
) -> Remaindered
    ensures { RemainderCall row.now s.now point.now result
        (work a.old b.old c.old d.old)
        (work a.new b.new c.new d.new) }
{
    call_remainder::remainder(row, s, point, a, b, c, d)
}

pub fn form_remainder(
    row: &[u8],
    s: &[u8],
    point: &[i32],
    a: &mut [u32],
    b: &mut [u32],
    c: &mut [u32],
    d: &mut [u32],
) -> Remaindered
    ensures { FormRemainderCall row.now s.now point.now result
        (work a.old b.old c.old d.old)
        (work a.new b.new c.new d.new) }
{
    call_form_remainder::form_remainder(row, s, point, a, b, c, d)
}

pub fn compare(
    row: &[u8],
    s: &[u8],
    t: &[u8],
    point: &mut [u32],
    a: &mut [u32],
    b: &mut [u32],
    c: &mut [u32],
    d: &mut [u32],
) -> Compared
    ensures { CompareCall row.now s.now t.now result point.old point.new
        (work a.old b.old c.old d.old)
        (work a.new b.new c.new d.new) }
{
    call_compare::compare(row, s, t, point, a, b, c, d)
}

pub fn counters(
    row: &[u8],
    width: u32,
    s: &[u8],
    t: &[u8],
    a: &mut [u32],
    b: &mut [u32],
    c: &mut [u32],
    d: &mut [u32],
) -> Counted
    ensures { CountersCall row.now width s.now t.now result
        (work a.old b.old c.old d.old)
        (work a.new b.new c.new d.new) }
{
    call_counters::counters(row, width, s, t, a, b, c, d)
}

pub fn panel_compare(
    row: &[u8],
    s: &[u8],
    t: &[u8],
    point: &mut [u32],
    a: &mut [u32],
    b: &mut [u32],
    c: &mut [u32],
    d: &mut [u32],
) -> PanelAnswer
    ensures { PanelCompareCall row.now s.now t.now result point.old point.new
        (work a.old b.old c.old d.old)
        (work a.new b.new c.new d.new) }
{
    panel::panel_compare(row, s, t, point, a, b, c, d)
}

pub fn panel_form(
    row: &[u8],
    s: &[u8],
    res: &mut [u8],
    a: &mut [u32],
    b: &mut [u32],
    c: &mut [u32],
    d: &mut [u32],
) -> PanelAnswer
    ensures { PanelFormCall row.now s.now result res.old res.new
        (work a.old b.old c.old d.old)
        (work a.new b.new c.new d.new) }
{
    panel::panel_form(row, s, res, a, b, c, d)
}

pub fn panel_remainder(
    row: &[u8],
    s: &[u8],
    point: &[i32],
    a: &mut [u32],
    b: &mut [u32],
    c: &mut [u32],
    d: &mut [u32],
) -> PanelAnswer
    ensures { PanelRemainderCall row.now s.now point.now result
        (work a.old b.old c.old d.old)
        (work a.new b.new c.new d.new) }
{
    panel::panel_remainder(row, s, point, a, b, c, d)
}
