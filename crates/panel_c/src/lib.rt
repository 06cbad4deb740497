// The panel's calls for C: the crate panel is a library for other crates, and what C links with has to be one of its own. Each call hands
// on what panel's answers, under the same contract; include/panel.h is the same for C.
#![tactic(auto)]

ghost use Rattle.reply.specs.definitions.Reply.{work};
ghost use Rattle.panel.specs.Panel.{PanelCompareCall, PanelFormCall, PanelRemainderCall};

use panel::PanelAnswer;

// The call `compare`.
#[unsafe(no_mangle)]
pub extern "C" fn panel_compare(
    row: &[u8],
    s: &[u8],
    t: &[u8],
    point: &mut [u32],
    a: &mut [u32],
    b: &mut [u32],
    c: &mut [u32],
    d: &mut [u32],
) -> PanelAnswer
    ensures { PanelCompareCall row.now s.now t.now result point.old point.new
        (work a.old b.old c.old d.old)
        (work a.new b.new c.new d.new) }
{
    panel::panel_compare(row, s, t, point, a, b, c, d)
}

// The call `form`: the length of the text stands in `place`.
#[unsafe(no_mangle)]
pub extern "C" fn panel_form(
    row: &[u8],
    s: &[u8],
    res: &mut [u8],
    a: &mut [u32],
    b: &mut [u32],
    c: &mut [u32],
    d: &mut [u32],
) -> PanelAnswer
    ensures { PanelFormCall row.now s.now result res.old res.new
        (work a.old b.old c.old d.old)
        (work a.new b.new c.new d.new) }
{
    panel::panel_form(row, s, res, a, b, c, d)
}

// The call `remainder`: the remainder stands in `left`.
#[unsafe(no_mangle)]
pub extern "C" fn panel_remainder(
    row: &[u8],
    s: &[u8],
    point: &[i32],
    a: &mut [u32],
    b: &mut [u32],
    c: &mut [u32],
    d: &mut [u32],
) -> PanelAnswer
    ensures { PanelRemainderCall row.now s.now point.now result
        (work a.old b.old c.old d.old)
        (work a.new b.new c.new d.new) }
{
    panel::panel_remainder(row, s, point, a, b, c, d)
}
