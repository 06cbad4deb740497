// The call `judge`: whether a text is a form.
#![tactic(auto)]

ghost use Rattle.reply.specs.definitions.Calls.{JudgeCall};

use refusal::Side;
use reply::Judged;

// Whether s is a form over the row. No work tables are lent.
pub fn judge(row: &[u8], s: &[u8]) -> Judged
    ensures { JudgeCall row.now s.now result }
{
    if !door::is_row(row) {
        return Err(refusal::of_neither(1));
    }
    form_read::accept_form(row.len(), s).map_err(|fault| refusal::on_side(Side::Left, fault))?;
    Ok(())
}
