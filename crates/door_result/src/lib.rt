// What a call with a result text answers: the text of a coded form in the lent buffer, or a refusal.
#![tactic(auto)]

ghost use Rattle.std.specs.Prelude.{◌≡◌, ◌≤◌, length};
ghost use Rattle.code.specs.Coding.{Coded, dec};
ghost use Rattle.form_write.specs.Write.{text_of};
ghost use Rattle.reply.specs.definitions.Reply.{fitted, result_after};
ghost use Rattle.door_result.specs.Result.{written_of};

use reply::Written;

// Writes the text of the form x into the result buffer if it has room.
pub fn write_result(x: &[u32], res: &mut [u8]) -> Written
    requires coded { Coded 0 x.now }
    requires x_len_bound { length x.now ≤ 33554432 }
    ensures value { result ≡ written_of (fitted (length res.old) (text_of (dec 0 x.now))) }
    ensures res_after { res.new ≡ result_after (fitted (length res.old) (text_of (dec 0 x.now)))
        res.old }
{
    let n = form_write::text_length(x);
    if res.len() < n {
        return Err(refusal::of_neither(11));
    }
    Ok(form_write::write_text(x, res))
}
