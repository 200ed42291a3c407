// What an operation answers, judged before anything is changed.
ghost use Rattle.std.specs.Prelude.{◌≡◌, true, cond, length};
ghost use Rattle.reassembly.specs.Verdict.{Done, Refused, verdict_told};
ghost use Rattle.reassembly.specs.Record.{partial, sound};
ghost use Rattle.reassembly.specs.Reading.{GoodChunk};
ghost use Rattle.reassembly.specs.Reading.Reading.{chunk};
ghost use Rattle.reassembly.specs.Judge.{admission_of, judge_reading, judge_combine};
ghost use Rattle.wire.specs.Constants.{BYTE_DIFFERS};

use crate::areas::{Areas, clash_covered, clash_data};
use crate::record::{Message, PartialRecord, is_sound, same_message};
use wire::refusal::{Reason, Refusal};

// How a partial admits bytes of a message: into a fresh partial, or beside what it holds of the same message.
#[derive(Clone, Copy, PartialEq, Eq, Debug)]
enum Admission {
    Fresh,
    Same,
}

// 11 where the message has more bytes than the area, 13 where another message is held.
#[tactic(auto, unfolding(crate::specs::Judge::admission_of))]
fn admit(rec: PartialRecord, room: usize, m: Message) -> Result<Admission, Refusal>
    ensures { result ≡ admission_of rec room m }
{
    if room < m.total {
        return Err(Reason::NoRoom.at(0));
    }
    if !rec.started {
        return Ok(Admission::Fresh);
    }
    if !same_message(rec.message, m) {
        return Err(Reason::OtherMessage.at(0));
    }
    Ok(Admission::Same)
}

// 14 where a held byte differs.
fn unless_clash(clash: bool) -> Result<(), Refusal>
    ensures { verdict_told result ≡ cond clash (Refused BYTE_DIFFERS 0) Done }
{
    if clash {
        return Err(Reason::ByteDiffers.at(0));
    }
    Ok(())
}

// What taking in a chunk without a fault of its own answers, in a sound partial: 11, 13, 14.
pub(crate) fn judge_chunk(
    rec: PartialRecord,
    payload: &[u8],
    marks: &[u8],
    m: Message,
    offset: usize,
    bytes: &[u8],
) -> Result<(), Refusal>
    requires { (sound (partial rec payload.now marks.now) ≡ true) × GoodChunk m offset (length bytes.now) }
    ensures { verdict_told result ≡ judge_reading (partial rec payload.now marks.now) (chunk m offset bytes.now) }
{
    match admit(rec, payload.len(), m)? {
        Admission::Fresh => Ok(()),
        Admission::Same => unless_clash(clash_data(Areas { payload, marks }, offset, bytes)),
    }
}

// What combining a partial into another answers: 12 for either, 11, 13, 14.
pub(crate) fn judge_combine(
    rec: PartialRecord,
    payload: &[u8],
    marks: &[u8],
    source: PartialRecord,
    from: &[u8],
    from_marks: &[u8],
) -> Result<(), Refusal>
    ensures { let target = partial rec payload.now marks.now in
        let other = partial source «from».now from_marks.now in
        verdict_told result ≡ judge_combine target other }
{
    if !is_sound(rec, payload.len(), marks.len()) {
        return Err(Reason::Unsound.at(0));
    }
    if !is_sound(source, from.len(), from_marks.len()) {
        return Err(Reason::Unsound.at(0));
    }
    if !source.started {
        return Ok(());
    }
    let m = source.message;
    let other = Areas {
        payload: from,
        marks: from_marks,
    };
    match admit(rec, payload.len(), m)? {
        Admission::Fresh => Ok(()),
        Admission::Same => unless_clash(clash_covered(Areas { payload, marks }, m.total, other)),
    }
}
