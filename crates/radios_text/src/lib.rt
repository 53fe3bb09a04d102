// The summary of a list of tallies (request 2026-05): from the bytes of a list to the bytes of the dispatcher's lines.
// It sees `radio_list`, `radio_summary` and `format`. It promises, for every byte string, the summary of what it means,
// or its refusal as the report prints it, from the first byte of the lent array on, the old contents after it, and the
// length. The array has room for every one.
#![tactic(auto)]

ghost use Rattle.format.specs.Wrote.{Wrote, Within};
ghost use Rattle.radios_text.specs.RadiosText.{summary};

use calls::Refusal;
use radio_summary::LONGEST_SUMMARY;

// The summary of a list: `&out[..summary(text, &mut out)]`.
#[tactic(auto, using(crate::proofs::Rules::texts), unfolding(crate::specs::RadiosText::summary))]
pub fn summary(text: &[u8], out: &mut [u8; LONGEST_SUMMARY]) -> usize
    ensures wrote { Wrote out.old 0 (summary text.now) out.new result }
    ensures within { Within result out.new }
{
    let list = radio_list::read(text);
    match list.answer {
        Ok(()) => radio_summary::write(list.radios, out),
        Err(refusal) => format::refused(out, refusal),
    }
}
