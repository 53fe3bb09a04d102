// The tidy form of a text: from the bytes of a text to the bytes of the one text of its settings and block.
// It sees `report_input`, `report_writer` and `format`, and `report_text` for its laws. It promises, for every byte
// string, the tidy text of what it means, or its refusal as the report prints it, from the first byte of the lent array
// on, the old contents after it, and the length. The array has room for every one.
#![tactic(auto)]

ghost use Rattle.std.specs.Prelude.{◌≡◌, ◌≤◌, length};
ghost use Rattle.format.specs.Wrote.{Wrote, Within};
ghost use Rattle.report_input.specs.Input.{block_of, block_number};
ghost use Rattle.report_writer.specs.Writer.{tidy_text, longest_tidy_text};
ghost use Rattle.tidy_text.specs.Tidy.{tidy};

use calls::MOST_POSITIONS;
use report_writer::LONGEST_TIDY_TEXT;
use settings::Settings;

// The tidy text of an accepted block, which the writer doesn't refuse.
fn written(out: &mut [u8], settings: Settings, mask: &[u8], llr: &[i16]) -> usize
    requires llr_value { block_number settings (block_of mask.now llr.now) ≡ 0 }
    requires longest_tidy_text_in_bounds { longest_tidy_text ≤ length out.old }
    ensures wrote { Wrote out.old 0
        (tidy_text settings (block_of mask.now llr.now)) out.new result }
    ensures upper_bound { result ≤ longest_tidy_text }
{
    match report_writer::write(settings, mask, llr, out) {
        Ok(length) => length,
        Err(refusal) => format::refused(out, refusal),
    }
}

// The tidy form of a text: `&out[..tidy(text, &mut out)]`.
pub fn tidy(text: &[u8], out: &mut [u8; LONGEST_TIDY_TEXT]) -> usize
    ensures wrote { Wrote out.old 0 (tidy text.now) out.new result }
    ensures within { Within result out.new }
{
    let mut mask = [0u8; MOST_POSITIONS];
    let mut llr = [0i16; MOST_POSITIONS];
    match report_input::read(text, &mut mask, &mut llr) {
        Err(refusal) => format::refused(out, refusal),
        Ok(settings) => written(out, settings, &mask, &llr),
    }
}
