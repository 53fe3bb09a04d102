// The writer of the report's input: settings, mask and LLRs become the one text that they are written as.
// It sees `report_input` for the decoder's tests, `format`, and the block length of `polar`; its definitions take the
// names that the reader compares. It promises the text that request 2026-01 gives, from the first byte of the lent
// slice on, its old contents after it, and the text's length; or the number of a refusal, where nothing is written.
#![tactic(auto)]

ghost use Rattle.std.specs.Prelude.{◌≡◌, ◌<◌, ◌≤◌, length};
ghost use Rattle.calls.specs.Bounds.{most_positions};
ghost use Rattle.format.specs.Decimal.{line};
ghost use Rattle.format.specs.DecimalLaws.{FourDigits};
ghost use Rattle.format.specs.Writing.{HasRoom, Appended};
ghost use Rattle.report_input.specs.Input.{block_of, block_number};
ghost use Rattle.report_writer.specs.Writer.{values_of, values_at, tidy_text};
ghost use Rattle.report_writer.specs.Writer.{answer_of, write_answer, text_after};

use calls::Refusal;
use format::Cursor;
use settings::Settings;

// The most bytes of a text that is written.
pub const LONGEST_TIDY_TEXT: usize = 12283;

// The line of the settings, in the order of their names.
fn settings_line(text: &mut Cursor, settings: Settings)
    requires digits { FourDigits (values_of settings) }
    requires room { HasRoom text.old (line (values_of settings)) }
    ensures { Appended text.old (line (values_of settings)) text.new }
{
    text.line(&[
        settings.m as i32,
        settings.ceiling as i32,
        settings.scale as i32,
        settings.limit as i32,
        settings.criterion as i32,
        settings.operand as i32,
    ]);
}

// The text of an accepted block.
fn compose(text: &mut Cursor, settings: Settings, mask: &[u8], llr: &[i16])
    requires llr_value { block_number settings (block_of mask.now llr.now) ≡ 0 }
    requires room { HasRoom text.old (tidy_text settings (block_of mask.now llr.now)) }
    ensures { Appended text.old (tidy_text settings (block_of mask.now llr.now)) text.new }
{
    text.copy(b"m ceiling scale limit criterion operand\n");
    settings_line(text, settings);
    text.copy(b"position frozen llr\n");
    let n = polar::power_of_two(settings.m);
    text.position_lines(
        n,
        |i|
            requires { (i ≤ most_positions) × (i < length mask.now) × (i < length llr.now) }
            ensures { result ≡ values_at (block_of mask.entry.now llr.entry.now) i }
        { [i as i32, mask[i] as i32, llr[i] as i32] },
    );
}

// The text is composed in memory of its own, so that every test comes before the first write: the decoder's, and last
// that of the room. The answer is the text's length.
pub fn write(
    settings: Settings,
    mask: &[u8],
    llr: &[i16],
    text: &mut [u8],
) -> Result<usize, Refusal>
    ensures result_value { answer_of result
        ≡ write_answer settings (block_of mask.now llr.now) text.old }
    ensures text_after { text.new
        ≡ text_after settings (block_of mask.now llr.now) text.old }
{
    report_input::decoder_refusal(settings, mask, llr)?;
    let mut own = [0u8; LONGEST_TIDY_TEXT];
    let mut composed = Cursor::new(&mut own);
    compose(&mut composed, settings, mask, llr);
    let length = composed.count();
    let room = text.len();
    if room < length {
        return Err(Refusal::ShortSlice);
    }
    Cursor::new(text).copy(&own[..length]);
    Ok(length)
}
