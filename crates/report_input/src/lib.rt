// The report's input: a text of bytes becomes settings, mask and LLRs.
// It sees `scan`, `settings` and the block length of `polar`. It promises the meaning that document 01 gives the text,
// for every byte string and all lengths of the lent slices, and that a refused text writes nothing.
#![tactic(auto)]

ghost use Rattle.std.specs.Prelude.{◌≡◌, ◌≤◌, ◌^◌, length, IfOk};
ghost use Rattle.calls.specs.Bounds.{largest_m, most_positions};
ghost use Rattle.calls.specs.Numbers.{number_of};
ghost use Rattle.scan.specs.Answers.{read_to, reading_of};
ghost use Rattle.scan.specs.Reading.{found};
ghost use Rattle.report_input.specs.Input.{unsigned, mask_value, llr_value, settings_of, head};
ghost use Rattle.report_input.specs.Input.{read_position, read_positions, block_of, block_over};
ghost use Rattle.report_input.specs.Input.{block_number, number_in, tested, sized, meaning_in};
ghost use Rattle.report_input.specs.Input.{room_of, InputRead};
ghost use Rattle.report_input.specs.InputLaws.{Roomy};
ghost use Rattle.report_input.specs.StoredPositions.{positions_stored};

use calls::{LARGEST_M, MOST_POSITIONS, MOST_WORKSPACE, Refusal};
use settings::{Lengths, Settings};

// The most bytes of an accepted text.
pub const LONGEST_TEXT: usize = 32768;

// What a value below zero counts as: it lies outside every range as well.
const OUTSIDE_RANGES: u32 = 1000000;

// What a mask value beyond a byte counts as: it is no mask value either.
const OUTSIDE_MASK: u8 = 255;

// What the size of an LLR beyond 16 bits counts as: it is above every ceiling as well.
const OUTSIDE_LLR: i32 = 32767;

// How many elements the lent slices of mask and LLRs have.
#[derive(Clone, Copy)]
pub struct Room {
    pub mask: usize,
    pub llr: usize,
}

// What the line of a position says of it.
#[derive(Clone, Copy)]
pub struct PositionInput {
    pub frozen: u8,
    pub llr: i16,
}

// A value that can't be below zero.
fn unsigned(value: i32) -> u32
    ensures { result ≡ unsigned value }
{
    u32::try_from(value).unwrap_or(OUTSIDE_RANGES)
}

// A mask value; 256 is no 0.
fn mask_value(value: i32) -> u8
    ensures { result ≡ mask_value value }
{
    u8::try_from(value).unwrap_or(OUTSIDE_MASK)
}

// An LLR; 65,539 is no 3.
fn llr_value(value: i32) -> i16
    ensures { result ≡ llr_value value }
{
    value.clamp(-OUTSIDE_LLR, OUTSIDE_LLR) as i16
}

// The settings in the order of their names.
fn settings_of(values: [i32; 6]) -> Settings
    ensures { result ≡ settings_of values }
{
    let [m, ceiling, scale, limit, criterion, operand] = values;
    Settings {
        m: unsigned(m),
        ceiling: unsigned(ceiling),
        scale: unsigned(scale),
        limit: unsigned(limit),
        criterion: unsigned(criterion),
        operand: unsigned(operand),
    }
}

// A later setting joins the end of the first name line, and takes its default here where the line ends before its name.
#[tactic(auto, unfolding(crate::specs::Input::head))]
fn read_head(text: &[u8]) -> Option<(Settings, &[u8])>
    ensures { head text.now ≡ reading_of result }
{
    let text = scan::literal(text, b"m ceiling scale limit criterion operand\n")?;
    let mut values = [0; 6];
    let text = scan::line(text, &mut values)?;
    let text = scan::literal(text, b"position frozen llr\n")?;
    Some((settings_of(values), text))
}

// The line of a position.
#[tactic(auto, unfolding(crate::specs::Input::read_position))]
fn read_position(text: &[u8], position: usize) -> Option<(PositionInput, &[u8])>
    ensures { read_position position text.now ≡ reading_of result }
{
    let mut values = [0; 3];
    let rest = scan::line(text, &mut values)?;
    let [written, frozen, llr] = values;
    if unsigned(written) as usize != position {
        return None;
    }
    let read = PositionInput {
        frozen: mask_value(frozen),
        llr: llr_value(llr),
    };
    Some((read, rest))
}

// The lines of as many positions as two slices have elements; those read before a fault are stored too. Under a `zip`
// nothing would be known of what is written, so the second slice goes by its index.
#[tactic(auto, using(crate::proofs::Rules::positions))]
fn read_positions<'a>(text: &'a [u8], mask: &mut [u8], llr: &mut [i16]) -> Option<&'a [u8]>
    requires { length llr.old ≡ length mask.old }
    ensures text_value { read_positions (length mask.old) 0 text.now ≡ read_to (block_of mask.new llr.new) result }
    ensures positions_after { block_of mask.new llr.new
        ≡ block_over (positions_stored (length mask.old) 0 text.now) (block_of mask.old llr.old) }
{
    let mut rest = text;
    for (i, frozen) in mask.iter_mut().enumerate() {
        let (read, after) = read_position(rest, i)?;
        *frozen = read.frozen;
        llr[i] = read.llr;
        rest = after;
    }
    Some(rest)
}

// The decoder's tests of a block, with room for one of any length in what only the decoder writes.
pub fn decoder_refusal(settings: Settings, mask: &[u8], llr: &[i16]) -> Result<(), Refusal>
    ensures { number_of result ≡ block_number settings (block_of mask.now llr.now) }
{
    let lengths = Lengths {
        soft: MOST_POSITIONS,
        mark: MOST_POSITIONS,
        coded_soft: MOST_POSITIONS,
        coded_mark: MOST_POSITIONS,
        work: MOST_WORKSPACE,
    };
    settings::refusal(settings, mask, llr, lengths)
}

// How many positions a block has, whose m is in its range.
fn positions(m: u32) -> usize
    requires { m ≤ largest_m }
    ensures value { result ≡ 2 ^ m }
    ensures upper_bound { result ≤ most_positions }
{
    polar::power_of_two(m)
}

// What refuses the lines of the positions, where the settings' m is in its range. They are read into memory of its own,
// so that nothing is written yet. The decoder's tests see as much of them as has room in the lent slices.
fn refusal(text: &[u8], settings: Settings, room: Room) -> Result<(), Refusal>
    requires { (1 ≤ settings.m) × (settings.m ≤ largest_m) }
    ensures value { number_of result
        ≡ number_in (tested room settings (read_positions (2 ^ settings.m) 0 text.now)) }
    ensures roomy { IfOk result (λ _. Roomy room (2 ^ settings.m)) }
{
    let n = positions(settings.m);
    let mut mask = [0; MOST_POSITIONS];
    let mut llr = [0; MOST_POSITIONS];
    let mask = &mut mask[..n];
    let llr = &mut llr[..n];
    let rest = read_positions(text, mask, llr).ok_or(Refusal::MalformedText)?;
    if !rest.is_empty() {
        return Err(Refusal::MalformedText);
    }
    decoder_refusal(settings, &mask[..n.min(room.mask)], &llr[..n.min(room.llr)])
}

// The lines of the positions after the first three lines. Every test comes before the first write, so the lines are
// read a second time, into the lent slices.
fn read_block(
    text: &[u8],
    settings: Settings,
    mask: &mut [u8],
    llr: &mut [i16],
) -> Result<Settings, Refusal>
    ensures { InputRead (sized (room_of (block_of mask.old llr.old)) (found settings text.now))
        (block_of mask.old llr.old) (block_of mask.new llr.new) result }
{
    if !(1..=LARGEST_M).contains(&settings.m) {
        return Err(Refusal::BlockLength);
    }
    let room = Room {
        mask: mask.len(),
        llr: llr.len(),
    };
    refusal(text, settings, room)?;
    let n = positions(settings.m);
    read_positions(text, &mut mask[..n], &mut llr[..n]);
    Ok(settings)
}

// Settings, mask and LLRs of a text.
#[tactic(auto, using(crate::proofs::Rules::meanings))]
pub fn read(text: &[u8], mask: &mut [u8], llr: &mut [i16]) -> Result<Settings, Refusal>
    ensures { InputRead (meaning_in (room_of (block_of mask.old llr.old)) text.now)
        (block_of mask.old llr.old) (block_of mask.new llr.new) result }
{
    if LONGEST_TEXT < text.len() {
        return Err(Refusal::MalformedText);
    }
    let (settings, rest) = read_head(text).ok_or(Refusal::MalformedText)?;
    read_block(rest, settings, mask, llr)
}
