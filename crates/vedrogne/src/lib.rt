// The C interface: coder, read-out, fronts, decoder, a tally for each radio, and the texts of blocks, for callers in
// other languages, as include/vedrogne.h declares them. `vedrogne_c` exports each function with the number of its
// answer.
// It sees the promises of `calls`, `polar`, `channel`, `antennas`, `settings`, `decoder`, `tally`, `radios`,
// `report_input`, `report_writer` and `report_text`. It promises that each function's answer has its call's number, 0
// or a refusal's, and that it leaves in every lent slice what the call's definition says; after a refusal nothing has
// changed, save a tally that counts it.
// A slice is a pointer and a length in elements, two parameters in C. No function requires anything of the values
// handed in.
#![tactic(auto)]

ghost use Rattle.std.specs.Prelude.{◌≡◌, ◌++◌, ◌+◌, ◌≤◌, length, take, drop, MatchResult};
ghost use Rattle.polar.specs.Code.{encode_number, encode_block, read_out_number, read_out_message};
ghost use Rattle.channel.specs.Front.{front_number, front_llrs};
ghost use Rattle.antennas.specs.FrontTwo.{branches, front_two_number, front_two_llrs};
ghost use Rattle.settings.specs.Settings.{settings_list};
ghost use Rattle.settings.specs.Slices.{slices};
ghost use Rattle.decoder.specs.Decoder.{result_of};
ghost use Rattle.calls.specs.LentMemory.{written_over};
ghost use Rattle.calls.specs.Numbers.{number_of, refusal_number};
ghost use Rattle.report_input.specs.Input.{block_of};
ghost use Rattle.report_text.specs.Report.{report};
ghost use Rattle.report_writer.specs.Writer.{tidy_text};
ghost use Rattle.vedrogne.specs.Interface.{
  settings_length,
  tally_length,
  code_in,
  receiver_in,
  settings_in,
  tally_in,
  tally_list,
  settings_list_number,
  result_number,
  iterations_out,
  reason_out,
  lent,
  DecodeCall,
  RadioCall,
};
ghost use Rattle.vedrogne.specs.TextCalls.{read_meaning, ReadCall};
ghost use Rattle.vedrogne.specs.TextCalls.{write_call_number, report_call_number, TextCall};

use antennas::Receiver;
use calls::Refusal;
use channel::Channel;
use decoder::Ending;
use polar::Code;
use radios::RADIOS;
use report_text::REPORT_ROOM;
use settings::Settings;
use tally::{Tallied, Tally};

// How many elements of a list of settings, of one tally and of all tallies are read or written.
const SETTINGS_LENGTH: usize = 6;

const TALLY_LENGTH: usize = 5;

const TALLIES_LENGTH: usize = TALLY_LENGTH * RADIOS;

// The one place where a list becomes settings. 7 refuses a shorter list.
fn settings_in(settings: &[u32]) -> Result<Settings, Refusal>
    ensures { MatchResult result
        (λ values. (settings_list_number settings.now ≡ 0) × (values ≡ settings_in settings.now))
        (λ refusal. settings_list_number settings.now ≡ refusal_number refusal) }
{
    let &[m, ceiling, scale, limit, criterion, operand, ..] = settings else {
        return Err(Refusal::ShortSlice);
    };
    Ok(Settings {
        m,
        ceiling,
        scale,
        limit,
        criterion,
        operand,
    })
}

// And the one place where settings become a list.
fn settings_out(values: Settings, settings: &mut [u32])
    requires { settings_length ≤ length settings.old }
    ensures { settings.new ≡ written_over (settings_list values) settings.old }
{
    settings[..SETTINGS_LENGTH].copy_from_slice(&[
        values.m,
        values.ceiling,
        values.scale,
        values.limit,
        values.criterion,
        values.operand,
    ]);
}

// The tally of the first five numbers.
fn tally_in(tallies: &[u32]) -> Tally
    requires { tally_length ≤ length tallies.now }
    ensures { result ≡ tally_in tallies.now }
{
    let &[blocks, by_criterion, by_limit, refusals, iterations, ..] = tallies else {
        unreachable!()
    };
    Tally {
        blocks,
        by_criterion,
        by_limit,
        refusals,
        iterations,
    }
}

// Its five numbers, from an element on.
fn tally_out(counts: Tally, tallies: &mut [u32], at: usize)
    requires { at + tally_length ≤ length tallies.old }
    ensures { tallies.new
        ≡ take at tallies.old ++ tally_list counts ++ drop (at + tally_length) tallies.old }
{
    tallies[at..at + TALLY_LENGTH].copy_from_slice(&[
        counts.blocks,
        counts.by_criterion,
        counts.by_limit,
        counts.refusals,
        counts.iterations,
    ]);
}

// Iteration and reason are written only where the decoder ended.
fn result_out(
    outcome: Result<Ending, Refusal>,
    iterations: &mut u32,
    reason: &mut u32,
) -> Result<(), Refusal>
    ensures value { number_of result ≡ result_number (result_of outcome) }
    ensures iterations_after { iterations.new ≡ iterations_out (result_of outcome) iterations.old }
    ensures reason_after { reason.new ≡ reason_out (result_of outcome) reason.old }
{
    let ending = outcome?;
    *iterations = ending.iterations;
    *reason = decoder::reason_number(ending.reason);
    Ok(())
}

pub fn vedrogne_decode(
    settings: &[u32],
    mask: &[u8],
    llr: &[i16],
    soft: &mut [i16],
    mark: &mut [u8],
    coded_soft: &mut [i16],
    coded_mark: &mut [u8],
    work: &mut [i16],
    iterations: &mut u32,
    reason: &mut u32,
) -> Result<(), Refusal>
    ensures { DecodeCall (settings_list_number settings.now)
        settings.now mask.now llr.now
        (lent (slices soft.old mark.old coded_soft.old coded_mark.old
        work.old) iterations.old reason.old)
        (lent (slices soft.new mark.new coded_soft.new coded_mark.new
        work.new) iterations.new reason.new)
        (number_of result) }
{
    let settings = settings_in(settings)?;
    let outcome = decoder::decode(
        settings, mask, llr, soft, mark, coded_soft, coded_mark, work,
    );
    result_out(outcome, iterations, reason)
}

// Of the tallies only the radio's five numbers are read and written; where 15 refuses them they are written as they
// were.
pub fn vedrogne_decode_radio(
    radio: u32,
    tallies: &mut [u32],
    settings: &[u32],
    mask: &[u8],
    llr: &[i16],
    soft: &mut [i16],
    mark: &mut [u8],
    coded_soft: &mut [i16],
    coded_mark: &mut [u8],
    work: &mut [i16],
    iterations: &mut u32,
    reason: &mut u32,
) -> Result<(), Refusal>
    ensures { RadioCall radio tallies.old tallies.new
        settings.now mask.now llr.now
        (lent (slices soft.old mark.old
        coded_soft.old coded_mark.old work.old)
        iterations.old reason.old)
        (lent (slices soft.new mark.new
        coded_soft.new coded_mark.new work.new)
        iterations.new reason.new)
        (number_of result) }
{
    if tallies.len() < TALLIES_LENGTH {
        return Err(Refusal::ShortSlice);
    }
    let settings = settings_in(settings)?;
    if !radios::is_radio(radio) {
        return Err(Refusal::RadioNumber);
    }
    let at = TALLY_LENGTH * radio as usize;
    let Tallied { tally, outcome } = tally_in(&tallies[at..]).decode(
        settings, mask, llr, soft, mark, coded_soft, coded_mark, work,
    );
    tally_out(tally, tallies, at);
    result_out(outcome, iterations, reason)
}

pub fn vedrogne_encode(m: u32, mask: &[u8], message: &[u8], block: &mut [u8]) -> Result<(), Refusal>
    ensures value { number_of result ≡ encode_number (code_in m) mask.now message.now
        (length block.old) }
    ensures block_after { block.new
        ≡ encode_block (code_in m) mask.now message.now block.old }
{
    polar::encode(Code { m }, mask, message, block)
}

pub fn vedrogne_read_out(
    m: u32,
    mask: &[u8],
    bits: &[u8],
    message: &mut [u8],
) -> Result<(), Refusal>
    ensures value { number_of result ≡ read_out_number (code_in m) mask.now bits.now
        (length message.old) }
    ensures message_after { message.new
        ≡ read_out_message (code_in m) mask.now bits.now message.old }
{
    polar::read_out(Code { m }, mask, bits, message)
}

pub fn vedrogne_front_gaussian(
    m: u32,
    ceiling: u32,
    factor: f32,
    samples: &[f32],
    llr: &mut [i16],
) -> Result<(), Refusal>
    ensures value { number_of result ≡ front_number m ceiling (Channel.Gaussian factor) samples.now
        (length llr.old) }
    ensures llr_after { llr.new
        ≡ front_llrs m ceiling (Channel.Gaussian factor) samples.now llr.old }
{
    channel::front(m, ceiling, Channel::Gaussian(factor), samples, llr)
}

pub fn vedrogne_front_flipping(
    m: u32,
    ceiling: u32,
    weight: f32,
    samples: &[f32],
    llr: &mut [i16],
) -> Result<(), Refusal>
    ensures value { number_of result ≡ front_number m ceiling (Channel.Flipping weight) samples.now
        (length llr.old) }
    ensures llr_after { llr.new
        ≡ front_llrs m ceiling (Channel.Flipping weight) samples.now llr.old }
{
    channel::front(m, ceiling, Channel::Flipping(weight), samples, llr)
}

pub fn vedrogne_front_erasing(
    m: u32,
    ceiling: u32,
    samples: &[f32],
    llr: &mut [i16],
) -> Result<(), Refusal>
    ensures value { number_of result ≡ front_number m ceiling Channel.Erasing samples.now (length llr.old) }
    ensures llr_after { llr.new ≡ front_llrs m ceiling Channel.Erasing samples.now llr.old }
{
    channel::front(m, ceiling, Channel::Erasing, samples, llr)
}

pub fn vedrogne_front_two(
    m: u32,
    ceiling: u32,
    first_factor: f32,
    second_factor: f32,
    first: &[f32],
    second: &[f32],
    llr: &mut [i16],
) -> Result<(), Refusal>
    ensures value { number_of result ≡ front_two_number m ceiling (receiver_in first_factor second_factor)
        (branches first.now second.now) (length llr.old) }
    ensures llr_after { llr.new ≡ front_two_llrs m ceiling (receiver_in first_factor second_factor)
        (branches first.now second.now) llr.old }
{
    let receiver = Receiver {
        first: first_factor,
        second: second_factor,
    };
    antennas::front_two(m, ceiling, receiver, first, second, llr)
}

pub fn vedrogne_read(
    text: &[u8],
    settings: &mut [u32],
    mask: &mut [u8],
    llr: &mut [i16],
) -> Result<(), Refusal>
    ensures { ReadCall
        (read_meaning settings.old (block_of mask.old llr.old) text.now)
        settings.old settings.new
        (block_of mask.old llr.old) (block_of mask.new llr.new) (number_of result) }
{
    if settings.len() < SETTINGS_LENGTH {
        return Err(Refusal::ShortSlice);
    }
    let values = report_input::read(text, mask, llr)?;
    settings_out(values, settings);
    Ok(())
}

pub fn vedrogne_write(
    settings: &[u32],
    mask: &[u8],
    llr: &[i16],
    text: &mut [u8],
    written: &mut usize,
) -> Result<(), Refusal>
    ensures { TextCall
        (write_call_number settings.now (block_of mask.now llr.now)
        (length text.old))
        (tidy_text (settings_in settings.now) (block_of mask.now llr.now))
        text.old text.new written.old written.new (number_of result) }
{
    let settings = settings_in(settings)?;
    *written = report_writer::write(settings, mask, llr, text)?;
    Ok(())
}

pub fn vedrogne_report(text: &[u8], out: &mut [u8], written: &mut usize) -> Result<(), Refusal>
    ensures { TextCall (report_call_number (length out.old)) (report text.now)
        out.old out.new written.old written.new (number_of result) }
{
    if out.len() < REPORT_ROOM {
        return Err(Refusal::ShortSlice);
    }
    *written = report_text::report_into(text, out);
    Ok(())
}
