// The exports of the C interface, as include/vedrogne.h declares them: each calls the function of `vedrogne` that has
// its name, and returns the number of its answer, with the same clauses.
// It sees `vedrogne`, and the definitions that its promises cite. A slice is a pointer and a length in elements, two
// parameters in C. No function requires anything of the values handed in.
#![tactic(auto)]

ghost use Rattle.std.specs.Prelude.{◌≡◌, length};
ghost use Rattle.polar.specs.Code.{encode_number, encode_block, read_out_number, read_out_message};
ghost use Rattle.channel.specs.Front.{front_number, front_llrs};
ghost use Rattle.antennas.specs.FrontTwo.{branches, front_two_number, front_two_llrs};
ghost use Rattle.settings.specs.Slices.{slices};
ghost use Rattle.report_input.specs.Input.{block_of};
ghost use Rattle.report_text.specs.Report.{report};
ghost use Rattle.report_writer.specs.Writer.{tidy_text};
ghost use Rattle.vedrogne.specs.Interface.{code_in, receiver_in, settings_in, settings_list_number, lent, DecodeCall};
ghost use Rattle.vedrogne.specs.Interface.{RadioCall};
ghost use Rattle.vedrogne.specs.TextCalls.{read_meaning, ReadCall};
ghost use Rattle.vedrogne.specs.TextCalls.{write_call_number, report_call_number, TextCall};

use channel::Channel;

#[unsafe(no_mangle)]
pub extern "C" fn vedrogne_decode(
    settings: &[u32],
    mask: &[u8],
    llr: &[i16],
    soft: &mut [i16],
    mark: &mut [u8],
    coded_soft: &mut [i16],
    coded_mark: &mut [u8],
    work: &mut [i16],
    iterations: &mut u32,
    reason: &mut u32,
) -> u32
    ensures { DecodeCall (settings_list_number settings.now)
        settings.now mask.now llr.now
        (lent (slices soft.old mark.old coded_soft.old coded_mark.old
        work.old) iterations.old reason.old)
        (lent (slices soft.new mark.new coded_soft.new coded_mark.new
        work.new) iterations.new reason.new)
        result }
{
    calls::number(vedrogne::vedrogne_decode(
        settings, mask, llr, soft, mark, coded_soft, coded_mark, work, iterations, reason,
    ))
}

#[unsafe(no_mangle)]
pub extern "C" fn vedrogne_decode_radio(
    radio: u32,
    tallies: &mut [u32],
    settings: &[u32],
    mask: &[u8],
    llr: &[i16],
    soft: &mut [i16],
    mark: &mut [u8],
    coded_soft: &mut [i16],
    coded_mark: &mut [u8],
    work: &mut [i16],
    iterations: &mut u32,
    reason: &mut u32,
) -> u32
    ensures { RadioCall radio tallies.old tallies.new
        settings.now mask.now llr.now
        (lent (slices soft.old mark.old
        coded_soft.old coded_mark.old work.old)
        iterations.old reason.old)
        (lent (slices soft.new mark.new
        coded_soft.new coded_mark.new work.new)
        iterations.new reason.new)
        result }
{
    calls::number(vedrogne::vedrogne_decode_radio(
        radio, tallies, settings, mask, llr, soft, mark, coded_soft, coded_mark, work, iterations,
        reason,
    ))
}

#[unsafe(no_mangle)]
pub extern "C" fn vedrogne_encode(m: u32, mask: &[u8], message: &[u8], block: &mut [u8]) -> u32
    ensures value { result ≡ encode_number (code_in m) mask.now message.now
        (length block.old) }
    ensures block_after { block.new
        ≡ encode_block (code_in m) mask.now message.now block.old }
{
    calls::number(vedrogne::vedrogne_encode(m, mask, message, block))
}

#[unsafe(no_mangle)]
pub extern "C" fn vedrogne_read_out(m: u32, mask: &[u8], bits: &[u8], message: &mut [u8]) -> u32
    ensures value { result ≡ read_out_number (code_in m) mask.now bits.now
        (length message.old) }
    ensures message_after { message.new
        ≡ read_out_message (code_in m) mask.now bits.now message.old }
{
    calls::number(vedrogne::vedrogne_read_out(m, mask, bits, message))
}

#[unsafe(no_mangle)]
pub extern "C" fn vedrogne_front_gaussian(
    m: u32,
    ceiling: u32,
    factor: f32,
    samples: &[f32],
    llr: &mut [i16],
) -> u32
    ensures value { result ≡ front_number m ceiling (Channel.Gaussian factor) samples.now
        (length llr.old) }
    ensures llr_after { llr.new
        ≡ front_llrs m ceiling (Channel.Gaussian factor) samples.now llr.old }
{
    calls::number(vedrogne::vedrogne_front_gaussian(m, ceiling, factor, samples, llr))
}

#[unsafe(no_mangle)]
pub extern "C" fn vedrogne_front_flipping(
    m: u32,
    ceiling: u32,
    weight: f32,
    samples: &[f32],
    llr: &mut [i16],
) -> u32
    ensures value { result ≡ front_number m ceiling (Channel.Flipping weight) samples.now
        (length llr.old) }
    ensures llr_after { llr.new
        ≡ front_llrs m ceiling (Channel.Flipping weight) samples.now llr.old }
{
    calls::number(vedrogne::vedrogne_front_flipping(m, ceiling, weight, samples, llr))
}

#[unsafe(no_mangle)]
pub extern "C" fn vedrogne_front_erasing(
    m: u32,
    ceiling: u32,
    samples: &[f32],
    llr: &mut [i16],
) -> u32
    ensures value { result ≡ front_number m ceiling Channel.Erasing samples.now (length llr.old) }
    ensures llr_after { llr.new ≡ front_llrs m ceiling Channel.Erasing samples.now llr.old }
{
    calls::number(vedrogne::vedrogne_front_erasing(m, ceiling, samples, llr))
}

#[unsafe(no_mangle)]
pub extern "C" fn vedrogne_front_two(
    m: u32,
    ceiling: u32,
    first_factor: f32,
    second_factor: f32,
    first: &[f32],
    second: &[f32],
    llr: &mut [i16],
) -> u32
    ensures value { result ≡ front_two_number m ceiling (receiver_in first_factor second_factor)
        (branches first.now second.now) (length llr.old) }
    ensures llr_after { llr.new ≡ front_two_llrs m ceiling (receiver_in first_factor second_factor)
        (branches first.now second.now) llr.old }
{
    calls::number(vedrogne::vedrogne_front_two(
        m,
        ceiling,
        first_factor,
        second_factor,
        first,
        second,
        llr,
    ))
}

#[unsafe(no_mangle)]
pub extern "C" fn vedrogne_read(
    text: &[u8],
    settings: &mut [u32],
    mask: &mut [u8],
    llr: &mut [i16],
) -> u32
    ensures { ReadCall
        (read_meaning settings.old (block_of mask.old llr.old) text.now)
        settings.old settings.new
        (block_of mask.old llr.old) (block_of mask.new llr.new) result }
{
    calls::number(vedrogne::vedrogne_read(text, settings, mask, llr))
}

#[unsafe(no_mangle)]
pub extern "C" fn vedrogne_write(
    settings: &[u32],
    mask: &[u8],
    llr: &[i16],
    text: &mut [u8],
    written: &mut usize,
) -> u32
    ensures { TextCall
        (write_call_number settings.now (block_of mask.now llr.now)
        (length text.old))
        (tidy_text (settings_in settings.now) (block_of mask.now llr.now))
        text.old text.new written.old written.new result }
{
    calls::number(vedrogne::vedrogne_write(settings, mask, llr, text, written))
}

#[unsafe(no_mangle)]
pub extern "C" fn vedrogne_report(text: &[u8], out: &mut [u8], written: &mut usize) -> u32
    ensures { TextCall (report_call_number (length out.old)) (report text.now)
        out.old out.new written.old written.new result }
{
    calls::number(vedrogne::vedrogne_report(text, out, written))
}
