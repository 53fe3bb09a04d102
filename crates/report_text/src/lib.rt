// The report: from the bytes of a text to the bytes of its outcome.
// It sees `report_input`, `decoder` and `format`. It promises the text that document 01, as the requests amend it,
// gives for every byte string, from the first byte of the lent array on, its old contents after it, and the text's
// length. The array has room for every outcome.
#![tactic(auto)]

ghost use Rattle.std.specs.Prelude.{◌≡◌, suc, ◌≤◌, length};
ghost use Rattle.calls.specs.Bounds.{most_positions, most_workspace};
ghost use Rattle.report_input.specs.Input.{block_of};
ghost use Rattle.report_input.specs.InputLaws.{Fit};
ghost use Rattle.format.specs.Wrote.{Wrote, Within};
ghost use Rattle.format.specs.Writing.{HasRoom, Appended};
ghost use Rattle.report_text.specs.Report.{report_room};
ghost use Rattle.report_text.specs.Report.{outcome_text, block_text, report};
ghost use Rattle.report_text.specs.Private.{output_values, OutputsLong, ending_of, heading_text};

use calls::{MOST_POSITIONS, MOST_WORKSPACE};
use decoder::Ending;
use format::Cursor;
use settings::Settings;

// The room that is enough for every output.
pub const REPORT_ROOM: usize = 32768;

// What the decoder wrote of a block.
#[derive(Clone, Copy)]
struct Outputs<'a> {
    soft: &'a [i16],
    mark: &'a [u8],
    coded_soft: &'a [i16],
    coded_mark: &'a [u8],
}

impl Outputs<'_> {
    // The values of a position.
    fn values(self, i: usize) -> [i32; 5]
        requires { (i ≤ most_positions) × OutputsLong (suc i) self }
        ensures { result ≡ output_values self.entry i }
    {
        [
            i as i32,
            self.soft[i] as i32,
            self.mark[i] as i32,
            self.coded_soft[i] as i32,
            self.coded_mark[i] as i32,
        ]
    }
}

// The first three lines of an outcome.
fn heading(text: &mut Cursor, ending: Ending)
    requires iterations_bound { ending.iterations ≤ 9999 }
    requires room { HasRoom text.old (heading_text (ending_of ending)) }
    ensures { Appended text.old (heading_text (ending_of ending)) text.new }
{
    text.copy(b"iterations reason\n");
    text.line(&[
        ending.iterations as i32,
        decoder::reason_number(ending.reason) as i32,
    ]);
    text.copy(b"position soft mark coded codedmark\n");
}

// An outcome: its ending, and the first n elements of the decoder's outputs.
fn outcome(text: &mut Cursor, n: usize, ending: Ending, outputs: Outputs)
    requires iterations_bound { ending.iterations ≤ 9999 }
    requires n_le_most_positions { (n ≤ most_positions) × OutputsLong n outputs }
    requires room { HasRoom text.old (outcome_text (ending_of ending) n (output_values outputs)) }
    ensures { Appended text.old
        (outcome_text (ending_of ending) n (output_values outputs.entry)) text.new }
{
    heading(text, ending);
    text.position_lines(
        n,
        |i|
            requires { (i ≤ most_positions) × OutputsLong (suc i) outputs }
            ensures { result ≡ output_values outputs.entry i }
        { outputs.values(i) },
    );
}

// The outcome of an accepted block, in a workspace with room for every block.
fn decoded(out: &mut [u8], settings: Settings, mask: &[u8], llr: &[i16], work: &mut [i16]) -> usize
    requires fit { Fit settings (block_of mask.now llr.now) }
    requires work_len { (length work.old ≡ most_workspace) × (report_room ≤ length out.old) }
    ensures wrote { Wrote out.old 0
        (block_text settings (block_of mask.now llr.now) work.old)
        out.new result }
    ensures upper_bound { result ≤ report_room }
{
    let mut soft = [0i16; MOST_POSITIONS];
    let mut mark = [0u8; MOST_POSITIONS];
    let mut coded_soft = [0i16; MOST_POSITIONS];
    let mut coded_mark = [0u8; MOST_POSITIONS];
    let answer = decoder::decode(
        settings,
        mask,
        llr,
        &mut soft,
        &mut mark,
        &mut coded_soft,
        &mut coded_mark,
        work,
    );
    match answer {
        Err(refusal) => format::refused(out, refusal),
        Ok(ending) => {
            let n = polar::power_of_two(settings.m);
            let outputs = Outputs {
                soft: &soft,
                mark: &mark,
                coded_soft: &coded_soft,
                coded_mark: &coded_mark,
            };
            let mut report = Cursor::new(out);
            outcome(&mut report, n, ending, outputs);
            report.count()
        }
    }
}

// The report of a text, in a slice with room for every output.
pub fn report_into(text: &[u8], out: &mut [u8]) -> usize
    requires { report_room ≤ length out.old }
    ensures wrote { Wrote out.old 0
        (report text.now) out.new result }
    ensures upper_bound { result ≤ report_room }
{
    let mut mask = [0u8; MOST_POSITIONS];
    let mut llr = [0i16; MOST_POSITIONS];
    match report_input::read(text, &mut mask, &mut llr) {
        Err(refusal) => format::refused(out, refusal),
        Ok(settings) => {
            let n = polar::power_of_two(settings.m);
            let mut work = [0i16; MOST_WORKSPACE];
            decoded(out, settings, &mask[..n], &llr[..n], &mut work)
        }
    }
}

// The report of a text: `&out[..report(text, &mut out)]`.
pub fn report(text: &[u8], out: &mut [u8; REPORT_ROOM]) -> usize
    ensures wrote { Wrote out.old 0 (report text.now) out.new result }
    ensures within { Within result out.new }
{
    report_into(text, out)
}
