// A dispatcher's list of tallies, one for each radio that is listed (request 2026-05), read from a text of bytes.
// It sees `calls`, `tally`, `radios` and `scan`. It promises the meaning that specs/ gives the text, for every byte
// string: all 64 tallies, with five zeros for a radio that is not listed, or the number of a refusal.
#![tactic(auto)]

ghost use Rattle.std.specs.Prelude.{◌≡◌, ◌<◌, ◌≤◌, IfOk};
ghost use Rattle.radios.specs.Radios.{radio_count};
ghost use Rattle.radios.specs.Runs.{no_blocks};
ghost use Rattle.scan.specs.Answers.{reading_of};
ghost use Rattle.radio_list.specs.RadioList.{radio_line, checked_line, lines_from, meaning, ListRead};
ghost use Rattle.radio_list.specs.Private.{checked_of, listed_of};

use calls::Refusal;
use radios::{Entry, Radios};
use tally::{MOST_BLOCKS, Tally};

// The most bytes of an accepted list.
pub const LONGEST_LIST: usize = 32768;

// The tallies of all radios, five zeros each after a refusal.
#[derive(Clone, Copy)]
pub struct RadioList {
    pub radios: Radios,
    pub answer: Result<(), Refusal>,
}

// The six numbers of a line.
#[tactic(auto, unfolding(crate::specs::RadioList::radio_line))]
fn read_line(text: &[u8]) -> Option<(Entry, &[u8])>
    ensures { radio_line text.now ≡ reading_of result }
{
    let (radio, text) = scan::read_item(text, 5)?;
    let (blocks, text) = scan::read_item(text, 4)?;
    let (by_criterion, text) = scan::read_item(text, 3)?;
    let (by_limit, text) = scan::read_item(text, 2)?;
    let (refusals, text) = scan::read_item(text, 1)?;
    let (iterations, text) = scan::read_item(text, 0)?;
    let tally = Tally {
        blocks,
        by_criterion,
        by_limit,
        refusals,
        iterations,
    };
    Some((Entry { radio, tally }, text))
}

// A line where the radio must be `least` or above.
#[tactic(auto, unfolding(crate::specs::RadioList::checked_line))]
fn check_line(text: &[u8], least: u32) -> Result<(Entry, &[u8]), Refusal>
    ensures value { checked_line least text.now ≡ checked_of result }
    ensures within { IfOk result (λ p. (least ≤ p.0.radio) × (p.0.radio < radio_count)) }
{
    let (entry, rest) = read_line(text).ok_or(Refusal::MalformedText)?;
    if !radios::is_radio(entry.radio) {
        return Err(Refusal::RadioNumber);
    }
    if entry.radio < least {
        return Err(Refusal::MalformedText);
    }
    if MOST_BLOCKS < entry.tally.blocks || !entry.tally.consistent() {
        return Err(Refusal::UnusableTally);
    }
    Ok((entry, rest))
}

// The lines after the first. As radios rise from line to line, 64 lines at most pass.
#[tactic(auto, using(crate::proofs::Rules::lines))]
fn read_lines(text: &[u8]) -> Result<Radios, Refusal>
    ensures { lines_from 0 no_blocks text.now ≡ listed_of result }
{
    let mut radios = Radios::new();
    let mut least = 0;
    let mut rest = text;
    while !rest.is_empty() {
        let (entry, after) = check_line(rest, least)?;
        radios.tallies[entry.radio as usize] = entry.tally;
        least = entry.radio + 1;
        rest = after;
    }
    Ok(radios)
}

// The tallies that a text lists.
#[tactic(auto, unfolding(crate::specs::RadioList::meaning))]
fn listed(text: &[u8]) -> Result<Radios, Refusal>
    ensures { meaning text.now ≡ listed_of result }
{
    if LONGEST_LIST < text.len() {
        return Err(Refusal::MalformedText);
    }
    let names = b"radio blocks criterion limit refusals iterations\n";
    let lines = scan::literal(text, names).ok_or(Refusal::MalformedText)?;
    read_lines(lines)
}

// The tallies of a text.
pub fn read(text: &[u8]) -> RadioList
    ensures { ListRead (meaning text.now) result }
{
    match listed(text) {
        Ok(radios) => RadioList {
            radios,
            answer: Ok(()),
        },
        Err(refusal) => RadioList {
            radios: Radios::new(),
            answer: Err(refusal),
        },
    }
}
