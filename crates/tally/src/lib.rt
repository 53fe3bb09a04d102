// A tally of the decoder's endings, and a decode that counts its own.
// It sees `calls`, `settings` and `decoder`. It promises the decoder's answer and slices, the tally with that answer
// counted, and, where 15 refuses the tally, that nothing has changed.
#![tactic(auto)]

ghost use Rattle.std.specs.Prelude.{◌≡◌};
ghost use Rattle.calls.specs.Numbers.{number_of};
ghost use Rattle.decoder.specs.Decoder.{result_of};
ghost use Rattle.settings.specs.Slices.{slices};
ghost use Rattle.tally.specs.Tally.{consistent, tally_number, counted, TalliedDecode};
ghost use Rattle.tally.specs.Runs.{none};
ghost use Rattle.tally.specs.Private.{single};
ghost use Rattle.decoder.specs.ResultLaws.{DecoderAnswer};

use calls::Refusal;
use decoder::{Ending, Reason};
use settings::Settings;
use std::ops::Add;

// With so many blocks a tally is full and takes no more; its own test allows so many iterations for each ending.
pub const MOST_BLOCKS: u32 = 1000000;

const MOST_ITERATIONS: u64 = 200;

// Blocks, endings by each reason, refusals and iterations so far.
#[derive(Clone, Copy, Default)]
pub struct Tally {
    pub blocks: u32,
    pub by_criterion: u32,
    pub by_limit: u32,
    pub refusals: u32,
    pub iterations: u32,
}

// What a call that counts its answer hands back: the tally (for a call for a radio the tallies of all) and the answer.
#[derive(Clone, Copy)]
pub struct Tallied<T> {
    pub tally: T,
    pub outcome: Result<Ending, Refusal>,
}

// Number by number, of two tallies that no call refuses.
impl Add for Tally {
    ghost use Rattle.std.specs.Prelude.{◌≡◌};
    ghost use Rattle.tally.specs.Runs.{plus};
    ghost use Rattle.tally.specs.TallyLaws.{Usable};

    type Output = Tally;

    ghost can_add = { λ t u. Usable t × Usable u };

    ghost add_gives = { λ t u sum. sum ≡ plus t u };

    fn add(self, other: Tally) -> Tally {
        Tally {
            blocks: self.blocks + other.blocks,
            by_criterion: self.by_criterion + other.by_criterion,
            by_limit: self.by_limit + other.by_limit,
            refusals: self.refusals + other.refusals,
            iterations: self.iterations + other.iterations,
        }
    }
}

impl Tally {
    // Five zeros.
    pub fn new() -> Tally
        ensures { result ≡ none }
    {
        Tally::default()
    }

    // Whether its numbers can be counts. At 64 bits no sum of its fields wraps, whatever they hold.
    pub fn consistent(self) -> bool
        ensures { result ≡ consistent self }
    {
        let blocks = self.blocks as u64;
        let endings = self.by_criterion as u64 + self.by_limit as u64;
        let refusals = self.refusals as u64;
        let iterations = self.iterations as u64;
        blocks == endings + refusals && (endings..=MOST_ITERATIONS * endings).contains(&iterations)
    }

    // 15 where the tally is refused.
    fn refusal(self) -> Result<(), Refusal>
        ensures { number_of result ≡ tally_number self }
    {
        if MOST_BLOCKS <= self.blocks || !self.consistent() {
            return Err(Refusal::UnusableTally);
        }
        Ok(())
    }

    // The tally of one block. A refusal has no iterations.
    fn single(outcome: Result<Ending, Refusal>) -> Tally
        ensures { result ≡ single (result_of outcome) }
    {
        match outcome {
            Err(_) => Tally {
                blocks: 1,
                refusals: 1,
                ..Tally::new()
            },
            Ok(Ending { iterations, reason }) => {
                let ended = Tally {
                    blocks: 1,
                    iterations,
                    ..Tally::new()
                };
                match reason {
                    Reason::Criterion => Tally {
                        by_criterion: 1,
                        ..ended
                    },
                    Reason::Limit => Tally {
                        by_limit: 1,
                        ..ended
                    },
                }
            }
        }
    }

    // The tally with one answer of the decoder counted.
    fn counted(self, outcome: Result<Ending, Refusal>) -> Tally
        requires { (tally_number self ≡ 0) × DecoderAnswer (result_of outcome) }
        ensures { result ≡ counted self (result_of outcome) }
    {
        self + Tally::single(outcome)
    }

    // A decode whose answer is counted. 15 is tested before everything; the tally then comes back unchanged, and
    // nothing is written.
    pub fn decode(
        self,
        settings: Settings,
        mask: &[u8],
        llr: &[i16],
        soft: &mut [i16],
        mark: &mut [u8],
        coded_soft: &mut [i16],
        coded_mark: &mut [u8],
        work: &mut [i16],
    ) -> Tallied<Tally>
        ensures { TalliedDecode self settings mask.now llr.now
            (slices soft.old mark.old
            coded_soft.old coded_mark.old work.old)
            (slices soft.new mark.new
            coded_soft.new coded_mark.new work.new)
            result }
    {
        match self.refusal() {
            Err(refusal) => Tallied {
                tally: self,
                outcome: Err(refusal),
            },
            Ok(()) => {
                let outcome = decoder::decode(
                    settings, mask, llr, soft, mark, coded_soft, coded_mark, work,
                );
                let tally = self.counted(outcome);
                Tallied { tally, outcome }
            }
        }
    }
}
