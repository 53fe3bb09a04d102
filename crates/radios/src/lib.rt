// A tally for each of 64 radios (request 2026-05), and a decode that counts its answer in the tally of its radio.
// It sees `calls`, `settings`, `decoder` and `tally`. It promises the decoder's answer and slices, all 64 tallies with
// that answer counted in the radio's own, and, where 16 or 15 refuses the call, that nothing has changed.
#![tactic(auto)]

ghost use Rattle.std.specs.Prelude.{◌≡◌, ◌<◌, ltb, set};
ghost use Rattle.settings.specs.Slices.{slices};
ghost use Rattle.radios.specs.Radios.{radio_count, tally_of, RadioDecode};
ghost use Rattle.radios.specs.Runs.{no_blocks};

use calls::Refusal;
use settings::Settings;
use tally::{Tallied, Tally};

// How many radios there are, numbered from 0.
pub const RADIOS: usize = 64;

// The tally of each radio, at its number.
#[derive(Clone, Copy)]
pub struct Radios {
    pub tallies: [Tally; RADIOS],
}

// A radio and its tally.
#[derive(Clone, Copy, Default)]
pub struct Entry {
    pub radio: u32,
    pub tally: Tally,
}

// Whether there is such a radio; 16 where there isn't.
pub fn is_radio(radio: u32) -> bool
    ensures { result ≡ ltb radio radio_count }
{
    radio < RADIOS as u32
}

impl Radios {
    // Five zeros for each radio.
    pub fn new() -> Radios
        ensures { result.tallies ≡ no_blocks }
    {
        Radios {
            tallies: [Tally::new(); RADIOS],
        }
    }

    fn tally_of(self, radio: usize) -> Tally
        requires { radio < radio_count }
        ensures { result ≡ tally_of radio self.tallies }
    {
        self.tallies[radio]
    }

    // The same tallies, with another for one radio.
    fn with_tally(self, radio: usize, tally: Tally) -> Radios
        requires { radio < radio_count }
        ensures { result.tallies ≡ set self.tallies radio tally }
    {
        let mut radios = self;
        radios.tallies[radio] = tally;
        radios
    }

    // A decode whose answer is counted in the tally of its radio. 16 is tested first, then 15, which looks at that
    // tally alone; after either all tallies come back unchanged, and nothing is written.
    pub fn decode(
        self,
        radio: u32,
        settings: Settings,
        mask: &[u8],
        llr: &[i16],
        soft: &mut [i16],
        mark: &mut [u8],
        coded_soft: &mut [i16],
        coded_mark: &mut [u8],
        work: &mut [i16],
    ) -> Tallied<Radios>
        ensures { RadioDecode self radio settings mask.now llr.now
            (slices soft.old mark.old
            coded_soft.old coded_mark.old work.old)
            (slices soft.new mark.new
            coded_soft.new coded_mark.new work.new)
            result }
    {
        if !is_radio(radio) {
            return Tallied {
                tally: self,
                outcome: Err(Refusal::RadioNumber),
            };
        }
        let at = radio as usize;
        let Tallied { tally, outcome } = self.tally_of(at).decode(
            settings, mask, llr, soft, mark, coded_soft, coded_mark, work,
        );
        Tallied {
            tally: self.with_tally(at, tally),
            outcome,
        }
    }
}
