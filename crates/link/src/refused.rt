// The decoder's refusals, an example of each. All lent slices keep their nines; where a higher number would apply as
// well, the lowest is given.
use crate::small;
use settings::Settings;
use std::io;

// P1 with other settings.
fn settings(rt: &impl Print, settings: Settings) -> io::Result<()> {
    small::first(rt, "refused", settings)
}

// Settings with a block length and a ceiling of the caller's.
fn sized(m: u32, ceiling: u32) -> Settings {
    Settings {
        m,
        ceiling,
        ..small::of(16, 10, 1, 0)
    }
}

// 1 to 6.
pub fn ranges(rt: &impl Print) -> io::Result<()> {
    settings(rt, sized(11, 31))?;
    settings(rt, sized(1, 2048))?;
    settings(rt, small::of(17, 10, 1, 0))?;
    settings(rt, small::of(16, 65, 1, 0))?;
    settings(rt, small::of(16, 10, 5, 32))?;
    settings(rt, small::of(16, 10, 2, 32))?;
    settings(rt, small::of(16, 10, 4, 32))
}

// P1 with another mask and other LLRs.
fn block(rt: &impl Print, mask: &[u8], llr: &[i16]) -> io::Result<()> {
    small::pair(rt, "refused", small::of(16, 10, 1, 0), mask, llr)
}

// 7, of the mask and of the LLRs; 8, 9 and 10.
pub fn blocks(rt: &impl Print) -> io::Result<()> {
    block(rt, &[2], &[5, -3])?;
    block(rt, &[1, 2], &[5])?;
    block(rt, &[2, 1], &[32, 0])?;
    block(rt, &[1, 1], &[32, 0])?;
    block(rt, &[1, 0], &[5, -32768])
}
