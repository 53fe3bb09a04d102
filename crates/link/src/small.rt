// The decoder's small blocks: those that document 01 works by hand.
// Every slice that is lent to be written is one element longer than needed and held nines before, so each list ends in
// 9.
ghost use Rattle.std.specs.Prelude.{◌≤◌};

use crate::say;
use console::Spaced;
use settings::Settings;
use std::io;

// One call of the decoder: what it is handed, its answer, and the lent slices afterwards, N elements each of the
// outputs, and M of the workspace.
fn decode<const N: usize, const M: usize, R: Print>(
    rt: &R,
    name: &str,
    settings: Settings,
    mask: &[u8],
    llr: &[i16],
) -> io::Result<()>
    requires { (N ≤ 5) × (M ≤ 25) }
{
    let mut soft = [9; N];
    let mut mark = [9; N];
    let mut coded_soft = [9; N];
    let mut coded_mark = [9; N];
    let mut work = [9; M];
    print!(rt; "decode {name}")?;
    say::settings(rt, settings)?;
    print!(rt; " mask{} llr{}", Spaced(mask), Spaced(llr))?;
    let outcome = decoder::decode(
        settings,
        mask,
        llr,
        &mut soft,
        &mut mark,
        &mut coded_soft,
        &mut coded_mark,
        &mut work,
    );
    say::outcome(rt, outcome)?;
    print!(rt; " soft{} mark{}", Spaced(&soft), Spaced(&mark))?;
    print!(rt;
        " coded{} codedmark{}",
        Spaced(&coded_soft),
        Spaced(&coded_mark)
    )?;
    println!(rt; " work{}", Spaced(&work))
}

// The same with slices for two positions.
pub fn pair(
    rt: &impl Print,
    name: &str,
    settings: Settings,
    mask: &[u8],
    llr: &[i16],
) -> io::Result<()> {
    decode::<3, 9, _>(rt, name, settings, mask, llr)
}

// The settings of a block of two positions with the ceiling 31.
pub fn of(scale: u32, limit: u32, criterion: u32, operand: u32) -> Settings {
    Settings {
        m: 1,
        ceiling: 31,
        scale,
        limit,
        criterion,
        operand,
    }
}

// The mask and LLRs of P1, with settings of the caller's.
pub fn first(rt: &impl Print, name: &str, settings: Settings) -> io::Result<()> {
    pair(rt, name, settings, &[1, 0], &[5, -3])
}

// P1 to P5. The last two end undecided.
pub fn first_blocks(rt: &impl Print) -> io::Result<()> {
    first(rt, "P1", of(16, 10, 1, 0))?;
    pair(rt, "P2", of(16, 10, 1, 0), &[1, 0], &[-5, 3])?;
    first(rt, "P3", of(15, 10, 1, 0))?;
    pair(rt, "P4", of(16, 10, 1, 0), &[1, 0], &[3, -3])?;
    pair(rt, "P5", of(16, 10, 1, 0), &[0, 1], &[7, -31])
}

// P6 and P7: the least size, of every position and of information positions (2026-04), and steady marks.
pub fn other_criteria(rt: &impl Print) -> io::Result<()> {
    first(rt, "P6", of(16, 10, 2, 2))?;
    first(rt, "P6", of(16, 10, 2, 3))?;
    first(rt, "P6", of(16, 10, 4, 2))?;
    first(rt, "P6", of(16, 10, 4, 3))?;
    first(rt, "P7", of(16, 10, 3, 1))?;
    first(rt, "P7", of(16, 1, 3, 1))
}

// P8, of four positions.
pub fn four_positions(rt: &impl Print) -> io::Result<()> {
    let settings = Settings {
        m: 2,
        ..of(16, 10, 1, 0)
    };
    decode::<5, 25, _>(rt, "P8", settings, &[1, 1, 1, 0], &[1, 2, 3, 4])
}

// A mask and LLRs that are longer than needed: the rest is not read.
pub fn longer(rt: &impl Print) -> io::Result<()> {
    pair(rt, "accepted", of(16, 3, 0, 0), &[1, 0, 7], &[5, -3, 99])
}
