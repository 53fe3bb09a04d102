// Coding twice, as a function: the coder, and the coder again on the block that it wrote.
// It sees the promises of `polar` alone. It promises the number and both blocks, for every mask; that the message comes
// back where every position is an information position is a law about them.
#![tactic(auto)]

ghost use Rattle.std.specs.Prelude.{◌≡◌, ◌^◌, leb, length};
ghost use Rattle.calls.specs.Numbers.{number_of, check, first_refusal};
ghost use Rattle.polar.specs.Code.{encode_number};
ghost use Rattle.twice.specs.Twice.{twice_number, twice_first, twice_second};

use calls::Refusal;
use polar::Code;

// Every test of both calls. It writes nothing.
fn refusal(
    code: Code,
    mask: &[u8],
    message: &[u8],
    first: usize,
    second: usize,
) -> Result<(), Refusal>
    ensures { number_of result
        ≡ first_refusal (encode_number code mask.now message.now first)
        (check (leb (2 ^ code.m) second) 7 0) }
{
    polar::encode_refusal(code, mask, message, first)?;
    if second < polar::power_of_two(code.m) {
        Err(Refusal::ShortSlice)
    } else {
        Ok(())
    }
}

// The message coded, in the first 2^m elements of the block, and the block coded, in those of the slice beside it.
pub fn encode_twice(
    code: Code,
    mask: &[u8],
    message: &[u8],
    block: &mut [u8],
    again: &mut [u8],
) -> Result<(), Refusal>
    ensures result_value { number_of result
        ≡ twice_number code mask.now message.now block.old again.old }
    ensures block_after { block.new
        ≡ twice_first code mask.now message.now block.old again.old }
    ensures again_after { again.new
        ≡ twice_second code mask.now message.now block.old again.old }
{
    refusal(code, mask, message, block.len(), again.len())?;
    polar::encode(code, mask, message, block)?;
    polar::encode(code, mask, block, again)
}
