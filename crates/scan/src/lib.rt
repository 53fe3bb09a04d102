// Reads numbers, lines of values and fixed texts from the front of a text of bytes.
// It sees `calls` for its definitions. It promises that each reading finds what the definitions of specs/ find, and the
// text after it.
#![tactic(auto)]

ghost use Rattle.std.specs.Prelude.{◌≡◌, ◌≤◌, length, pos};
ghost use Rattle.calls.specs.LentMemory.{written_over};
ghost use Rattle.calls.specs.Signs.{flipped};
ghost use Rattle.scan.specs.Reading.{found, bind};
ghost use Rattle.scan.specs.Numbers.{digits, natural, number};
ghost use Rattle.scan.specs.Lines.{spaces, separator, line, item, literal};
ghost use Rattle.scan.specs.Answers.{read_to, reading_of};
ghost use Rattle.scan.specs.Stored.{values_stored};

// The most digits of a value, and of a count.
const VALUE_DIGITS: u32 = 6;

const COUNT_DIGITS: u32 = 9;

// The number that the digits at the front write, of which it reads `most` at most.
#[tactic(auto, using(crate::proofs::Rules::number))]
fn digits(text: &[u8], most: u32) -> (u32, &[u8])
    requires { most ≤ 9 }
    ensures { digits most 0 text.now ≡ found result.0 result.1.now }
{
    let mut value = 0;
    let mut rest = text;
    for _ in 0..most {
        let [digit @ b'0'..=b'9', after @ ..] = rest else {
            break;
        };
        value = 10 * value + u32::from(*digit - b'0');
        rest = after;
    }
    (value, rest)
}

// One to `most` digits.
#[tactic(auto, unfolding(crate::specs::Numbers::natural))]
fn natural(text: &[u8], most: u32) -> Option<(u32, &[u8])>
    requires { most ≤ 9 }
    ensures { natural most text.now ≡ reading_of result }
{
    match text {
        [b'0'..=b'9', ..] => Some(digits(text, most)),
        _ => None,
    }
}

// The digits of a value, with the sign that stood before them.
#[tactic(auto, using(crate::proofs::Rules::signed))]
fn signed_natural(text: &[u8], negative: bool) -> Option<(i32, &[u8])>
    ensures { bind (natural 6 text.now) (λ n s. found (flipped negative (pos n)) s) ≡ reading_of result }
{
    let (size, rest) = natural(text, VALUE_DIGITS)?;
    let value = size as i32;
    Some((if negative { -value } else { value }, rest))
}

// One value.
#[tactic(auto, unfolding(crate::specs::Numbers::number))]
pub fn number(text: &[u8]) -> Option<(i32, &[u8])>
    ensures { number text.now ≡ reading_of result }
{
    match text {
        [b'-', size @ ..] => signed_natural(size, true),
        _ => signed_natural(text, false),
    }
}

// The text after the spaces at the front.
#[tactic(auto, unfolding(crate::specs::Lines::spaces))]
fn spaces(text: &[u8]) -> &[u8]
    ensures { spaces text.now ≡ result.now }
{
    let mut rest = text;
    while let [b' ', after @ ..] = rest {
        rest = after;
    }
    rest
}

// What stands after a value with `more` values to come in its line.
#[tactic(auto, unfolding(crate::specs::Lines::separator))]
fn separator(text: &[u8], more: usize) -> Option<&[u8]>
    ensures { separator more text.now ≡ read_to tt result }
{
    match text {
        [b'\n', rest @ ..] if more == 0 => Some(rest),
        [b' ', ..] if more > 0 => Some(spaces(text)),
        _ => None,
    }
}

// A line of values, one for each element of a slice; those read before a fault are stored too. Inlined, so that the
// loop is as long as the array that its caller lends.
#[tactic(auto, using(crate::proofs::Rules::lines))]
#[inline(always)]
pub fn line<'a>(text: &'a [u8], values: &mut [i32]) -> Option<&'a [u8]>
    ensures text_value { line (length values.old) text.now ≡ read_to values.new result }
    ensures values_after { values.new ≡ written_over (values_stored (length values.old) text.now) values.old }
{
    let count = values.len();
    let mut rest = text;
    for (i, value) in values.iter_mut().enumerate() {
        let (read, after) = number(rest)?;
        rest = separator(after, count - 1 - i)?;
        *value = read;
    }
    Some(rest)
}

// A count of a line of counts with `more` to come after it.
#[tactic(auto, unfolding(crate::specs::Lines::item))]
pub fn read_item(text: &[u8], more: usize) -> Option<(u32, &[u8])>
    ensures { item more text.now ≡ reading_of result }
{
    let (count, rest) = natural(text, COUNT_DIGITS)?;
    Some((count, separator(rest, more)?))
}

// A fixed text, byte for byte.
#[tactic(auto, using(crate::proofs::Rules::fixed))]
pub fn literal<'a>(text: &'a [u8], name: &[u8]) -> Option<&'a [u8]>
    ensures { literal name.now text.now ≡ read_to tt result }
{
    text.strip_prefix(name)
}
