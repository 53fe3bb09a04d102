// Writes numbers, lines of values, lines of positions, fixed texts and refusals as bytes into a lent slice.
// It sees `calls`. Each method of the cursor promises the bytes that the definitions of specs/ give, after those that
// are written, the old contents elsewhere, and a cursor after them; a refusal stands from the first byte of a slice on.
// All that they ask for is the room. `write!` would promise less: std says what is written where the answer is `Ok`,
// and rules out no `Err`.
#![tactic(auto)]

ghost use Rattle.std.specs.Prelude.{◌≡◌, cond, ℕ, List, ℤ, [], ◌∷◌, ◌++◌, ◌+◌, ◌<◌, ◌≤◌, length};
ghost use Rattle.calls.specs.Numbers.{refusal_number};
ghost use Rattle.format.specs.Decimal.{decimal, shown, line};
ghost use Rattle.format.specs.Texts.{position_lines, refusal_text};
ghost use Rattle.format.specs.Wrote.{Wrote};
ghost use Rattle.format.specs.Writing.{HasRoom, Appended};

use calls::Refusal;
use std::convert::AsSlice;

// The byte of a digit.
fn digit(n: u32) -> u8
    requires { n < 10 }
    ensures { result ≡ 48 + n }
{
    b'0' + n as u8
}

// n in decimal, from the first byte of a slice on, and how many bytes these are. (A cursor would be kept in memory, and
// each digit would wait for the position of the one before it.)
#[tactic(auto, using(crate::proofs::Rules::written))]
fn natural(out: &mut [u8], n: u32) -> usize
    requires { length (decimal n) ≤ length out.old }
    ensures { Wrote out.old 0 (decimal n) out.new result }
{
    if n < 10 {
        out[0] = digit(n);
        1
    } else {
        let end = natural(out, n / 10);
        out[end] = digit(n % 10);
        end + 1
    }
}

// The byte after a value: a space where more values follow, or the end of the line.
fn separator(more: bool) -> u8
    ensures { result ≡ cond more 32 10 }
{
    if more { b' ' } else { b'\n' }
}

// The bytes written so far, and where the next one goes.
#[derive(Drop)]
pub struct Cursor<'a> {
    pub out: &'a mut [u8],
    pub at: usize,
}

impl<'a> Cursor<'a> {
    // At the start of a slice.
    pub fn new(out: &'a mut [u8]) -> Self
        ensures same_reference { result.out.ghost_name ≡ out.entry.ghost_name }
        ensures starts { (result.out.now ≡ out.old) × (result.at ≡ 0) }
    {
        Cursor { out, at: 0 }
    }

    // How many bytes are written.
    pub fn count(&self) -> usize
        ensures { result ≡ self.now.at }
    {
        self.at
    }

    // A byte.
    fn byte(&mut self, b: u8)
        requires { HasRoom self.old (b ∷ []) }
        ensures { Appended self.old (b ∷ []) self.new }
    {
        self.out[self.at] = b;
        self.at += 1;
    }

    // n in decimal.
    pub fn natural(&mut self, n: u32)
        requires { HasRoom self.old (decimal n) }
        ensures { Appended self.old (decimal n) self.new }
    {
        self.at += natural(&mut self.out[self.at..], n);
    }

    // A whole number, with a minus before a negative one.
    #[tactic(auto, using(crate::proofs::Rules::numbers))]
    pub fn number(&mut self, z: i32)
        requires { HasRoom self.old (shown z) }
        ensures { Appended self.old (shown z) self.new }
    {
        if z < 0 {
            self.byte(b'-');
        }
        self.natural(z.unsigned_abs());
    }

    // A whole number and the byte after it.
    fn value(&mut self, z: i32, after: u8)
        requires { HasRoom self.old (shown z ++ (after ∷ [])) }
        ensures { Appended self.old (shown z ++ (after ∷ [])) self.new }
    {
        self.number(z);
        self.byte(after);
    }

    // A line of values.
    pub fn line(&mut self, zs: &[i32])
        requires { HasRoom self.old (line zs.now) }
        ensures { Appended self.old (line zs.now) self.new }
    {
        for (i, z) in zs.iter().enumerate() {
            self.value(*z, separator(i + 1 < zs.len()));
        }
    }

    // A line for each of the first n positions, of the values that the closure gives.
    pub fn position_lines<V: AsSlice<i32> + Drop, F: Fn(usize) -> V>(
        &mut self,
        n: usize,
        values_at: F,
    )
        ghost values: { ℕ → List ℤ }
        requires callable { (i : ℕ) → i < n → F.pre values_at i }
        requires values { (i : ℕ) (zs : V) → i < n → F.post values_at i zs → V.items zs ≡ values i }
        requires room { HasRoom self.old (position_lines values n 0) }
        ensures { Appended self.old (position_lines values n 0) self.new }
    {
        for i in 0..n {
            self.line(values_at(i).as_slice());
        }
    }

    // A fixed text. (`copy_from_slice` calls `memmove`, which the library for C may not.)
    #[tactic(auto, using(crate::proofs::Rules::copied))]
    pub fn copy(&mut self, text: &[u8])
        requires { HasRoom self.old text.now }
        ensures { Appended self.old text.now self.new }
    {
        let out = &mut self.out[self.at..];
        for (i, byte) in text.iter().enumerate() {
            out[i] = *byte;
        }
        self.at += text.len();
    }
}

// The text of a refusal, in place of the one that was asked for.
#[tactic(auto, using(crate::proofs::Rules::refusals), unfolding(crate::specs::Texts::refusal_text))]
pub fn refused(out: &mut [u8], refusal: Refusal) -> usize
    requires { length (refusal_text (refusal_number refusal)) ≤ length out.old }
    ensures { Wrote out.old 0 (refusal_text (refusal_number refusal)) out.new result }
{
    let number = refusal as i32;
    let mut cursor = Cursor::new(out);
    cursor.copy(b"refused\n");
    cursor.line(&[number]);
    cursor.count()
}
