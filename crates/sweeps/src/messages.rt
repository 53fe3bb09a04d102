// New messages, one at a time: the two formulas, on values and on places of the workspace.
ghost use Rattle.std.specs.Prelude.{◌≡◌, cond, ◌+◌, ◌≤◌, ◌+ℤ◌, eqb, nat_abs};
ghost use Rattle.std.specs.Int.Bits.{bit_and};
ghost use Rattle.message.specs.Message.{add, f};
ghost use Rattle.sweeps.specs.Private.{MessageIn, new_at, partnered_at, upper_at, lower_at, Readable};

use crate::get;
use message::MinSum;

// A choice of two values that are both at hand: no branch, so that loops over positions fill registers.
pub fn pick(first: bool, a: i16, b: i16) -> i16
    ensures { result ≡ cond first a b }
{
    if first { a } else { b }
}

// The sum of two messages as it is. It fits, since a rule's ceiling is in range: the clause alone needs the rule.
fn sum(rule: MinSum, x: i16, y: i16) -> i16
    requires { (nat_abs x ≤ rule.ceiling) × (nat_abs y ≤ rule.ceiling) }
    ensures { result ≡ x +ℤ y }
{
    x + y
}

// The new message of an upper position, from its own message and the two of its partner. Their sum need not be cut: f
// takes the smaller size, and its own message lies within the ceiling.
pub fn upper(rule: MinSum, own: i16, x: i16, y: i16) -> i16
    requires { (nat_abs own ≤ rule.ceiling) × (nat_abs x ≤ rule.ceiling) × (nat_abs y ≤ rule.ceiling) }
    ensures { result ≡ f rule own (add rule x y) }
{
    message::min_sum(rule, own, sum(rule, x, y))
}

// The same of a lower position.
pub fn lower(rule: MinSum, own: i16, x: i16, y: i16) -> i16
    requires { (nat_abs own ≤ rule.ceiling) × (nat_abs x ≤ rule.ceiling) × (nat_abs y ≤ rule.ceiling) }
    ensures { result ≡ add rule (f rule x y) own }
{
    message::add_cut(rule, message::min_sum(rule, x, y), own)
}

// The new message of an upper position p, from the rows that start at x and y.
pub fn upper_message(rule: MinSum, work: &[i16], p: usize, d: usize, x: usize, y: usize) -> i16
    requires readable { Readable rule.ceiling p d x y work.now }
    ensures { result ≡ upper_at rule d x y work.now p }
{
    upper(
        rule,
        get(work, x, p),
        get(work, x, p + d),
        get(work, y, p + d),
    )
}

// The new message of its partner, the lower position p + d.
pub fn lower_message(rule: MinSum, work: &[i16], p: usize, d: usize, x: usize, y: usize) -> i16
    requires readable { Readable rule.ceiling p d x y work.now }
    ensures { result ≡ lower_at rule d x y work.now p }
{
    lower(rule, get(work, x, p + d), get(work, x, p), get(work, y, p))
}

// The new message of a position, upper or lower, without a branch: of both its formulas, f is taken once, of the values
// that belong to it. The sum need not be cut.
fn combine(rule: MinSum, upper: bool, own: i16, sum: i16, x: i16, y: i16) -> i16
    requires { (nat_abs own ≤ rule.ceiling) × (nat_abs sum ≤ rule.ceiling + rule.ceiling)
        × (nat_abs x ≤ rule.ceiling) × (nat_abs y ≤ rule.ceiling) }
    ensures { result ≡ cond upper (f rule own sum) (add rule (f rule x y) own) }
{
    let part = message::min_sum(rule, pick(upper, own, x), pick(upper, sum, y));
    message::add_cut(rule, part, pick(upper, 0, own))
}

// The new message at position p, where the mask test says on which side it is. It reads both candidates of the partner,
// also where one of them lies beside its row, and drops the one that is not meant.
pub fn new_message(
    rule: MinSum,
    upper: bool,
    work: &[i16],
    p: usize,
    d: usize,
    x: usize,
    y: usize,
) -> i16
    requires upper_value { upper ≡ eqb (bit_and p d) 0 }
    requires readable { Readable rule.ceiling p d x y work.now }
    ensures { result ≡ new_at rule d x y work.now p }
{
    let sum = sum(rule, get(work, x, p + d), get(work, y, p + d));
    combine(
        rule,
        upper,
        get(work, x, p),
        sum,
        get(work, x - d, p),
        get(work, y - d, p),
    )
}

// The new message at position p, whose partner is at q.
pub fn partnered(
    rule: MinSum,
    upper: bool,
    work: &[i16],
    p: usize,
    q: usize,
    x: usize,
    y: usize,
) -> i16
    requires { MessageIn rule.ceiling (x + p) work.now × MessageIn rule.ceiling (x + q) work.now
        × MessageIn rule.ceiling (y + q) work.now }
    ensures { result ≡ partnered_at rule upper x y work.now p q }
{
    let sum = message::add_cut(rule, get(work, x, q), get(work, y, q));
    combine(
        rule,
        upper,
        get(work, x, p),
        sum,
        get(work, x, q),
        get(work, y, q),
    )
}
