// The arithmetic of messages: scaled min-sum and the cut sum on signed 16-bit numbers of size at most the ceiling.
// It sees `calls` alone. It promises document 01's f and its sum, cut after the single addition. Its functions are
// offered to the crates above. Whoever makes a `MinSum` shows that ceiling and scale are in range.
#![tactic(auto)]

ghost use Rattle.std.specs.Prelude.{◌≡◌, ◌+◌, ◌*◌, ◌/◌, ◌≤◌, pos, nat_abs};
ghost use Rattle.calls.specs.Bounds.{largest_ceiling, largest_scale};
ghost use Rattle.calls.specs.Signs.{flipped};
ghost use Rattle.message.specs.Message.{add, f};

use std::marker::Model;

// The settings of the message arithmetic: the ceiling C and the scale k, both in range. A later setting of f joins them
// here. In clauses and definitions it is the record `Rule`, whose numbers may be any: a law that needs the range says
// so.
#[derive(Clone, Copy)]
pub struct MinSum {
    pub ceiling: u16,
    pub scale: u16,
}

impl Model for MinSum {
    ghost use Rattle.message.specs.Rule.{Rule, RuleInRange};

    ghost Value = { Rule };

    ghost view = { λ rule. record { ceiling = rule.ceiling; scale = rule.scale } };

    ghost invariant = { λ rule. RuleInRange record { ceiling = rule.ceiling; scale = rule.scale } };

    ghost inverse = { λ rule. record { ceiling = rule.ceiling; scale = rule.scale } };
}

// The sum of two messages, cut to the range from -C to C: from above, then from below. (`clamp` tests the bounds in the
// other order, and of two that it does not know the compiler then makes comparisons and masks.)
pub fn add_cut(rule: MinSum, a: i16, b: i16) -> i16
    requires { (nat_abs a ≤ rule.ceiling) × (nat_abs b ≤ rule.ceiling) }
    ensures { result ≡ add rule a b }
{
    let ceiling = rule.ceiling as i16;
    (a + b).min(ceiling).max(-ceiling)
}

// A size with its sign given back.
fn with_sign(negative: bool, size: i16) -> i16
    requires { nat_abs size ≤ 32767 }
    ensures { result ≡ flipped negative size }
{
    if negative { -size } else { size }
}

// A size scaled, and its sign given back afterwards. Of a size the shift by 4 places is the quotient by 16, cut down;
// of a negative product it would be rounded down, -3 of -45.
fn scaled(scale: u16, negative: bool, size: u16) -> i16
    requires { (scale ≤ largest_scale) × (size ≤ largest_ceiling) }
    ensures { result ≡ flipped negative (pos (scale * size / 16)) }
{
    let product = (scale * size) as i16;
    with_sign(negative, product >> 4)
}

// f of a message, and of another or a sum of two that is not cut: f takes the smaller size, so the cut changes nothing
// (`f-sum` of MessageLaws). The sizes are compared as signed numbers: of 16 bits, SSE2 has a minimum of those alone. Of
// two sizes that the compiler knows to be 0 or more, as `abs` gives them, it compares unsigned ones; `unsigned_abs` may
// be 32768 for all that it knows, which is below 0 as an `i16`.
pub fn min_sum(rule: MinSum, a: i16, b: i16) -> i16
    requires { (nat_abs a ≤ rule.ceiling) × (nat_abs b ≤ rule.ceiling + rule.ceiling) }
    ensures value { result ≡ f rule a b }
    ensures size { nat_abs result ≤ nat_abs a }
{
    let negative = (a < 0) != (b < 0);
    let size = (a.unsigned_abs() as i16).min(b.unsigned_abs() as i16);
    scaled(rule.scale, negative, size as u16)
}
