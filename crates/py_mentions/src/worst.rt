ghost use Rattle.std.specs.Prelude.{◌≡◌};
ghost use Rattle.py_mentions.specs.Worst.{rank, precedes, worse};

use rp_base::{Refused, Rule};

/// The place of a rule in their order: L1 to L6, P1 to P4, S1 to S12.
pub fn rank(rule: Rule) -> u8
    ensures { result ≡ rank rule }
{
    match rule {
        Rule::L1 => 1,
        Rule::L2 => 2,
        Rule::L3 => 3,
        Rule::L4 => 4,
        Rule::L5 => 5,
        Rule::L6 => 6,
        Rule::P1 => 7,
        Rule::P2 => 8,
        Rule::P3 => 9,
        Rule::P4 => 10,
        Rule::S1 => 11,
        Rule::S2 => 12,
        Rule::S3 => 13,
        Rule::S4 => 14,
        Rule::S5 => 15,
        Rule::S6 => 16,
        Rule::S7 => 17,
        Rule::S8 => 18,
        Rule::S9 => 19,
        Rule::S10 => 20,
        Rule::S11 => 21,
        Rule::S12 => 22,
        Rule::NotYet => 23,
    }
}

/// Whether `a` has the lesser line, or the same line and the lesser rule.
pub fn precedes(a: &Refused, b: &Refused) -> bool
    ensures { result ≡ precedes a.now b.now }
{
    a.line < b.line || (a.line == b.line && rank(a.rule) < rank(b.rule))
}

/// The worse of the worst so far and one more: that of lesser line, and then of lesser rule.
pub fn worse(worst: Option<Refused>, next: Refused) -> Refused
    ensures { result ≡ worse worst next }
{
    match worst {
        None => next,
        Some(refused) => {
            if precedes(&next, &refused) {
                next
            } else {
                refused
            }
        }
    }
}
