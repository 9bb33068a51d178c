//! The least of the rules that are broken.

use d3d_judge::Rule;

/// The number of a rule.
fn number(rule: Rule) -> u32 {
    match rule {
        Rule::B1 => 1,
        Rule::B2 => 2,
        Rule::B3 => 3,
        Rule::B4 => 4,
        Rule::B5 => 5,
        Rule::B6 => 6,
        Rule::B7 => 7,
        Rule::B8 => 8,
        Rule::B9 => 9,
        Rule::B10 => 10,
        Rule::B11 => 11,
        Rule::B12 => 12,
        Rule::B13 => 13,
    }
}

/// The rule, where it is the least so far.
pub(crate) fn least(so_far: Option<Rule>, rule: Rule) -> Option<Rule> {
    match so_far {
        Some(other) => {
            if number(other) <= number(rule) {
                Some(other)
            } else {
                Some(rule)
            }
        }
        None => Some(rule),
    }
}
