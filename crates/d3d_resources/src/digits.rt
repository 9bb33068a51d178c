//! The binary digits of a number.

ghost use Rattle.std.specs.Prelude.{◌≡◌, ◌≤◌};
ghost use Rattle.d3d_resources.specs.Digits.{binary_digits as count_of_digits, IsDigits};

/// How many binary digits a number has, without leading zeros: 0 has none.
pub(crate) fn binary_digits(n: u32) -> u32
    ensures value { result ≡ count_of_digits n }
    ensures least { IsDigits n result }
    ensures bound { result ≤ 32 }
{
    if n == 0 { 0 } else { n.ilog2() + 1 }
}
