//! The names of passes.
ghost use Rattle.std.specs.Prelude.{◌≡◌};
ghost use Rattle.std.specs.List.{list_all};
ghost use Rattle.std.specs.Char.{is_ascii_digit};
ghost use Rattle.cc_plan.specs.PlanShape.{is_pass_number, numbered, pass_of};

use cc_model::{Pass, is_within};

/// The pass of a name: `s` and a number, or `r` and a number.
pub fn pass(name: &[u8]) -> Option<Pass>
    ensures { result ≡ pass_of name.now }
{
    match name {
        [] => None,
        [b's', digits @ ..] => Some(Pass::Sender(numbered(digits)?)),
        [b'r', digits @ ..] => Some(Pass::Receiver(numbered(digits)?)),
        [_, ..] => None,
    }
}

/// The number of a pass: one to ten digits of which the first isn't 0. One that no 32 bits hold is read as the greatest
/// that they hold, which is no pass of any plan.
fn numbered(digits: &[u8]) -> Option<u32>
    ensures { result ≡ numbered digits.now }
{
    if !is_pass_number(digits) {
        return None;
    }
    let mut n = 0u32;
    for digit in digits {
        n = n
            .saturating_mul(10)
            .saturating_add(u32::from(digit.saturating_sub(b'0')));
    }
    Some(n)
}

fn is_pass_number(digits: &[u8]) -> bool
    ensures { result ≡ is_pass_number digits.now }
{
    is_within(digits.len() as u64, 1, 10) && digits[0] != b'0' && are_digits(digits)
}

fn are_digits(bytes: &[u8]) -> bool
    ensures { result ≡ list_all is_ascii_digit bytes.now }
{
    bytes.iter().all(u8::is_ascii_digit)
}
