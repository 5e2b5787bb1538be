//! Fields as numbers.
ghost use Rattle.std.specs.Prelude.{◌≡◌, ◌<◌, ◌≤◌, ◌^◌, ◌≤ℤ◌, IfSome, IfOk};
ghost use Rattle.mi_input.specs.Numbers.{number_within, count_in, natural_in, number_in, whole_in};

use crate::faults::Reason;

/// The greatest number of digits.
const MAX_DIGITS: usize = 20;

// A number without a sign.
#[tactic(auto, unfolding(crate::specs::Numbers::natural_in))]
fn natural(field: &[u8]) -> Option<u128>
    ensures value { result ≡ natural_in field.now }
    ensures small { IfSome result (λ number. number < 10 ^ 20) }
{
    if field.is_empty() || field.len() > MAX_DIGITS {
        return None;
    }
    let mut value: u128 = 0;
    for byte in field {
        if !byte.is_ascii_digit() {
            return None;
        }
        value = value * 10 + u128::from(*byte - b'0');
    }
    Some(value)
}

/// A number with one sign or none.
#[tactic(auto, unfolding(crate::specs::Numbers::number_in))]
pub(crate) fn number(field: &[u8]) -> Option<i128>
    ensures { result ≡ number_in field.now }
{
    match field {
        [b'+', digits @ ..] => Some(natural(digits)? as i128),
        [b'-', digits @ ..] => Some(-(natural(digits)? as i128)),
        [_, ..] => Some(natural(field)? as i128),
        [] => None,
    }
}

// The number, if it lies within these bounds.
fn within(number: Option<i128>, least: i128, most: i128) -> Result<i128, Reason>
    ensures value { result ≡ number_within least most number }
    ensures bounds { IfOk result (λ number. (least ≤ℤ number) × (number ≤ℤ most)) }
{
    match number {
        None => Err(Reason::Number),
        Some(number) if number < least || number > most => Err(Reason::Range),
        Some(number) => Ok(number),
    }
}

/// The number in a field, within these bounds.
#[tactic(auto, unfolding(crate::specs::Numbers::whole_in))]
pub(crate) fn whole(field: &[u8], least: i64, most: i64) -> Result<i64, Reason>
    ensures value { result ≡ whole_in least most field.now }
    ensures bounds { IfOk result (λ number. (least ≤ℤ number) × (number ≤ℤ most)) }
{
    let number = within(number(field), i128::from(least), i128::from(most))?;
    Ok(number as i64)
}

/// The number in a field, within these bounds, which have no sign.
#[tactic(auto, unfolding(crate::specs::Numbers::count_in, crate::specs::Numbers::whole_in))]
pub fn count(field: &[u8], least: u64, most: u64) -> Result<u64, Reason>
    ensures value { result ≡ count_in least most field.now }
    ensures bounds { IfOk result (λ number. (least ≤ number) × (number ≤ most)) }
{
    let number = within(number(field), i128::from(least), i128::from(most))?;
    Ok(number as u64)
}
