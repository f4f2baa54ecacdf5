//! Numbers.

ghost use Rattle.std.specs.Prelude.{◌≡◌, ◌<◌, ◌≤◌, ◌∷◌, true, length, Some, None, IfOk, IfErr, IfSome, SomeIff, ◌*◌, ◌+◌, ◌^◌, ◌==◌, ◌&&◌, not};
ghost use Rattle.std.specs.Char.{is_ascii_digit, digit_value};
ghost use Rattle.std.specs.List.{prefix_len};
ghost use Rattle.std.specs.Str.{chars};
ghost use Rattle.pg_text.specs.Reading.{numeral_at as numeral_read, number_at as number_read};
ghost use Rattle.pg_text.specs.Reading.{integer_at as integer_read};
ghost use Rattle.pg_text.specs.declared.fault.TextFault.TheVariants.{BadText};

use crate::fault::TextFault;
use crate::reading::Read;
use crate::reading::fronts::{after, first_of};

// The digit that comes first, and what follows it.
fn digit_of(text: &str) -> Option<(char, &str)>
    ensures some { IfSome result (λ read. (chars text.now ≡ read.0 ∷ chars read.1.now) × (is_ascii_digit read.0 ≡ true)) }
    ensures none { result ≡ None → prefix_len is_ascii_digit (chars text.now) ≡ 0 }
{
    match first_of(text) {
        Some((character, rest)) if character.is_ascii_digit() => Some((character, rest)),
        _ => None,
    }
}

// Whether this is a zero that other digits follow.
fn zero_leads(first: char, rest: &str) -> bool
    ensures { result ≡ ((first == 48) && not (prefix_len is_ascii_digit (chars rest.now) == 0)) }
{
    first == '0' && digit_of(rest).is_some()
}

// The number with one digit more, where it fits.
fn one_longer(value: u64, digit: char) -> Option<u64>
    requires { digit_value digit < 10 }
    ensures { SomeIff result (value * 10 + digit_value digit < 2 ^ 64) (value * 10 + digit_value digit) }
{
    value
        .checked_mul(10)?
        .checked_add(digit.to_digit(10)? as u64)
}

// The number with one digit more, where it is at most `most`.
fn one_more(value: u64, digit: char, most: u64) -> Result<u64, TextFault>
    requires { digit_value digit < 10 }
    ensures value { IfOk result (λ number. number ≡ value * 10 + digit_value digit) }
    ensures few { IfOk result (λ number. number ≤ most) }
    ensures err { IfErr result (λ fault. (fault ≡ BadText) × (most < value * 10 + digit_value digit)) }
{
    match one_longer(value, digit) {
        Some(number) if number <= most => Ok(number),
        _ => Err(TextFault::BadText),
    }
}

// A number of at most `most` in decimal, without leading zeros, and what follows it.
#[tactic(auto, unfolding(crate::specs::Reading::numeral_at))]
pub fn numeral_at(text: &str, most: u64) -> Read<'_, u64>
    ensures ok { IfOk result (λ read. numeral_read most (chars text.now) ≡ Some (read.0, chars read.1.now)) }
    ensures few { IfOk result (λ read. read.0 ≤ most) }
    ensures err { IfErr result (λ fault. (fault ≡ BadText) × (numeral_read most (chars text.now) ≡ None)) }
    ensures shorter { IfOk result (λ read. length (chars read.1.now) < length (chars text.now)) }
{
    let Some((first, follows)) = digit_of(text) else {
        return Err(TextFault::BadText);
    };
    if zero_leads(first, follows) {
        return Err(TextFault::BadText);
    }
    let mut value = one_more(0, first, most)?;
    let mut rest = follows;
    while let Some((digit, more)) = digit_of(rest) {
        value = one_more(value, digit, most)?;
        rest = more;
    }
    Ok((value, rest))
}

// A number of 32 bits.
pub fn number_at(text: &str) -> Read<'_, u32>
    ensures ok { IfOk result (λ read. number_read (chars text.now) ≡ Some (read.0, chars read.1.now)) }
    ensures err { IfErr result (λ fault. (fault ≡ BadText) × (number_read (chars text.now) ≡ None)) }
    ensures shorter { IfOk result (λ read. length (chars read.1.now) < length (chars text.now)) }
{
    let (value, rest) = numeral_at(text, u32::MAX as u64)?;
    Ok((value as u32, rest))
}

// An integer of 64 bits, with a minus where it is below 0.
#[tactic(auto, unfolding(crate::specs::Reading::integer_at))]
pub fn integer_at(text: &str) -> Read<'_, i64>
    ensures ok { IfOk result (λ read. integer_read (chars text.now) ≡ Some (read.0, chars read.1.now)) }
    ensures err { IfErr result (λ fault. (fault ≡ BadText) × (integer_read (chars text.now) ≡ None)) }
    ensures shorter { IfOk result (λ read. length (chars read.1.now) < length (chars text.now)) }
{
    match after(text, '-') {
        Some(digits) => {
            let (magnitude, rest) = numeral_at(digits, 1 << 63)?;
            if magnitude == 0 {
                return Err(TextFault::BadText);
            }
            Ok((-((magnitude - 1) as i64) - 1, rest))
        }
        None => {
            let (value, rest) = numeral_at(text, i64::MAX as u64)?;
            Ok((value as i64, rest))
        }
    }
}
