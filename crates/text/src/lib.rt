// Lines, fields and decimal numbers in a text of bytes.
#![tactic(auto)]

ghost use Rattle.std.specs.Prelude.{◌≡◌, ◌^◌, ◌<◌, ◌≤◌, min, length, IfSome};
ghost use Rattle.text.specs.declared.Unread.TheVariants.{Memory};
ghost use Rattle.text.specs.Fields.{before, after, digits, any_decimal, decimal, numbers_on};
ghost use Rattle.text.specs.Answers.{Told};

use std::alloc::{AllocError, AllocFailed, Global};

// `number` reads none of more digits.
const MOST_DIGITS: usize = 18;

// What stands before and after the first `mark`: all and nothing where there is none.
pub fn cut(text: &[u8], mark: u8) -> (&[u8], &[u8])
    ensures front { result.0.now ≡ before mark text.now }
    ensures back { result.1.now ≡ after mark text.now }
{
    match text.iter().position(|b| *b == mark) {
        Some(i) => (&text[..i], &text[i + 1..]),
        None => (text, &[]),
    }
}

// A decimal number below 2 ^ 64, of one digit or more, and nothing else.
#[tactic(auto, using(crate::proofs::Decimals::more, crate::proofs::Decimals::too_large))]
pub fn any_number(text: &[u8]) -> Option<u64>
    ensures { result ≡ any_decimal text.now }
{
    if text.is_empty() {
        return None;
    }
    let mut value: u64 = 0;
    for b in text {
        if !b.is_ascii_digit() {
            return None;
        }
        value = value.checked_mul(10)?.checked_add((*b - b'0') as u64)?;
    }
    Some(value)
}

// What up to eighteen digits write, if the text is no more. None of these numbers overflows, and none of the digits
// is tested for that: a line of many numbers is read a third sooner than by `any_number`.
#[tactic(auto, using(crate::proofs::Decimals::more))]
fn few_digits(text: &[u8]) -> Option<u64>
    requires { length text.now ≤ 18 }
    ensures value { result ≡ digits 0 text.now }
    ensures bound { IfSome result (λ n. n < 10 ^ length text.now) }
{
    let mut sum: u64 = 0;
    for b in text {
        if !b.is_ascii_digit() {
            return None;
        }
        sum = sum * 10 + (*b - b'0') as u64;
    }
    Some(sum)
}

// A decimal number of one to `limit` digits, and nothing else; none of more than eighteen digits is read.
pub fn number(text: &[u8], limit: usize) -> Option<u64>
    ensures value { result ≡ decimal limit text.now }
    ensures bound { IfSome result (λ n. n < 10 ^ min limit 18) }
{
    if text.len() > limit.min(MOST_DIGITS) {
        return None;
    }
    if text.is_empty() {
        return None;
    }
    few_digits(text)
}

// Why a line's numbers were not read: the first field, from 1, that is no number, or want of memory.
#[derive(Clone, Copy, Debug, PartialEq, Eq)]
pub enum Unread {
    Field(usize),
    Memory,
}

impl From<AllocError> for Unread {
    ghost from_gives = { λ _ r. r ≡ Memory };

    fn from(_e: AllocError) -> Unread {
        Unread::Memory
    }
}

impl<T: Drop> From<AllocFailed<T>> for Unread {
    ghost from_gives = { λ _ r. r ≡ Memory };

    fn from(_e: AllocFailed<T>) -> Unread {
        Unread::Memory
    }
}

// The numbers on a line, each of up to nine digits, one space apart; none on an empty line.
pub fn numbers(heap: Global, line: &[u8]) -> Result<Vec<u32>, Unread>
    ensures { Told (numbers_on line.now) result }
{
    let mut sofar = Vec::new(heap);
    if line.is_empty() {
        return Ok(sofar);
    }
    for field in line.split(|b| *b == b' ') {
        let place = sofar.len() + 1;
        let n = number(field, 9).ok_or(Unread::Field(place))?;
        sofar.push(n as u32)?;
    }
    Ok(sofar)
}
