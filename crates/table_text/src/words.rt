// Words and numbers of a question.
ghost use Rattle.std.specs.Prelude.{◌≡◌, ◌<◌, ◌^◌, OkIff};
ghost use Rattle.std.specs.Str.Parse.{IsNumeral, digits_value};

use crate::stop::Stop;
use amh_bits::Int;
use std::alloc::Global;

/// The words of a line between blanks.
pub fn words_of(alloc: Global, line: &str) -> Result<Vec<&str>, Stop> {
    let mut words = Vec::new(alloc);
    for word in line.split(' ') {
        if !word.is_empty() {
            words.push(word)?;
        }
    }
    Ok(words)
}

/// The first word and those behind it.
pub fn split_first<'a, 'b>(words: &'b [&'a str]) -> Option<(&'a str, &'b [&'a str])> {
    match words {
        [first, rest @ ..] => Some((*first, rest)),
        [] => None,
    }
}

/// The number that decimal digits stand for.
pub fn natural(word: &str) -> Result<u128, Stop>
    ensures { OkIff result (IsNumeral 10 word.now × (digits_value 10 word.now < 2 ^ 128)) (digits_value 10 word.now) }
{
    if word.starts_with('+') {
        return Err(Stop::NoCase);
    }
    match word.parse::<u128>() {
        Ok(number) => Ok(number),
        Err(_) => Err(Stop::NoCase),
    }
}

/// The number that decimal digits stand for, as a count.
pub fn count(word: &str) -> Result<u64, Stop>
    ensures { OkIff result (IsNumeral 10 word.now × (digits_value 10 word.now < 2 ^ 64)) (digits_value 10 word.now) }
{
    match u64::try_from(natural(word)?) {
        Ok(number) => Ok(number),
        Err(_) => Err(Stop::NoCase),
    }
}

/// The integer of digits, behind a `-` where it is below 0.
pub fn integer(word: &str) -> Result<Int, Stop> {
    let Some(digits) = word.strip_prefix("-") else {
        return Ok(Int::of_u128(natural(word)?));
    };
    match Int::of_u128(0).sub(Int::of_u128(natural(digits)?)) {
        Ok(number) => Ok(number),
        Err(_) => Err(Stop::NoCase),
    }
}
