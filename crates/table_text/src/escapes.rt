// Bytes in escapes.
ghost use Rattle.std.specs.Prelude.{◌≡◌, ◌<◌, ℕ, List, Some, None, Ok, length, IfOk, IfSome};
ghost use Rattle.table_text.specs.Escapes.{digit, coded, escaped, first_byte, Spells};

use crate::stop::Stop;
use amh_host::NoMemory;
use std::alloc::Global;

/// The bytes that a line spells, if it spells any: a byte stands for itself but for the backslash, which begins `\\`, `\n`,
/// `\t`, `\s` for a blank, and `\xHH`, where HH is the byte in upper-case hexadecimal digits.
pub fn bytes_of(alloc: Global, line: &[u8]) -> Result<Option<Vec<u8>>, NoMemory>
    ensures some { IfOk result (λ bytes. IfSome bytes (λ bs. Spells bs.items line.now)) }
    ensures none { result ≡ Ok None → (bs : List ℕ) → Spells bs line.now → ⊥ }
{
    let mut bytes = Vec::new(alloc);
    let mut rest = line;
    while !rest.is_empty() {
        let Some((byte, behind)) = first_byte(rest) else {
            return Ok(None);
        };
        bytes.push(byte)?;
        rest = behind;
    }
    Ok(Some(bytes))
}

/// The text that a line spells.
pub fn text_of(alloc: Global, line: &str) -> Result<String, Stop> {
    let Some(bytes) = bytes_of(alloc, line.as_bytes())? else {
        return Err(Stop::NoCase);
    };
    match String::from_utf8(bytes) {
        Ok(text) => Ok(text),
        Err(_) => Err(Stop::NoCase),
    }
}

// The byte that is spelled at the front, and what stands behind it.
fn first_byte(line: &[u8]) -> Option<(u8, &[u8])>
    ensures some { IfSome result (λ first. first_byte line.now ≡ Some (first.0, first.1.now)) }
    ensures none { result ≡ None → first_byte line.now ≡ None }
    ensures shorter { IfSome result (λ first. length first.1.now < length line.now) }
{
    let [first, rest @ ..] = line else {
        return None;
    };
    if *first == b'\\' {
        escaped(rest)
    } else {
        Some((*first, rest))
    }
}

// The byte of the escape that a backslash stands before, and what stands behind it.
fn escaped(rest: &[u8]) -> Option<(u8, &[u8])>
    ensures some { IfSome result (λ first. escaped rest.now ≡ Some (first.0, first.1.now)) }
    ensures none { result ≡ None → escaped rest.now ≡ None }
    ensures shorter { IfSome result (λ first. length first.1.now < length rest.now) }
{
    let [kind, behind @ ..] = rest else {
        return None;
    };
    match *kind {
        b'\\' => Some((b'\\', behind)),
        b'n' => Some((b'\n', behind)),
        b't' => Some((b'\t', behind)),
        b's' => Some((b' ', behind)),
        b'x' => coded(behind),
        _ => None,
    }
}

// The byte of two hexadecimal digits, and what stands behind them.
fn coded(digits: &[u8]) -> Option<(u8, &[u8])>
    ensures some { IfSome result (λ first. coded digits.now ≡ Some (first.0, first.1.now)) }
    ensures none { result ≡ None → coded digits.now ≡ None }
    ensures shorter { IfSome result (λ first. length first.1.now < length digits.now) }
{
    let [high, low, behind @ ..] = digits else {
        return None;
    };
    let byte = 16 * digit(*high)? + digit(*low)?;
    Some((byte, behind))
}

fn digit(byte: u8) -> Option<u8>
    ensures value { result ≡ digit byte }
    ensures small { IfSome result (λ value. value < 16) }
{
    match byte {
        b'0'..=b'9' => Some(byte - b'0'),
        b'A'..=b'F' => Some(byte - b'A' + 10),
        _ => None,
    }
}
