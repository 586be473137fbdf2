// What the tokens of strings stand for.
ghost use Rattle.std.specs.Prelude.{◌≡◌, ◌+◌, ◌-◌, ◌<◌, ◌≤◌, ◌++◌, ◌∷◌, [], if◌then◌else◌, Some, None, IfOk, OnOk, length, drop, take, slice_index, max, option_to_list};
ghost use Rattle.std.specs.Str.{is_utf8};
ghost use Rattle.py_lexer.specs.Characters.{line_end};
ghost use Rattle.py_words.specs.Words_of.{quotes_of, between_quotes, escaped, part_width, part_meaning, meaning_from};

use crate::number::{byte_at, bytes_behind};
use amh_host::{NoMemory, Text};
use py_tree::Name;
use std::alloc::Global;

/// The text that these bytes are, if they are one.
#[tactic(auto, using(crate::proofs::Utf8::tested))]
pub fn text_of(alloc: Global, bytes: &[u8]) -> Result<Option<Text>, NoMemory>
    ensures { IfOk result (λ text. text ≡ (if is_utf8 bytes.now then Some bytes.now else None)) }
{
    let Ok(s) = str::from_utf8(bytes) else {
        return Ok(None);
    };
    let mut text = Text::new(alloc);
    text.push(s)?;
    Ok(Some(text))
}

/// The name of these bytes, if they are a text.
pub fn name_of(alloc: Global, bytes: &[u8]) -> Result<Option<Name>, NoMemory>
    ensures { IfOk result (λ name. name ≡ (if is_utf8 bytes.now then Some bytes.now else None)) }
{
    match text_of(alloc, bytes)? {
        Some(text) => Ok(Some(Name::new(alloc, text)?)),
        None => Ok(None),
    }
}

/// How many bytes end the line here.
fn line_end(bytes: &[u8]) -> usize
    ensures value { result ≡ line_end bytes.now }
    ensures short { result ≤ 2 }
{
    if byte_at(bytes, 0) == b'\n' {
        return 1;
    }
    if byte_at(bytes, 0) == b'\r' && byte_at(bytes, 1) == b'\n' {
        return 2;
    }
    0
}

/// How many quotes open and close a string.
fn quotes_of(bytes: &[u8]) -> usize
    ensures value { result ≡ quotes_of bytes.now }
    ensures few { result ≤ 3 }
{
    let first = byte_at(bytes, 0);
    if byte_at(bytes, 1) == first && byte_at(bytes, 2) == first {
        3
    } else {
        1
    }
}

/// What stands between the quotes.
pub fn between_quotes(bytes: &[u8]) -> &[u8]
    ensures { result.now ≡ between_quotes bytes.now }
{
    let quotes = quotes_of(bytes);
    let inside = bytes_behind(bytes, quotes);
    let width = bytes.len().saturating_sub(quotes + quotes);
    &inside[..width]
}

/// How many bytes the part takes that begins here.
pub fn part_width(bytes: &[u8]) -> usize
    ensures { result ≡ part_width bytes.now }
{
    if byte_at(bytes, 0) == b'\\' {
        1 + line_end(bytes_behind(bytes, 1)).max(1)
    } else {
        line_end(bytes).max(1)
    }
}

/// What an escaped byte stands for.
fn escaped(byte: u8) -> u8
    ensures { result ≡ escaped byte }
{
    match byte {
        b'n' => b'\n',
        b't' => b'\t',
        other => other,
    }
}

/// The byte that the part stands for that begins here, if it stands for one.
fn part_byte(bytes: &[u8]) -> Option<u8>
    ensures { option_to_list result ≡ part_meaning bytes.now }
{
    if byte_at(bytes, 0) == b'\\' {
        let rest = bytes_behind(bytes, 1);
        if line_end(rest) > 0 {
            return None;
        }
        return Some(escaped(byte_at(bytes, 1)));
    }
    if line_end(bytes) > 0 {
        return Some(b'\n');
    }
    Some(byte_at(bytes, 0))
}

/// Adds what the part stands for that begins here.
pub fn push_part(meant: &mut Vec<u8>, bytes: &[u8]) -> Result<(), NoMemory>
    ensures { OnOk result (meant.new.items ≡ meant.old.items ++ part_meaning bytes.now) }
{
    if let Some(byte) = part_byte(bytes) {
        meant.push(byte)?;
    }
    Ok(())
}

/// What the bytes between the quotes stand for.
#[tactic(auto, unfolding(crate::specs::Words_of::meaning_from))]
pub fn meaning(alloc: Global, bytes: &[u8]) -> Result<Vec<u8>, NoMemory>
    ensures { IfOk result (λ v. v.items ≡ meaning_from [] 0 bytes.now) }
{
    let mut meant = Vec::new(alloc);
    let mut left = 0usize;
    let mut rest = bytes;
    while let [_, after @ ..] = rest {
        if left > 0 {
            left -= 1;
        } else {
            push_part(&mut meant, rest)?;
            left = part_width(rest) - 1;
        }
        rest = after;
    }
    Ok(meant)
}
