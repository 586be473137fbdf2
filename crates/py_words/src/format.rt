// What the tokens of format strings stand for.
ghost use Rattle.std.specs.Prelude.{◌≡◌, ◌+◌, ◌<◌, ◌≤◌, ◌++◌, ◌∷◌, [], if◌then◌else◌, Some, None, IfOk, OnOk, length, take, drop, ◌-◌, not, ◌==◌};
ghost use Rattle.py_tree.specs.declared.name.Piece.TheVariants.{Text as text_piece, Hole as hole_piece};
ghost use Rattle.py_words.specs.Words_of.{is_doubled, opens_hole, hole_width, format_width, format_meaning, with_piece, with_text, pieces_from};

use crate::number::{byte_at, bytes_behind, first_bytes};
use crate::strings::{name_of, part_width, push_part};
use amh_host::{Items, NoMemory};
use py_tree::Piece;
use std::alloc::Global;

fn is_doubled(bytes: &[u8]) -> bool
    ensures { result ≡ is_doubled bytes.now }
{
    let first = byte_at(bytes, 0);
    (first == b'{' || first == b'}') && byte_at(bytes, 1) == first
}

fn opens_hole(bytes: &[u8]) -> bool
    ensures { result ≡ opens_hole bytes.now }
{
    byte_at(bytes, 0) == b'{' && byte_at(bytes, 1) != b'{'
}

/// How many bytes of a hole stand before `}`.
fn hole_width(bytes: &[u8]) -> usize
    ensures value { result ≡ hole_width bytes.now }
    ensures within { result ≤ length bytes.now }
{
    for (i, byte) in bytes.iter().enumerate() {
        if *byte == b'}' {
            return i;
        }
    }
    bytes.len()
}

fn format_width(bytes: &[u8]) -> usize
    ensures { result ≡ format_width bytes.now }
{
    if is_doubled(bytes) {
        2
    } else {
        part_width(bytes)
    }
}

fn push_format(text: &mut Vec<u8>, bytes: &[u8]) -> Result<(), NoMemory>
    ensures { OnOk result (text.new.items ≡ text.old.items ++ format_meaning bytes.now) }
{
    if is_doubled(bytes) {
        text.push(byte_at(bytes, 0))?;
        return Ok(());
    }
    push_part(text, bytes)
}

/// Pieces and a text behind them, which is left out where it is empty.
fn with_text(
    alloc: Global,
    pieces: Items<Piece>,
    text: &[u8],
) -> Result<Option<Items<Piece>>, NoMemory>
    ensures { IfOk result (λ ps. ps ≡ with_text text.now (Some pieces)) }
{
    let [_, ..] = text else {
        return Ok(Some(pieces));
    };
    let Some(text) = name_of(alloc, text)? else {
        return Ok(None);
    };
    let mut pieces = pieces;
    pieces.push(Piece::Text(text))?;
    Ok(Some(pieces))
}

/// Pieces, a text behind them, and the hole of a name.
fn with_hole(
    alloc: Global,
    pieces: Items<Piece>,
    text: &[u8],
    name: &[u8],
) -> Result<Option<Items<Piece>>, NoMemory>
    ensures { IfOk result (λ ps. ps ≡ with_piece hole_piece name.now (with_text text.now (Some pieces))) }
{
    let Some(mut pieces) = with_text(alloc, pieces, text)? else {
        return Ok(None);
    };
    let Some(name) = name_of(alloc, name)? else {
        return Ok(None);
    };
    pieces.push(Piece::Hole(name))?;
    Ok(Some(pieces))
}

/// The name of the hole that these bytes begin.
fn hole_name(bytes: &[u8]) -> &[u8]
    ensures { result.now ≡ take (hole_width bytes.now - 1) (drop 1 bytes.now) }
{
    first_bytes(bytes_behind(bytes, 1), hole_width(bytes).saturating_sub(1))
}

/// The pieces that these bytes are.
#[tactic(auto, using(crate::proofs::Parts::turns), unfolding(crate::specs::Words_of::pieces_from))]
pub fn pieces(alloc: Global, bytes: &[u8]) -> Result<Option<Items<Piece>>, NoMemory>
    ensures { IfOk result (λ ps. ps ≡ pieces_from (Some []) [] 0 bytes.now) }
{
    let mut pieces = Items::new(alloc);
    let mut text = Vec::new(alloc);
    let mut left = 0usize;
    let mut rest = bytes;
    while !rest.is_empty() {
        if left > 0 {
            left -= 1;
        } else if opens_hole(rest) {
            let Some(more) = with_hole(alloc, pieces, text.as_slice(), hole_name(rest))? else {
                return Ok(None);
            };
            pieces = more;
            text.clear();
            left = hole_width(rest);
        } else {
            push_format(&mut text, rest)?;
            left = format_width(rest) - 1;
        }
        rest = bytes_behind(rest, 1);
    }
    with_text(alloc, pieces, text.as_slice())
}
