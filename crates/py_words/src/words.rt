// The words of a logical line: what its tokens stand for.
ghost use Rattle.std.specs.Prelude.{◌≡◌, ◌++◌, ◌∷◌, [], IfOk, OnOk, List, drop};
ghost use Rattle.py_grammar.specs.declared.word.Word.{Word as WordOf};
ghost use Rattle.py_grammar.specs.declared.word.Mark.TheVariants.{Name as a_name, Keyword as a_keyword, Sign as a_sign};
ghost use Rattle.py_words.specs.Words_of.{bytes_of, mark_of, text_mark, string_mark, format_mark, words_of, string_before};
ghost use Rattle.py_words.specs.Openings.{opened, StringIs, string_of};

use crate::format::pieces;
use crate::number::{bytes_behind, decimal_mark, first_bytes, number_mark};
use crate::strings::{between_quotes, meaning, name_of, text_of};
use amh_host::{NoMemory, Place, Text};
use py_grammar::{Mark, Word};
use py_lexer::{Token, TokenForm};
use py_tree::{Name, Pieces};
use std::alloc::Global;

/// A string to which others may still be joined, and the place of its first token.
#[derive(Drop)]
pub struct Open {
    pub place: Place,
    pub text: Text,
}

/// The bytes of a token.
fn bytes_of<'a>(bytes: &'a [u8], token: &Token) -> &'a [u8]
    ensures { result.now ≡ bytes_of bytes.now token.now }
{
    bytes_behind(first_bytes(bytes, token.end as usize), token.start as usize)
}

fn name_mark(alloc: Global, bytes: &[u8]) -> Result<Mark, NoMemory>
    ensures { IfOk result (λ mark. mark ≡ text_mark a_name bytes.now) }
{
    match name_of(alloc, bytes)? {
        Some(name) => Ok(Mark::Name(name)),
        None => Ok(Mark::Other),
    }
}

fn keyword_mark(alloc: Global, bytes: &[u8]) -> Result<Mark, NoMemory>
    ensures { IfOk result (λ mark. mark ≡ text_mark a_keyword bytes.now) }
{
    match name_of(alloc, bytes)? {
        Some(name) => Ok(Mark::Keyword(name)),
        None => Ok(Mark::Other),
    }
}

fn sign_mark(alloc: Global, bytes: &[u8]) -> Result<Mark, NoMemory>
    ensures { IfOk result (λ mark. mark ≡ text_mark a_sign bytes.now) }
{
    match name_of(alloc, bytes)? {
        Some(name) => Ok(Mark::Sign(name)),
        None => Ok(Mark::Other),
    }
}

/// What a string stands for, if that is a text.
fn string_text(alloc: Global, bytes: &[u8]) -> Result<Option<Text>, NoMemory>
    ensures { IfOk result (λ text. string_mark bytes.now ≡ string_of text) }
{
    let meant = meaning(alloc, between_quotes(bytes))?;
    text_of(alloc, meant.as_slice())
}

fn string_mark(alloc: Global, bytes: &[u8]) -> Result<Mark, NoMemory>
    ensures { IfOk result (λ mark. mark ≡ string_mark bytes.now) }
{
    match string_text(alloc, bytes)? {
        Some(text) => Ok(Mark::Str(Name::new(alloc, text)?)),
        None => Ok(Mark::Other),
    }
}

fn format_mark(alloc: Global, bytes: &[u8]) -> Result<Mark, NoMemory>
    ensures { IfOk result (λ mark. mark ≡ format_mark bytes.now) }
{
    match pieces(alloc, between_quotes(bytes_behind(bytes, 1)))? {
        Some(pieces) => Ok(Mark::Format(Pieces::new(alloc, pieces)?)),
        None => Ok(Mark::Other),
    }
}

/// The mark of a token of this form.
fn mark_of(alloc: Global, form: TokenForm, bytes: &[u8]) -> Result<Mark, NoMemory>
    ensures { IfOk result (λ mark. mark ≡ mark_of form bytes.now) }
{
    match form {
        TokenForm::Name => name_mark(alloc, bytes),
        TokenForm::Keyword => keyword_mark(alloc, bytes),
        TokenForm::Number => Ok(number_mark(bytes)),
        TokenForm::Decimal => Ok(decimal_mark(bytes)),
        TokenForm::Str => string_mark(alloc, bytes),
        TokenForm::FormatStr => format_mark(alloc, bytes),
        TokenForm::Sign => sign_mark(alloc, bytes),
    }
}

/// The string that a token of this form is, if it is one.
#[tactic(auto, using(crate::proofs::Joins::no_string))]
fn string_in(alloc: Global, form: TokenForm, bytes: &[u8]) -> Result<Option<Text>, NoMemory>
    ensures { IfOk result (λ text. StringIs (mark_of form bytes.now) text) }
{
    match form {
        TokenForm::Str => string_text(alloc, bytes),
        _ => Ok(None),
    }
}

/// A string joined to one that is open.
#[tactic(auto, using(crate::proofs::Joins::joins))]
fn joined_text(begun: Option<Open>, place: Place, text: Text) -> Result<Open, NoMemory>
    ensures { IfOk result (λ o. (ws : List WordOf) → string_before o.place o.text ws ≡ opened begun (string_before place text ws)) }
{
    let Some(begun) = begun else {
        return Ok(Open { place, text });
    };
    let mut begun = begun;
    begun.text.push(text.as_str())?;
    Ok(begun)
}

/// Adds a string that is open.
fn close(alloc: Global, words: &mut Vec<Word>, begun: Option<Open>) -> Result<(), NoMemory>
    ensures { OnOk result (words.new.items ≡ words.old.items ++ opened begun []) }
{
    if let Some(Open { place, text }) = begun {
        let mark = Mark::Str(Name::new(alloc, text)?);
        words.push(Word { mark, place })?;
    }
    Ok(())
}

/// The words of these tokens of a text.
pub fn words_of(alloc: Global, text: &str, tokens: &[Token]) -> Result<Vec<Word>, NoMemory>
    ensures { IfOk result (λ words. words.items ≡ words_of text.now tokens.now) }
{
    let all = text.as_bytes();
    let mut words = Vec::new(alloc);
    let mut begun: Option<Open> = None;
    for token in tokens {
        let bytes = bytes_of(all, token);
        if let Some(text) = string_in(alloc, token.form, bytes)? {
            begun = Some(joined_text(begun, token.place, text)?);
        } else {
            close(alloc, &mut words, begun)?;
            begun = None;
            let mark = mark_of(alloc, token.form, bytes)?;
            words.push(Word {
                mark,
                place: token.place,
            })?;
        }
    }
    close(alloc, &mut words, begun)?;
    Ok(words)
}
