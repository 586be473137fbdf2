// Names and keywords.
ghost use Rattle.std.specs.Prelude.{◌≡◌, ◌≤◌, ◌<◌, ◌+◌, ◌^◌, length, IfOk, bytes_eq};
ghost use Rattle.unicode_normalization.specs.Forms.{is_in_form, Nfkc};
ghost use Rattle.py_lexer.specs.Names.{starts_name, name_width, and_to_class, continue_to_from, if_to_or, pass_to_with, is_refused_keyword, is_keyword, is_among, word_form};

use crate::token::TokenForm;
use amh_host::NoMemory;
use std::alloc::Global;
use unicode_ident::{is_xid_continue, is_xid_start};
use unicode_normalization::slice::extend_nfkc;

/// Whether a name may begin with the character.
pub fn starts_name(c: char) -> bool
    ensures { result ≡ starts_name c }
{
    is_xid_start(c) || c == '_'
}

/// How many characters the name takes whose first character stands before these.
pub fn name_width(cs: &[char]) -> usize
    requires { length cs.now < 2 ^ 32 }
    ensures value { result ≡ name_width cs.now }
    ensures within { result ≤ length cs.now + 1 }
{
    for (i, c) in cs.iter().enumerate() {
        if !is_xid_continue(*c) {
            return i + 1;
        }
    }
    cs.len() + 1
}

// Whether the word is this one.
fn is(word: &[char], wanted: &[u8]) -> bool
    ensures { result ≡ bytes_eq word.now wanted.now }
{
    if word.len() != wanted.len() {
        return false;
    }
    for (i, c) in word.iter().enumerate() {
        if *c != char::from(wanted[i]) {
            return false;
        }
    }
    true
}

// The keywords of the subset, in the order of the alphabet, in four parts.
fn is_and_to_class(word: &[char]) -> bool
    ensures { result ≡ is_among and_to_class word.now }
{
    is(word, b"and")
        || is(word, b"as")
        || is(word, b"assert")
        || is(word, b"async")
        || is(word, b"await")
        || is(word, b"break")
        || is(word, b"class")
}

fn is_continue_to_from(word: &[char]) -> bool
    ensures { result ≡ is_among continue_to_from word.now }
{
    is(word, b"continue")
        || is(word, b"def")
        || is(word, b"elif")
        || is(word, b"else")
        || is(word, b"False")
        || is(word, b"for")
        || is(word, b"from")
}

fn is_if_to_or(word: &[char]) -> bool
    ensures { result ≡ is_among if_to_or word.now }
{
    is(word, b"if")
        || is(word, b"import")
        || is(word, b"in")
        || is(word, b"is")
        || is(word, b"None")
        || is(word, b"not")
        || is(word, b"or")
}

fn is_pass_to_with(word: &[char]) -> bool
    ensures { result ≡ is_among pass_to_with word.now }
{
    is(word, b"pass")
        || is(word, b"raise")
        || is(word, b"return")
        || is(word, b"True")
        || is(word, b"while")
        || is(word, b"with")
}

// Whether the word is a keyword of Python that the subset leaves out.
#[tactic(auto, unfolding(crate::specs::Names::is_refused_keyword))]
fn is_refused(word: &[char]) -> bool
    ensures { result ≡ is_refused_keyword word.now }
{
    is(word, b"del")
        || is(word, b"except")
        || is(word, b"finally")
        || is(word, b"global")
        || is(word, b"lambda")
        || is(word, b"nonlocal")
        || is(word, b"try")
        || is(word, b"yield")
}

#[tactic(auto, unfolding(crate::specs::Names::is_keyword))]
fn is_keyword(word: &[char]) -> bool
    ensures { result ≡ is_keyword word.now }
{
    is_and_to_class(word) || is_continue_to_from(word) || is_if_to_or(word) || is_pass_to_with(word)
}

// Whether the word is in NFKC.
fn is_in_nfkc(alloc: Global, word: &[char]) -> Result<bool, NoMemory>
    ensures { IfOk result (λ b. b ≡ is_in_form Nfkc word.now) }
{
    let mut normal = Vec::new(alloc);
    extend_nfkc(&mut normal, word)?;
    Ok(equal(normal.as_slice(), word))
}

// Whether two words are the same.
fn equal(a: &[char], b: &[char]) -> bool
    ensures { result ≡ bytes_eq a.now b.now }
{
    if a.len() != b.len() {
        return false;
    }
    for (i, c) in a.iter().enumerate() {
        if *c != b[i] {
            return false;
        }
    }
    true
}

/// The form of a token that is this word, where it may stand.
#[tactic(auto, unfolding(crate::specs::Names::word_form))]
pub fn word_form(alloc: Global, word: &[char]) -> Result<Option<TokenForm>, NoMemory>
    ensures { IfOk result (λ form. form ≡ word_form word.now) }
{
    if !is_in_nfkc(alloc, word)? {
        Ok(None)
    } else if is_keyword(word) {
        Ok(Some(TokenForm::Keyword))
    } else if is_refused(word) {
        Ok(None)
    } else {
        Ok(Some(TokenForm::Name))
    }
}
