// The names that a script may use: those of inputs and those of domains.
ghost use Rattle.std.specs.Prelude.{◌≡◌, IfOk};
ghost use Rattle.std.specs.Option.{option_map};
ghost use Rattle.std.specs.List.{list_all};
ghost use Rattle.play_text.specs.Script.{settable, is_domain, words_in};
ghost use Rattle.play_text.specs.ScriptParts.{Numbers};

use crate::board::{Board, Shown};
use crate::script_words::first_word;
use amh_host::NoMemory;
use std::alloc::Global;
use std::collections::BTreeMap;

/// The numbers of the columns that a script may set, by their names. Of columns of one name it is the first.
pub fn settable_numbers(
    alloc: Global,
    columns: &[Shown],
) -> Result<BTreeMap<&[u8], usize>, NoMemory>
    ensures { IfOk result (λ numbers. Numbers numbers columns.now) }
{
    let mut numbers = BTreeMap::new(alloc);
    for (number, column) in columns.iter().enumerate() {
        let name = column.name.as_str().as_bytes();
        if column.is_settable && !numbers.contains_key(&name) {
            numbers.insert(name, number)?;
        }
    }
    Ok(numbers)
}

/// The column of this name that a script may set.
pub fn settable<'a>(
    board: &'a Board,
    numbers: &BTreeMap<&'a [u8], usize>,
    name: &'a [u8],
) -> Option<&'a Shown>
    requires { Numbers numbers.now board.now.columns }
    ensures { option_map (λ x. x.now) result ≡ settable board.now name.now }
{
    let number = *numbers.get(&name)?;
    board.columns.as_slice().get(number)
}

/// Whether each word names a domain.
pub fn are_domains(board: &Board, words: &[u8]) -> bool
    ensures { result ≡ list_all (is_domain board.now) (words_in words.now) }
{
    let mut rest = Some(words);
    while let Some(text) = rest {
        let (word, behind) = first_word(text);
        if !is_domain(board, word) {
            return false;
        }
        rest = behind;
    }
    true
}

// Whether a domain has this name.
fn is_domain(board: &Board, name: &[u8]) -> bool
    ensures { result ≡ is_domain board.now name.now }
{
    for domain in board.domains.as_slice() {
        if domain.name.as_str().as_bytes() == name {
            return true;
        }
    }
    false
}
