// Names that are made new by a number.
ghost use Rattle.std.specs.Prelude.{◌≡◌, ◌∷◌, ◌++◌, [], true, length, Some, IfOk, OnOk, OnErr};
ghost use Rattle.std.specs.BTreeMap.{get_by_text};
ghost use Rattle.new_names.specs.Fresh.{fresh_name, has_name, numbered_name};
ghost use Rattle.new_names.specs.Tracked.{AreTaken, IsFree, IsPut, IsTracked};

use lists::{Names, NoMemory, Text};
use std::alloc::Global;
use std::collections::BTreeMap;
use std::marker::Model;

/// The names that were given, each with the greatest number that it was given behind it. Contracts see the list of the
/// names.
#[derive(Drop)]
pub struct NewNames {
    alloc: Global,
    names: Names,
    numbers: BTreeMap<String, usize>,
    failed: bool,
}

impl Model for NewNames {
    ghost use Rattle.std.specs.Prelude.{◌≡◌, ℕ, List, false};
    ghost use Rattle.new_names.specs.Tracked.{IsTracked};

    ghost Value = { List (List ℕ) };

    ghost view = { λ a. a.names };

    ghost invariant = { λ a. a.failed ≡ false → IsTracked a.numbers a.names };
}

impl NewNames {
    /// No names, which takes no memory.
    pub fn new(alloc: Global) -> NewNames
        ensures { result ≡ [] }
    {
        NewNames {
            alloc,
            names: Names::new(alloc),
            numbers: BTreeMap::new(alloc),
            failed: false,
        }
    }

    /// Gives a name: as it is where none has it, else with the least number with which it is new. Where memory ran out once,
    /// each later call answers the same.
    pub fn give(&mut self, name: &str) -> Result<Text, NoMemory>
        ensures fresh { IfOk result (λ t. t ≡ fresh_name self.old name.now) }
        ensures names { OnOk result (self.new ≡ self.old ++ fresh_name self.old name.now ∷ []) }
    {
        if self.failed {
            return Err(NoMemory);
        }
        self.failed = true;
        let text = give(self.alloc, &mut self.names, &mut self.numbers, name)?;
        self.failed = false;
        Ok(text)
    }
}

// A copy of a text.
fn copied(alloc: Global, text: &str) -> Result<Text, NoMemory>
    ensures { IfOk result (λ copy. copy ≡ text.now) }
{
    let mut copy = Text::new(alloc);
    copy.push(text)?;
    Ok(copy)
}

// A name and a number behind it.
fn numbered_name(alloc: Global, name: &str, number: usize) -> Result<Text, NoMemory>
    ensures { IfOk result (λ t. t ≡ numbered_name name.now number) }
{
    let digits = format!(in alloc; "{number}")?;
    let mut text = copied(alloc, name)?;
    text.push("$")?;
    text.push(digits.as_str())?;
    Ok(text)
}

// The greatest number that a name was given, where it stands already.
fn last_number(numbers: &BTreeMap<String, usize>, name: &str) -> Option<usize>
    ensures { result ≡ get_by_text numbers.now name.now }
{
    match numbers.get(name) {
        Some(last) => Some(*last),
        None => None,
    }
}

// The least number with which a name is new; all up to the last one are taken.
fn free_number(
    alloc: Global,
    names: &Names,
    numbers: &BTreeMap<String, usize>,
    name: &str,
    last: usize,
) -> Result<usize, NoMemory>
    requires tracked { IsTracked numbers.now names.now }
    requires there { has_name names.now name.now ≡ true }
    requires taken { AreTaken names.now name.now last }
    ensures { IfOk result (IsFree names.now name.now) }
{
    for taken in last..names.len() {
        let text = numbered_name(alloc, name, taken + 1)?;
        if !numbers.contains_key(text.as_str()) {
            return Ok(taken + 1);
        }
    }
    unreachable!()
}

// A name that is new.
fn add_new(
    alloc: Global,
    names: &mut Names,
    numbers: &mut BTreeMap<String, usize>,
    name: &str,
) -> Result<(), NoMemory>
    ensures names { OnOk result (names.new ≡ names.old ++ name.now ∷ []) }
    ensures numbers { OnOk result (IsPut (get_by_text numbers.old) name.now 0 (get_by_text numbers.new)) }
{
    numbers.insert(String::from_str(alloc, name)?, 0)?;
    names.push(name)?;
    Ok(())
}

// A name that stands already: it gets the least number with which it is new.
fn give_numbered(
    alloc: Global,
    names: &mut Names,
    numbers: &mut BTreeMap<String, usize>,
    name: &str,
    last: usize,
) -> Result<Text, NoMemory>
    requires tracked { IsTracked numbers.old names.old }
    requires last { get_by_text numbers.old name.now ≡ Some last }
    ensures fresh { IfOk result (λ t. t ≡ fresh_name names.old name.now) }
    ensures names { OnOk result (names.new ≡ names.old ++ fresh_name names.old name.now ∷ []) }
    ensures tracked { OnOk result (IsTracked numbers.new names.new) }
{
    let number = free_number(alloc, names, numbers, name, last)?;
    let text = numbered_name(alloc, name, number)?;
    numbers.insert(String::from_str(alloc, name)?, number)?;
    add_new(alloc, names, numbers, text.as_str())?;
    Ok(text)
}

// Gives a name.
fn give(
    alloc: Global,
    names: &mut Names,
    numbers: &mut BTreeMap<String, usize>,
    name: &str,
) -> Result<Text, NoMemory>
    requires tracked { IsTracked numbers.old names.old }
    ensures fresh { IfOk result (λ t. t ≡ fresh_name names.old name.now) }
    ensures names { OnOk result (names.new ≡ names.old ++ fresh_name names.old name.now ∷ []) }
    ensures tracked { OnOk result (IsTracked numbers.new names.new) }
{
    let last = match last_number(numbers, name) {
        Some(last) => last,
        None => {
            add_new(alloc, names, numbers, name)?;
            return copied(alloc, name);
        }
    };
    give_numbered(alloc, names, numbers, name, last)
}
