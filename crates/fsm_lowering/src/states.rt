// The states of a machine. There are 256 at most, so a state is found by a walk over them.
ghost use Rattle.std.specs.Prelude.{◌≡◌, map, None, IfOk, OnOk, OnErr};
ghost use Rattle.fsm_lowering.specs.States.{is_entered, number_of, mentioned, first_unentered, condition_in, entered_as, held_as, range_width, is_between, is_within, is_finished};

use amh_host::{NoMemory, Place, Text};
use design_ir::ExprId;
use std::alloc::Global;

/// A state as far as it is known.
#[derive(Drop)]
pub struct State {
    pub name: Text,
    /// Where it was mentioned first.
    pub mention: Place,
    pub entered: bool,
    /// The first expression that tells whether the machine is in it.
    pub condition: Option<ExprId>,
}

impl State {
    // Enters it, where it has this name.
    fn enter(&mut self, name: &str, condition: ExprId)
        ensures { self.new ≡ entered_as name.now condition self.old }
    {
        if self.name.is(name) {
            self.entered = true;
            self.condition = Some(self.condition.unwrap_or(condition));
        }
    }

    // Gives it a condition, where it has this name.
    fn hold(&mut self, name: &str, condition: ExprId)
        ensures { self.new ≡ held_as name.now condition self.old }
    {
        if self.name.is(name) {
            self.condition = Some(self.condition.unwrap_or(condition));
        }
    }
}

/// Where a machine stands.
#[derive(Clone, Copy, PartialEq, Eq, Drop)]
pub enum Stage {
    /// No state is open.
    Between,
    /// A state is open.
    Within,
    /// The machine has its shape.
    Finished,
}

impl Stage {
    pub fn is_between(self) -> bool
        ensures { result ≡ is_between self }
    {
        matches!(self, Stage::Between)
    }

    pub fn is_within(self) -> bool
        ensures { result ≡ is_within self }
    {
        matches!(self, Stage::Within)
    }

    pub fn is_finished(self) -> bool
        ensures { result ≡ is_finished self }
    {
        matches!(self, Stage::Finished)
    }
}

/// Whether a state was entered.
pub fn is_entered(states: &[State], name: &str) -> bool
    ensures { result ≡ is_entered states.now name.now }
{
    states.iter().any(|s| s.name.is(name) && s.entered)
}

/// The number of a state; one that was not mentioned yet has the next one.
pub fn number_of(states: &[State], name: &str) -> usize
    ensures { result ≡ number_of states.now name.now }
{
    for (i, s) in states.iter().enumerate() {
        if s.name.is(name) {
            return i;
        }
    }
    states.len()
}

/// A state is mentioned.
pub fn mention(
    alloc: Global,
    states: &mut Vec<State>,
    name: &str,
    place: Place,
) -> Result<(), NoMemory>
    ensures mentioned { OnOk result (states.new.items ≡ mentioned states.old.items name.now place) }
    ensures refused { OnErr result (states.new.items ≡ states.old.items) }
{
    if number_of(states.as_slice(), name) < states.len() {
        return Ok(());
    }
    let name = copied(alloc, name)?;
    states.push(State {
        name,
        mention: place,
        entered: false,
        condition: None,
    })?;
    Ok(())
}

/// A state is entered, with its condition.
pub fn enter(
    alloc: Global,
    states: &mut Vec<State>,
    name: &str,
    place: Place,
    condition: ExprId,
) -> Result<(), NoMemory>
    ensures entered { OnOk result (states.new.items ≡ map (entered_as name.now condition) (mentioned states.old.items name.now place)) }
    ensures refused { OnErr result (states.new.items ≡ states.old.items) }
{
    mention(alloc, states, name, place)?;
    enter_each(states.as_mut_slice(), name, condition);
    Ok(())
}

/// A state is mentioned, with a condition.
pub fn hold(
    alloc: Global,
    states: &mut Vec<State>,
    name: &str,
    place: Place,
    condition: ExprId,
) -> Result<(), NoMemory>
    ensures held { OnOk result (states.new.items ≡ map (held_as name.now condition) (mentioned states.old.items name.now place)) }
    ensures refused { OnErr result (states.new.items ≡ states.old.items) }
{
    mention(alloc, states, name, place)?;
    hold_each(states.as_mut_slice(), name, condition);
    Ok(())
}

fn enter_each(states: &mut [State], name: &str, condition: ExprId)
    ensures { states.new ≡ map (entered_as name.now condition) states.old }
{
    for s in states.iter_mut() {
        s.enter(name, condition);
    }
}

fn hold_each(states: &mut [State], name: &str, condition: ExprId)
    ensures { states.new ≡ map (held_as name.now condition) states.old }
{
    for s in states.iter_mut() {
        s.hold(name, condition);
    }
}

/// The first mention of the first state that was never entered.
pub fn first_unentered(states: &[State]) -> Option<Place>
    ensures { result ≡ first_unentered states.now }
{
    for s in states {
        if !s.entered {
            return Some(s.mention);
        }
    }
    None
}

/// The condition of a state that was entered.
pub fn condition_in(states: &[State], name: &str) -> Option<ExprId>
    ensures { result ≡ condition_in states.now name.now }
{
    for s in states {
        if s.name.is(name) && s.entered {
            return s.condition;
        }
    }
    None
}

/// The least width that has so many numbers, of 256 at most.
pub fn range_width(count: usize) -> u8
    ensures { result ≡ range_width count }
{
    let mut width = 0;
    while width < 8 && count > 1 << width {
        width += 1;
    }
    width
}

/// The same text again.
pub fn copied(alloc: Global, text: &str) -> Result<Text, NoMemory>
    ensures { IfOk result (λ t. t ≡ text.now) }
{
    let mut copy = Text::new(alloc);
    copy.push(text)?;
    Ok(copy)
}
