// The columns of a trace in stripes, so that a row looks at those alone that an event may have changed.
ghost use Rattle.std.specs.Prelude.{◌≡◌, ◌<◌, ◌++◌, [], false, true, map, length, slice_index_or, IfOk, OnOk};
ghost use Rattle.std.specs.List.{AllByRecursion, flat_map};
ghost use Rattle.design_ir.specs.Circuits.{is_among};
ghost use Rattle.play_text.specs.Lanes.{lanes_at, lane_text, moved};
ghost use Rattle.play_text.specs.Trace.{line_feed};
ghost use Rattle.play_text.specs.Stripes.{AreFound, AreStill, Grows, IsFound, IsNoted, IsStill, due_set, grid, joined, marked, marked_all};

use crate::board::Shown;
use crate::trace_columns::{Lane, lanes_of, push_changes};
use amh_bits::Int;
use amh_host::NoMemory;
use lists::Items;
use std::alloc::{AllocError, Global};

/// How many columns a stripe has at most.
const WIDTH: usize = 64;

/// Columns one after another, and whether one of them may have another number than it had last.
#[derive(Drop)]
pub struct Stripe {
    pub lanes: Vec<Lane>,
    pub due: bool,
}

/// All columns in stripes, and for each signal the stripes in which it is shown.
#[derive(Drop)]
pub struct Stripes {
    pub stripes: Vec<Stripe>,
    pub shown: Vec<Items<usize>>,
}

impl Stripes {
    /// The columns before any event.
    pub fn of(alloc: Global, columns: &[Shown], first: &[Int]) -> Result<Stripes, NoMemory>
        ensures lanes { IfOk result (λ x. joined (grid x.stripes.items) ≡ lanes_at columns.now first.now) }
        ensures found { IfOk result (λ x. AreFound x.shown.items 0 (grid x.stripes.items)) }
        ensures count { IfOk result (λ x. length x.shown.items ≡ length first.now) }
    {
        let stripes = stripes_of(alloc, columns, first)?;
        let shown = shown_in(alloc, stripes.as_slice(), first.len())?;
        Ok(Stripes { stripes, shown })
    }

    /// Adds what is left of the line of an event: the columns whose numbers it changed, all of which show one of these
    /// signals. The work is that of the stripes in which one of them is shown.
    pub fn push_rest(
        &mut self,
        text: &mut Vec<u8>,
        signals: &[usize],
        now: &[Int],
    ) -> Result<(), AllocError>
        requires found { AreFound self.old.shown.items 0 (grid self.old.stripes.items) }
        requires noted { AllByRecursion (IsNoted (length self.old.shown.items) signals.now now.now) (joined (grid self.old.stripes.items)) }
        ensures text { OnOk result (text.new.items ≡ text.old.items ++ (flat_map (lane_text now.now) (joined (grid self.old.stripes.items)) ++ line_feed)) }
        ensures lanes { OnOk result (joined (grid self.new.stripes.items) ≡ map (moved now.now) (joined (grid self.old.stripes.items))) }
        ensures found { OnOk result (AreFound self.new.shown.items 0 (grid self.new.stripes.items)) }
        ensures count { length self.new.shown.items ≡ length self.old.shown.items }
    {
        self.push_changes(text, signals, now)?;
        text.push(b'\n')?;
        Ok(())
    }

    fn push_changes(
        &mut self,
        text: &mut Vec<u8>,
        signals: &[usize],
        now: &[Int],
    ) -> Result<(), AllocError>
        requires found { AreFound self.old.shown.items 0 (grid self.old.stripes.items) }
        requires noted { AllByRecursion (IsNoted (length self.old.shown.items) signals.now now.now) (joined (grid self.old.stripes.items)) }
        ensures text { OnOk result (text.new.items ≡ text.old.items ++ flat_map (lane_text now.now) (joined (grid self.old.stripes.items))) }
        ensures lanes { OnOk result (joined (grid self.new.stripes.items) ≡ map (moved now.now) (joined (grid self.old.stripes.items))) }
        ensures found { OnOk result (AreFound self.new.shown.items 0 (grid self.new.stripes.items)) }
        ensures count { length self.new.shown.items ≡ length self.old.shown.items }
    {
        mark_all(&mut self.stripes, self.shown.as_slice(), signals);
        push_stripes(text, &mut self.stripes, now)
    }
}

// ---- before any event

fn stripes_of(alloc: Global, columns: &[Shown], first: &[Int]) -> Result<Vec<Stripe>, NoMemory>
    ensures { IfOk result (λ x. joined (grid x.items) ≡ lanes_at columns.now first.now) }
{
    let mut stripes = Vec::new(alloc);
    let mut rest = columns;
    for _ in 0..columns.len() {
        let (part, behind) = rest.split_at(rest.len().min(WIDTH));
        if part.is_empty() {
            break;
        }
        stripes.push(stripe_of(alloc, part, first)?)?;
        rest = behind;
    }
    Ok(stripes)
}

fn stripe_of(alloc: Global, columns: &[Shown], first: &[Int]) -> Result<Stripe, NoMemory>
    ensures { IfOk result (λ x. x.lanes.items ≡ lanes_at columns.now first.now) }
{
    Ok(Stripe {
        lanes: lanes_of(alloc, columns, first)?,
        due: false,
    })
}

// For each of so many signals the stripes in which it is shown.
fn shown_in(
    alloc: Global,
    stripes: &[Stripe],
    signals: usize,
) -> Result<Vec<Items<usize>>, NoMemory>
    ensures found { IfOk result (λ x. AreFound x.items 0 (grid stripes.now)) }
    ensures count { IfOk result (λ x. length x.items ≡ signals) }
{
    let mut shown = nowhere(alloc, signals)?;
    for b in 0..stripes.len() {
        note_all(&mut shown, b, stripes[b].lanes.as_slice())?;
    }
    Ok(shown)
}

fn nowhere(alloc: Global, signals: usize) -> Result<Vec<Items<usize>>, NoMemory>
    ensures { IfOk result (λ x. length x.items ≡ signals) }
{
    let mut shown = Vec::new(alloc);
    for _ in 0..signals {
        shown.push(Items::new(alloc))?;
    }
    Ok(shown)
}

// The signals of these columns are shown in this stripe.
fn note_all(shown: &mut Vec<Items<usize>>, b: usize, lanes: &[Lane]) -> Result<(), NoMemory>
    ensures found { OnOk result (AllByRecursion (IsFound shown.new.items b) lanes.now) }
    ensures grows { OnOk result (Grows shown.old.items shown.new.items) }
{
    for x in lanes {
        note(shown, b, x.sig.0 as usize)?;
    }
    Ok(())
}

fn note(shown: &mut Vec<Items<usize>>, b: usize, s: usize) -> Result<(), NoMemory>
    ensures found { OnOk result (s < length shown.new.items → is_among (slice_index_or shown.new.items s []) b ≡ true) }
    ensures grows { OnOk result (Grows shown.old.items shown.new.items) }
{
    if s < shown.len() {
        shown[s].push(b)?;
    }
    Ok(())
}

// ---- behind an event

// The stripes in which one of these signals is shown are due.
fn mark_all(stripes: &mut Vec<Stripe>, shown: &[Items<usize>], signals: &[usize])
    ensures { stripes.new.items ≡ marked_all shown.now signals.now stripes.old.items }
{
    for s in signals {
        if *s < shown.len() {
            mark(stripes, shown[*s].as_slice());
        }
    }
}

// These stripes are due.
fn mark(stripes: &mut Vec<Stripe>, places: &[usize])
    ensures { stripes.new.items ≡ marked places.now stripes.old.items }
{
    for b in places {
        let_due(stripes, *b);
    }
}

fn let_due(stripes: &mut Vec<Stripe>, b: usize)
    ensures { stripes.new.items ≡ due_set b stripes.old.items }
{
    if b < stripes.len() {
        stripes[b].due = true;
    }
}

fn push_stripes(
    text: &mut Vec<u8>,
    stripes: &mut Vec<Stripe>,
    now: &[Int],
) -> Result<(), AllocError>
    requires { AreStill now.now stripes.old.items }
    ensures text { OnOk result (text.new.items ≡ text.old.items ++ flat_map (λ x. flat_map (lane_text now.now) x.lanes.items) stripes.old.items) }
    ensures lanes { OnOk result (grid stripes.new.items ≡ map (map (moved now.now)) (grid stripes.old.items)) }
{
    for x in stripes.iter_mut() {
        push_stripe(text, x, now)?;
    }
    Ok(())
}

// A stripe that is not due has nothing to show.
fn push_stripe(text: &mut Vec<u8>, x: &mut Stripe, now: &[Int]) -> Result<(), AllocError>
    requires { x.old.due ≡ false → IsStill now.now x.old.lanes.items }
    ensures text { OnOk result (text.new.items ≡ text.old.items ++ flat_map (lane_text now.now) x.old.lanes.items) }
    ensures lanes { OnOk result (x.new.lanes.items ≡ map (moved now.now) x.old.lanes.items) }
{
    if !x.due {
        return Ok(());
    }
    x.due = false;
    push_changes(text, &mut x.lanes, now)
}
