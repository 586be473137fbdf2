// The line of a row of a run.
ghost use Rattle.std.specs.Prelude.{◌≡◌, ◌≢◌, ◌<◌, ℕ, true, length, IfOk, OnOk};
ghost use Rattle.std.specs.List.{AllByRecursion};
ghost use Rattle.design_ir.specs.Circuits.{at, is_among};
ghost use Rattle.play_text.specs.Trace.{row_line};
ghost use Rattle.amh_tool.specs.RunParts.{Shows};

use amh_bits::Int;
use amh_host::NoMemory;
use design_ir::Event;
use play_text::board::{Board, Shown};
use play_text::trace_lines::push_front;
use play_text::trace_stripes::Stripes;
use std::alloc::Global;

/// The room of a line, which serves for all rows, and the numbers before the row: those of the columns, and those of all signals.
#[derive(Drop)]
pub struct RowText {
    pub line: Vec<u8>,
    pub stripes: Stripes,
    pub before: Vec<Int>,
}

impl RowText {
    /// Before any event.
    pub fn of(alloc: Global, columns: &[Shown], first: &[Int]) -> Result<RowText, NoMemory>
        ensures { IfOk result (Shows columns.now first.now) }
    {
        Ok(RowText {
            line: Vec::new(alloc),
            stripes: Stripes::of(alloc, columns, first)?,
            before: Vec::from_slice(alloc, first)?,
        })
    }

    /// The line of an event, which moved these signals, and behind which the signals have these numbers.
    pub fn set_row(
        &mut self,
        board: &Board,
        time: u64,
        event: &Event,
        moved: &[usize],
        now: &[Int],
    ) -> Result<(), NoMemory>
        requires shows { Shows board.now.columns self.old.before.items self.old }
        requires count { length self.old.before.items ≡ length now.now }
        requires all { (s : ℕ) → at self.old.before.items s ≢ at now.now s → is_among moved.now s ≡ true }
        requires signals { AllByRecursion (λ s. s < length now.now) moved.now }
        ensures line { OnOk result (self.new.line.items ≡ row_line board.now (record { time = time; event = event.now }) self.old.before.items now.now) }
        ensures shows { OnOk result (Shows board.now.columns now.now self.new) }
    {
        self.line.clear();
        push_front(&mut self.line, board, time, event, self.before.as_slice())?;
        self.stripes.push_rest(&mut self.line, moved, now)?;
        follow(&mut self.before, moved, now);
        Ok(())
    }
}

// The numbers of these signals, which have moved, are the new ones.
fn follow(before: &mut Vec<Int>, moved: &[usize], now: &[Int])
    requires count { length before.old.items ≡ length now.now }
    requires all { (s : ℕ) → at before.old.items s ≢ at now.now s → is_among moved.now s ≡ true }
    ensures { before.new.items ≡ now.now }
{
    for s in moved {
        if *s < before.len() {
            before[*s] = now[*s];
        }
    }
}
