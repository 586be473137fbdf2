// The laws of the moments at which clocks toggle. The functions do nothing: their clauses are the laws.
ghost use Rattle.calendar.specs.Laws.{TestsAreToggles, PhasesAreFirst, NextIsAHalfAway, LastIsLast, NextIsOne, NoneIsPassed, TurnsAreInOrder, DueIsMoment, DueHaveClocks, DueAreSome, DueAreAnEvent};

/// A clock toggles first at its phase and then each half later until the limit, so that its moments are those of its turns.
/// Behind a moment of several clocks there is one next moment at most, and from one to the next none is passed over.
pub fn moments_are_toggles()
    ensures tests { TestsAreToggles }
    ensures first { PhasesAreFirst }
    ensures next { NextIsAHalfAway }
    ensures last { LastIsLast }
    ensures turns { TurnsAreInOrder }
    ensures one { NextIsOne }
    ensures none_passed { NoneIsPassed }
{}

/// Due at a moment are the domains with a clock that toggles then, and no others. There are some exactly at the moments of the
/// clocks, and then they are an event that a design takes.
pub fn due_are_events()
    ensures moment { DueIsMoment }
    ensures clocks { DueHaveClocks }
    ensures some { DueAreSome }
    ensures event { DueAreAnEvent }
{}
