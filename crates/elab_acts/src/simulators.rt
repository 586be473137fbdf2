// `Simulator(x)` and its calls.
ghost use Rattle.std.specs.Prelude.{◌≡◌, map, string_bytes, Some, None, pos, is_some};
ghost use Rattle.std.specs.Option.{option_copied};
ghost use Rattle.py_heap.specs.Heaps.{seen, func_at};
ghost use Rattle.elab_store.specs.Seen.{called_of};
ghost use Rattle.elab_store.specs.Held.{held_of, Gives};
ghost use Rattle.elab_acts.specs.Simulators.{simulated, simulator_called, call_named, simulator_attribute, whole_seconds, seconds, time_meant, clock_once, clock_keyword, clock_keywords, clock_placed, clock_arguments, given_time, phase_said, clock_domain, clock_from, bench_once, bench_keyword, bench_keywords, bench_placed, bench_arguments, is_def, is_defined, bench_function, bench_said, bench_from, run_called, until_placed, is_vcd_keyword, are_vcd_keywords, vcd_placed, open_called, simulator_part_called, vcd_passed};

use amh_bits::Int;
use amh_host::{Place, Text};
use elab_components::signals::signal_reset_less;
use elab_store::calls::Called;
use elab_store::kept::{Kept, SimulatorPart};
use elab_store::names::is_text;
use elab_store::simulation::{ClockCall, RunEnd, Testbench};
use elab_store::store::Elaboration;
use lists::NoMemory;
use py_frames::request::{Answer, Cause};
use py_heap::{Frozen, Heap};
use py_values::{Code, FuncId, Val};

/// A file has so many testbenches at most.
const MOST_TESTBENCHES: usize = 64;

/// The arguments of `sim.add_clock`, where they are given.
#[derive(Clone, Copy, PartialEq, Eq, Drop)]
pub struct ClockArguments {
    pub period: Option<Val>,
    pub phase: Option<Val>,
    pub domain: Option<Val>,
}

/// The arguments of `sim.add_testbench`, where they are given.
#[derive(Clone, Copy, PartialEq, Eq, Drop)]
pub struct BenchArguments {
    pub function: Option<Val>,
    pub background: Option<Val>,
}

// ---- the simulator

/// `Simulator(x)`, once.
pub fn make_simulator(elaboration: &mut Elaboration, call: &Called) -> Result<Answer, NoMemory>
    ensures { Gives result elaboration.new (simulator_called (called_of call.now) (held_of elaboration.old)) }
{
    match call.placed {
        [v] if call.keywords.is_empty() => simulate(elaboration, *v),
        _ => elaboration.refuse(Cause::Raised),
    }
}

fn simulate(elaboration: &mut Elaboration, v: Val) -> Result<Answer, NoMemory>
    ensures { Gives result elaboration.new (simulated v elaboration.old.store.simulation.subject (held_of elaboration.old)) }
{
    match elaboration.store.simulation().subject() {
        Some(_) => elaboration.refuse(Cause::Raised),
        None => {
            elaboration.store.simulate(v);
            elaboration.give_kept(Kept::OfSimulator(SimulatorPart::Whole))
        }
    }
}

fn call_named(name: &str) -> Option<SimulatorPart>
    ensures { result ≡ call_named name.now }
{
    if is_text(name, "add_clock") {
        Some(SimulatorPart::AddClock)
    } else if is_text(name, "add_testbench") {
        Some(SimulatorPart::AddTestbench)
    } else if is_text(name, "run") {
        Some(SimulatorPart::Run)
    } else if is_text(name, "run_until") {
        Some(SimulatorPart::RunUntil)
    } else if is_text(name, "write_vcd") {
        Some(SimulatorPart::WriteVcd)
    } else {
        None
    }
}

/// An attribute of the simulator, which is there to be called.
pub fn simulator_attribute(
    elaboration: &mut Elaboration,
    part: SimulatorPart,
    name: &str,
) -> Result<Answer, NoMemory>
    ensures { Gives result elaboration.new (simulator_attribute part name.now (held_of elaboration.old)) }
{
    let SimulatorPart::Whole = part else {
        return elaboration.refuse(Cause::Raised);
    };
    match call_named(name) {
        Some(part) => elaboration.give_kept(Kept::OfSimulator(part)),
        None => elaboration.refuse(Cause::Raised),
    }
}

// ---- times

// So many seconds, as femtoseconds below 2^63.
fn whole_seconds(n: u128) -> Option<u64>
    ensures { result ≡ whole_seconds n }
{
    if n > 9_223 {
        return None;
    }
    Some(n as u64 * 1_000_000_000_000_000)
}

fn seconds(n: Int) -> Option<u64>
    ensures { result ≡ seconds n }
{
    if n.negative {
        return None;
    }
    whole_seconds(n.size)
}

/// A time itself, and an integer or a boolean as so many seconds, in femtoseconds.
pub fn time_meant(v: Val) -> Option<u64>
    ensures { result ≡ time_meant v }
{
    match v {
        Val::Time(t) => Some(t),
        Val::Int(n) => seconds(n.int()),
        Val::Bool(b) => {
            if b {
                whole_seconds(1)
            } else {
                whole_seconds(0)
            }
        }
        _ => None,
    }
}

fn given_time(given: Option<Val>) -> Option<u64>
    ensures { result ≡ given_time given }
{
    match given {
        Some(v) => time_meant(v),
        None => None,
    }
}

// ---- clocks

// An argument is given once.
fn clock_once(before: Option<Val>, args: ClockArguments) -> Option<ClockArguments>
    ensures { result ≡ clock_once before args }
{
    match before {
        None => Some(args),
        Some(_) => None,
    }
}

fn clock_keyword(name: &str, v: Val, args: ClockArguments) -> Option<ClockArguments>
    ensures { result ≡ clock_keyword name.now v args }
{
    if is_text(name, "period") {
        clock_once(
            args.period,
            ClockArguments {
                period: Some(v),
                ..args
            },
        )
    } else if is_text(name, "phase") {
        clock_once(
            args.phase,
            ClockArguments {
                phase: Some(v),
                ..args
            },
        )
    } else if is_text(name, "domain") {
        clock_once(
            args.domain,
            ClockArguments {
                domain: Some(v),
                ..args
            },
        )
    } else {
        None
    }
}

// Arguments by keyword, each with its value.
fn clock_keywords(keywords: &[String], vals: &[Val], args: ClockArguments) -> Option<ClockArguments>
    ensures { result ≡ clock_keywords (map string_bytes keywords.now) vals.now args }
{
    let mut args = args;
    for i in 0..keywords.len() {
        if i >= vals.len() {
            return None;
        }
        args = clock_keyword(keywords[i].as_str(), vals[i], args)?;
    }
    Some(args)
}

// The arguments by their places: the period alone may be given so.
fn clock_placed(placed: &[Val]) -> Option<ClockArguments>
    ensures { result ≡ clock_placed placed.now }
{
    let period = match placed {
        [] => None,
        [period] => Some(*period),
        _ => return None,
    };
    Some(ClockArguments {
        period,
        phase: None,
        domain: None,
    })
}

fn clock_arguments(call: &Called) -> Option<ClockArguments>
    ensures { result ≡ clock_arguments (called_of call.now) }
{
    match clock_placed(call.placed) {
        Some(args) => clock_keywords(call.keywords, call.keyword_vals, args),
        None => None,
    }
}

// The first rise, where it is not given in the middle of the period.
fn phase_said(period: u64, given: Option<Val>) -> Option<u64>
    ensures { result ≡ phase_said period given }
{
    match given {
        None | Some(Val::None) => Some(period / 2),
        Some(v) => time_meant(v),
    }
}

fn clock_domain<'a>(heap: &'a Heap, frozen: &'a Frozen, given: Option<Val>) -> Option<&'a str>
    ensures { option_copied result ≡ clock_domain (seen frozen.now heap.now) given }
{
    match given {
        None => Some("sync"),
        Some(Val::Str(x)) => Some(heap.text(frozen, x)),
        _ => None,
    }
}

// `sim.add_clock(..)`.
fn add_clock(
    elaboration: &mut Elaboration,
    heap: &Heap,
    frozen: &Frozen,
    args: Option<ClockArguments>,
    place: Place,
) -> Result<Answer, NoMemory>
    ensures { Gives result elaboration.new (clock_from (seen frozen.now heap.now) args place (held_of elaboration.old)) }
{
    let Some(args) = args else {
        return elaboration.refuse(Cause::Raised);
    };
    let Some(period) = given_time(args.period) else {
        return elaboration.refuse(Cause::Raised);
    };
    let Some(phase) = phase_said(period, args.phase) else {
        return elaboration.refuse(Cause::Raised);
    };
    let Some(name) = clock_domain(heap, frozen, args.domain) else {
        return elaboration.refuse(Cause::Raised);
    };
    let mut domain = Text::new(elaboration.alloc);
    domain.push(name)?;
    elaboration.store.add_clock(ClockCall {
        domain,
        period,
        phase,
        place,
    })?;
    elaboration.give(Val::None)
}

// ---- testbenches

// An argument is given once.
fn bench_once(before: Option<Val>, args: BenchArguments) -> Option<BenchArguments>
    ensures { result ≡ bench_once before args }
{
    match before {
        None => Some(args),
        Some(_) => None,
    }
}

fn bench_keyword(name: &str, v: Val, args: BenchArguments) -> Option<BenchArguments>
    ensures { result ≡ bench_keyword name.now v args }
{
    if is_text(name, "f") {
        bench_once(
            args.function,
            BenchArguments {
                function: Some(v),
                ..args
            },
        )
    } else if is_text(name, "background") {
        bench_once(
            args.background,
            BenchArguments {
                background: Some(v),
                ..args
            },
        )
    } else {
        None
    }
}

// Arguments by keyword, each with its value.
fn bench_keywords(keywords: &[String], vals: &[Val], args: BenchArguments) -> Option<BenchArguments>
    ensures { result ≡ bench_keywords (map string_bytes keywords.now) vals.now args }
{
    let mut args = args;
    for i in 0..keywords.len() {
        if i >= vals.len() {
            return None;
        }
        args = bench_keyword(keywords[i].as_str(), vals[i], args)?;
    }
    Some(args)
}

// The arguments by their places: the function alone may be given so.
fn bench_placed(placed: &[Val]) -> Option<BenchArguments>
    ensures { result ≡ bench_placed placed.now }
{
    let function = match placed {
        [] => None,
        [function] => Some(*function),
        _ => return None,
    };
    Some(BenchArguments {
        function,
        background: None,
    })
}

fn bench_arguments(call: &Called) -> Option<BenchArguments>
    ensures { result ≡ bench_arguments (called_of call.now) }
{
    match bench_placed(call.placed) {
        Some(args) => bench_keywords(call.keywords, call.keyword_vals, args),
        None => None,
    }
}

fn is_def(code: &Code) -> bool
    ensures { result ≡ is_def code.now }
{
    match code {
        Code::Def(_) => true,
        Code::Builtin(_) => false,
    }
}

// Whether a `def` made a function.
fn is_defined(heap: &Heap, frozen: &Frozen, f: FuncId) -> bool
    ensures { result ≡ is_defined (func_at (seen frozen.now heap.now) f.0) }
{
    match heap.func(frozen, f) {
        Some(f) => is_def(&f.code),
        None => false,
    }
}

fn bench_function(heap: &Heap, frozen: &Frozen, given: Option<Val>) -> Option<FuncId>
    ensures { result ≡ bench_function (seen frozen.now heap.now) given }
{
    match given {
        Some(Val::Func(f)) if is_defined(heap, frozen, f) => Some(f),
        _ => None,
    }
}

// `sim.add_testbench(..)`.
fn add_testbench(
    elaboration: &mut Elaboration,
    heap: &Heap,
    frozen: &Frozen,
    args: Option<BenchArguments>,
) -> Result<Answer, NoMemory>
    ensures { Gives result elaboration.new (bench_from (seen frozen.now heap.now) args (held_of elaboration.old)) }
{
    let Some(args) = args else {
        return elaboration.refuse(Cause::Raised);
    };
    let Some(function) = bench_function(heap, frozen, args.function) else {
        return elaboration.refuse(Cause::Raised);
    };
    match signal_reset_less(heap, frozen, args.background) {
        Some(background) => put_testbench(
            elaboration,
            Testbench {
                function,
                background,
            },
        ),
        None => elaboration.refuse(Cause::Raised),
    }
}

fn put_testbench(elaboration: &mut Elaboration, testbench: Testbench) -> Result<Answer, NoMemory>
    ensures { Gives result elaboration.new (bench_said (Some testbench.function) (Some testbench.background) (held_of elaboration.old)) }
{
    if elaboration.store.simulation().testbenches().len() < MOST_TESTBENCHES {
        elaboration.store.add_testbench(testbench)?;
        elaboration.give(Val::None)
    } else {
        elaboration.refuse(Cause::Limit)
    }
}

// ---- runs

// `sim.run()`.
fn run(elaboration: &mut Elaboration, call: &Called) -> Result<Answer, NoMemory>
    ensures { Gives result elaboration.new (run_called (called_of call.now) (held_of elaboration.old)) }
{
    if !call.placed.is_empty() || !call.keywords.is_empty() {
        return elaboration.refuse(Cause::Raised);
    }
    elaboration.store.end_run(RunEnd::WithTestbenches);
    elaboration.give(Val::None)
}

// `sim.run_until(t)`.
fn run_until(elaboration: &mut Elaboration, call: &Called) -> Result<Answer, NoMemory>
    ensures { Gives result elaboration.new (until_placed (called_of call.now).placed (called_of call.now).keywords (held_of elaboration.old)) }
{
    match call.placed {
        [v] if call.keywords.is_empty() => match time_meant(*v) {
            Some(t) => {
                elaboration.store.end_run(RunEnd::Until(t));
                elaboration.give(Val::None)
            }
            None => elaboration.refuse(Cause::Raised),
        },
        _ => elaboration.refuse(Cause::Raised),
    }
}

// ---- `sim.write_vcd(..)`

fn is_vcd_keyword(name: &str) -> bool
    ensures { result ≡ is_vcd_keyword name.now }
{
    is_text(name, "gtkw_file") || is_text(name, "traces")
}

// One of the two keywords, or both.
fn are_vcd_keywords(keywords: &[String]) -> bool
    ensures { result ≡ are_vcd_keywords (map string_bytes keywords.now) }
{
    match keywords {
        [] => true,
        [name] => is_vcd_keyword(name.as_str()),
        [first, second] => {
            is_vcd_keyword(first.as_str())
                && is_vcd_keyword(second.as_str())
                && !is_text(first.as_str(), second.as_str())
        }
        _ => false,
    }
}

fn write_vcd(elaboration: &mut Elaboration, call: &Called) -> Result<Answer, NoMemory>
    ensures { Gives result elaboration.new (vcd_placed (called_of call.now).placed (are_vcd_keywords (called_of call.now).keywords) (held_of elaboration.old)) }
{
    match call.placed {
        [_] if are_vcd_keywords(call.keywords) => {
            elaboration.give_kept(Kept::OfSimulator(SimulatorPart::Vcd))
        }
        _ => elaboration.refuse(Cause::Raised),
    }
}

// ---- calls

/// The call of a part of the simulator: none behind that of a run.
pub fn call_simulator_part(
    elaboration: &mut Elaboration,
    heap: &Heap,
    frozen: &Frozen,
    part: SimulatorPart,
    call: &Called,
    place: Place,
) -> Result<Answer, NoMemory>
    ensures { Gives result elaboration.new (simulator_part_called (seen frozen.now heap.now) part (called_of call.now) place (held_of elaboration.old)) }
{
    if elaboration.store.simulation().run_end().is_some() {
        return elaboration.refuse(Cause::Raised);
    }
    call_open(elaboration, heap, frozen, part, call, place)
}

fn call_open(
    elaboration: &mut Elaboration,
    heap: &Heap,
    frozen: &Frozen,
    part: SimulatorPart,
    call: &Called,
    place: Place,
) -> Result<Answer, NoMemory>
    ensures { Gives result elaboration.new (open_called (seen frozen.now heap.now) part (called_of call.now) place (held_of elaboration.old)) }
{
    match part {
        SimulatorPart::AddClock => add_clock(
            elaboration,
            heap,
            frozen,
            clock_arguments(call),
            place,
        ),
        SimulatorPart::AddTestbench => {
            add_testbench(elaboration, heap, frozen, bench_arguments(call))
        }
        SimulatorPart::Run => run(elaboration, call),
        SimulatorPart::RunUntil => run_until(elaboration, call),
        SimulatorPart::WriteVcd => write_vcd(elaboration, call),
        SimulatorPart::Whole | SimulatorPart::Vcd => elaboration.refuse(Cause::Raised),
    }
}

/// A `with` over what `sim.write_vcd(..)` gives begins or ends.
pub fn pass_vcd(elaboration: &mut Elaboration, part: SimulatorPart) -> Result<Answer, NoMemory>
    ensures { Gives result elaboration.new (vcd_passed part (held_of elaboration.old)) }
{
    match part {
        SimulatorPart::Vcd => elaboration.give(Val::None),
        _ => elaboration.refuse(Cause::Raised),
    }
}
