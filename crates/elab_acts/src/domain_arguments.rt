// The arguments of `ClockDomain(..)`.
ghost use Rattle.std.specs.Prelude.{◌≡◌, map, string_bytes, option_and_then};
ghost use Rattle.py_heap.specs.Heaps.{seen};
ghost use Rattle.elab_store.specs.Seen.{called_of};
ghost use Rattle.elab_acts.specs.ClockDomains.{domain_once, with_domain_keyword, with_domain_keywords, placed_name, domain_arguments, edge_falls, is_falling, resets_at_once, sampling_said, domain_sampling};

use elab_components::signals::signal_reset_less;
use elab_store::calls::Called;
use elab_store::names::is_text;
use py_heap::{Frozen, Heap};
use py_values::Val;

/// The arguments of a clock domain, where they are given.
#[derive(Clone, Copy, PartialEq, Eq, Drop)]
pub struct DomainArguments {
    pub name: Option<Val>,
    pub clk_edge: Option<Val>,
    pub reset_less: Option<Val>,
    pub async_reset: Option<Val>,
}

/// When the registers of a clock domain sample, and how they are reset.
#[derive(Clone, Copy, PartialEq, Eq, Drop)]
pub struct Sampling {
    pub falling: bool,
    pub reset_less: bool,
    pub async_reset: bool,
}

// An argument is given once.
fn domain_once(before: Option<Val>, args: DomainArguments) -> Option<DomainArguments>
    ensures { result ≡ domain_once before args }
{
    match before {
        None => Some(args),
        Some(_) => None,
    }
}

fn with_domain_keyword(name: &str, v: Val, args: DomainArguments) -> Option<DomainArguments>
    ensures { result ≡ with_domain_keyword name.now v args }
{
    if is_text(name, "name") {
        domain_once(
            args.name,
            DomainArguments {
                name: Some(v),
                ..args
            },
        )
    } else if is_text(name, "clk_edge") {
        domain_once(
            args.clk_edge,
            DomainArguments {
                clk_edge: Some(v),
                ..args
            },
        )
    } else if is_text(name, "reset_less") {
        domain_once(
            args.reset_less,
            DomainArguments {
                reset_less: Some(v),
                ..args
            },
        )
    } else if is_text(name, "async_reset") {
        domain_once(
            args.async_reset,
            DomainArguments {
                async_reset: Some(v),
                ..args
            },
        )
    } else {
        None
    }
}

// Arguments by keyword, each with its value.
fn with_domain_keywords(
    keywords: &[String],
    vals: &[Val],
    args: DomainArguments,
) -> Option<DomainArguments>
    ensures { result ≡ with_domain_keywords (map string_bytes keywords.now) vals.now args }
{
    let mut args = args;
    for i in 0..keywords.len() {
        if i >= vals.len() {
            return None;
        }
        args = with_domain_keyword(keywords[i].as_str(), vals[i], args)?;
    }
    Some(args)
}

// The arguments by their places: the name alone may be given so.
fn placed_name(placed: &[Val]) -> Option<DomainArguments>
    ensures { result ≡ placed_name placed.now }
{
    let name = match placed {
        [] => None,
        [name] => Some(*name),
        _ => return None,
    };
    Some(DomainArguments {
        name,
        clk_edge: None,
        reset_less: None,
        async_reset: None,
    })
}

/// The arguments of a call, where they are those of a clock domain.
pub fn domain_arguments(call: &Called) -> Option<DomainArguments>
    ensures { result ≡ domain_arguments (called_of call.now) }
{
    match placed_name(call.placed) {
        Some(args) => with_domain_keywords(call.keywords, call.keyword_vals, args),
        None => None,
    }
}

// ---- when registers sample, and how they are reset

fn edge_falls(edge: &str) -> Option<bool>
    ensures { result ≡ edge_falls edge.now }
{
    if is_text(edge, "pos") {
        Some(false)
    } else if is_text(edge, "neg") {
        Some(true)
    } else {
        None
    }
}

fn is_falling(heap: &Heap, frozen: &Frozen, given: Option<Val>) -> Option<bool>
    ensures { result ≡ is_falling (seen frozen.now heap.now) given }
{
    match given {
        None => Some(false),
        Some(Val::Str(x)) => edge_falls(heap.text(frozen, x)),
        _ => None,
    }
}

// A reset acts at once where this is `True`, and at edges where it is `False`.
fn resets_at_once(given: Option<Val>) -> Option<bool>
    ensures { result ≡ resets_at_once given }
{
    match given {
        None => Some(false),
        Some(Val::Bool(b)) => Some(b),
        _ => None,
    }
}

/// When registers sample and how they are reset, by these arguments.
pub fn domain_sampling(heap: &Heap, frozen: &Frozen, args: DomainArguments) -> Option<Sampling>
    ensures { result ≡ domain_sampling (seen frozen.now heap.now) args }
{
    let Some(falling) = is_falling(heap, frozen, args.clk_edge) else {
        return None;
    };
    let Some(reset_less) = signal_reset_less(heap, frozen, args.reset_less) else {
        return None;
    };
    match resets_at_once(args.async_reset) {
        Some(at_once) => Some(Sampling {
            falling,
            reset_less,
            async_reset: at_once && !reset_less,
        }),
        None => None,
    }
}
