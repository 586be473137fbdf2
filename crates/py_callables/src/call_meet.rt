// How the arguments of a call meet the parameters of a function.
ghost use Rattle.std.specs.Prelude.{◌≡◌, ◌∷◌, ◌++◌, ◌≤◌, [], map, length, drop, IfOk, List, Option};
ghost use Rattle.std.specs.Option.{option_map};
ghost use Rattle.amh_host.specs.declared.place.Place.{Place};
ghost use Rattle.py_tree.specs.Seen.{tree};
ghost use Rattle.py_tree.specs.Tree.{Perhaps, perhaps};
ghost use Rattle.py_tree.specs.Programs.{parameter_of};
ghost use Rattle.py_tree.specs.Steps.{Parameter, Named};
ghost use Rattle.py_frames.specs.Functions.{is_given, taken_keyword, parameters_met, named_val, by_keyword, default_value, defaults_behind};
ghost use Rattle.py_frames.specs.declared.request.NamedVal.{NamedVal};
ghost use Rattle.py_callables.specs.Meeting.{meeting_on, if_met, behind_met};

use amh_host::{NoMemory, Text};
use py_frames::keyword::is_given;
use py_frames::request::{NamedVal, NamedVals};
use py_tree::{Expr, Name, Param};
use py_values::Val;
use std::alloc::Global;

/// How far the parameters of a function have met arguments.
#[derive(Drop)]
pub struct Meeting {
    /// How many arguments in order were met.
    pub next: usize,
    /// How many defaults belong to the parameters so far.
    pub default: usize,
    /// The arguments by keyword that were not met.
    pub keywords: NamedVals,
    /// The parameters so far, with their values.
    pub met: NamedVals,
}

// A value under a name.
fn named(alloc: Global, name: &str, val: Val) -> Result<NamedVal, NoMemory>
    ensures { IfOk result (λ x. x ≡ named_val name.now val) }
{
    let mut text = Text::new(alloc);
    match text.push(name) {
        Ok(()) => Ok(NamedVal { name: text, val }),
        Err(_) => Err(NoMemory),
    }
}

// The first argument by a keyword, and the others.
#[tactic(auto, using(crate::proofs::MeetLaws::taken_rules))]
fn taken_keyword(
    alloc: Global,
    name: &str,
    keywords: &[NamedVal],
) -> Result<Option<(Val, NamedVals)>, NoMemory>
    ensures { IfOk result (λ taken. taken ≡ taken_keyword name.now [] keywords.now) }
{
    let mut found = None;
    let mut others = NamedVals::new(alloc);
    for x in keywords {
        if found.is_none() && x.name.is(name) {
            found = Some(x.val);
        } else {
            let Ok(other) = named(alloc, x.name.as_str(), x.val) else {
                return Err(NoMemory);
            };
            let Ok(()) = others.push(other) else {
                return Err(NoMemory);
            };
        }
    }
    match found {
        Some(v) => Ok(Some((v, others))),
        None => Ok(None),
    }
}

impl Meeting {
    // A parameter is met with a value.
    fn meet(&mut self, alloc: Global, name: &Name, val: Val) -> Result<(), NoMemory>
        ensures met { IfOk result (λ _. self.new ≡ record self.old { met = self.old.met ++ named_val name.now val ∷ [] }) }
        ensures next { self.new.next ≡ self.old.next }
        ensures default { self.new.default ≡ self.old.default }
    {
        let Ok(x) = named(alloc, name.as_str(), val) else {
            return Err(NoMemory);
        };
        match self.met.push(x) {
            Ok(()) => Ok(()),
            Err(_) => Err(NoMemory),
        }
    }

    // A parameter behind the arguments in order is met by keyword, or else with its default.
    #[tactic(auto, using(crate::proofs::MeetLaws::keyword_rules))]
    fn meet_keyword(
        &mut self,
        alloc: Global,
        name: &Name,
        default: Option<Val>,
    ) -> Result<bool, NoMemory>
        ensures met { IfOk result (λ b. (rest : List NamedVal → Option (List NamedVal)) → behind_met self.old.met (by_keyword name.now (taken_keyword name.now [] self.old.keywords) default self.old.keywords rest) ≡ if_met b (behind_met self.new.met (rest self.new.keywords))) }
        ensures next { self.new.next ≡ self.old.next }
        ensures default { self.new.default ≡ self.old.default }
    {
        let Ok(taken) = taken_keyword(alloc, name.as_str(), self.keywords.as_slice()) else {
            return Err(NoMemory);
        };
        let val = match taken {
            Some((val, others)) => {
                self.keywords = others;
                val
            }
            None => match default {
                Some(val) => val,
                None => return Ok(false),
            },
        };
        match self.meet(alloc, name, val) {
            Ok(()) => Ok(true),
            Err(_) => Err(NoMemory),
        }
    }

    // A parameter that has a name is met by the next argument in order, or else by keyword.
    #[tactic(auto, using(crate::proofs::MeetLaws::named_rules))]
    fn meet_named(
        &mut self,
        alloc: Global,
        name: &Name,
        default: &Option<Expr>,
        args: &[Val],
        defaults: &[Val],
    ) -> Result<bool, NoMemory>
        requires next { self.old.next ≤ length args.now }
        requires default { self.old.default ≤ length defaults.now }
        ensures met { IfOk result (λ b. (p : Place) (a : Perhaps) (ps : List Parameter) → meeting_on self.old args.now defaults.now (Named p name.now a (perhaps (option_map tree default.now)) ∷ ps) ≡ if_met b (meeting_on self.new args.now defaults.now ps)) }
        ensures next { self.new.next ≤ length args.now }
        ensures default { self.new.default ≤ length defaults.now }
    {
        let given = default_at(default, defaults, self.default);
        self.default = default_behind(default, defaults, self.default);
        if self.next == args.len() {
            return self.meet_keyword(alloc, name, given);
        }
        if is_given(name.as_str(), self.keywords.as_slice()) {
            return Ok(false);
        }
        let val = args[self.next];
        self.next += 1;
        match self.meet(alloc, name, val) {
            Ok(()) => Ok(true),
            Err(_) => Err(NoMemory),
        }
    }

    // One parameter more; whether it is met.
    #[tactic(auto, using(crate::proofs::MeetLaws::star_rules))]
    fn take(
        &mut self,
        alloc: Global,
        param: &Param,
        args: &[Val],
        defaults: &[Val],
    ) -> Result<bool, NoMemory>
        requires next { self.old.next ≤ length args.now }
        requires default { self.old.default ≤ length defaults.now }
        ensures met { IfOk result (λ b. (ps : List Parameter) → meeting_on self.old args.now defaults.now (parameter_of param.now ∷ ps) ≡ if_met b (meeting_on self.new args.now defaults.now ps)) }
        ensures next { self.new.next ≤ length args.now }
        ensures default { self.new.default ≤ length defaults.now }
    {
        match param {
            Param::Star(_) if self.next < args.len() => Ok(false),
            Param::Star(_) => Ok(true),
            Param::Named { name, default, .. } => self.meet_named(
                alloc, name, default, args, defaults,
            ),
        }
    }
}

// The default of a parameter, where there is one.
#[tactic(auto, using(crate::proofs::MeetLaws::default_rules))]
fn default_at(default: &Option<Expr>, defaults: &[Val], at: usize) -> Option<Val>
    requires { at ≤ length defaults.now }
    ensures { result ≡ default_value (perhaps (option_map tree default.now)) (drop at defaults.now) }
{
    match default {
        Some(_) if at < defaults.len() => Some(defaults[at]),
        _ => None,
    }
}

// How many defaults belong to the parameters so far, with one more.
#[tactic(auto, using(crate::proofs::MeetLaws::behind_rules))]
fn default_behind(default: &Option<Expr>, defaults: &[Val], at: usize) -> usize
    requires { at ≤ length defaults.now }
    ensures behind { drop result defaults.now ≡ defaults_behind (perhaps (option_map tree default.now)) (drop at defaults.now) }
    ensures within { result ≤ length defaults.now }
{
    match default {
        Some(_) if at < defaults.len() => at + 1,
        _ => at,
    }
}

/// The parameters with their values; none where an argument is too many, is given twice or lacks.
#[tactic(auto, using(crate::proofs::MeetLaws::meeting_rules))]
pub fn parameters_met(
    alloc: Global,
    params: &[Param],
    args: &[Val],
    keywords: NamedVals,
    defaults: &[Val],
) -> Result<Option<NamedVals>, NoMemory>
    ensures { IfOk result (λ met. met ≡ parameters_met (map parameter_of params.now) args.now keywords defaults.now) }
{
    let mut meeting = Meeting {
        next: 0,
        default: 0,
        keywords,
        met: NamedVals::new(alloc),
    };
    for param in params {
        let Ok(is_met) = meeting.take(alloc, param, args, defaults) else {
            return Err(NoMemory);
        };
        if !is_met {
            return Ok(None);
        }
    }
    if meeting.next < args.len() {
        return Ok(None);
    }
    if meeting.keywords.len() > 0 {
        return Ok(None);
    }
    Ok(Some(meeting.met))
}
