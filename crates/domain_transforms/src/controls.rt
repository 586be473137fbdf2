// The controls of domains, and their new names.
ghost use Rattle.std.specs.Prelude.{◌≡◌, IfOk};
ghost use Rattle.domain_transforms.specs.Controlled.{control_of, is_renamed, name_after};
ghost use Rattle.domain_transforms.specs.Enabling.{side_control};

use crate::copies::copied_text;
use amh_host::{Items, NoMemory, Text};
use design_ir::{ExprId, Side};
use std::alloc::Global;

/// What decides on the registers and memory ports of a domain.
#[derive(Drop)]
pub struct Control {
    pub domain: Text,
    pub condition: ExprId,
}

/// A control for each of some domains. Of two for one domain the first counts.
pub type Controls = Items<Control>;

/// The name of a domain, and the one that it gets.
#[derive(Drop)]
pub struct NamePair {
    pub before: Text,
    pub after: Text,
}

/// New names for some domains. Of two for one domain the first counts.
pub type NamePairs = Items<NamePair>;

/// The control of the domain with a name.
pub(crate) fn control_of(controls: &Controls, name: &str) -> Option<ExprId>
    ensures { result ≡ control_of controls.now name.now }
{
    for control in controls.as_slice() {
        if control.domain.is(name) {
            return Some(control.condition);
        }
    }
    None
}

/// The control of a side's domain.
pub(crate) fn side_control(controls: &Controls, side: &Side) -> Option<ExprId>
    ensures { result ≡ side_control controls.now side.now }
{
    match side {
        Side::Comb => None,
        Side::Clocked(name) => control_of(controls, name.as_str()),
    }
}

/// Whether a domain gets another name.
pub(crate) fn is_renamed(names: &NamePairs, name: &str) -> bool
    ensures { result ≡ is_renamed names.now name.now }
{
    for pair in names.as_slice() {
        if pair.before.is(name) {
            return true;
        }
    }
    false
}

/// The name that a domain gets, or its own.
pub(crate) fn name_after(alloc: Global, names: &NamePairs, name: &Text) -> Result<Text, NoMemory>
    ensures { IfOk result (λ t. t ≡ name_after names.now name.now) }
{
    for pair in names.as_slice() {
        if pair.before.is(name.as_str()) {
            return copied_text(alloc, &pair.after);
        }
    }
    copied_text(alloc, name)
}
