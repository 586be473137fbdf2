// What stands in a module under a name.
ghost use Rattle.std.specs.Prelude.{◌≡◌};
ghost use Rattle.std.specs.Option.{option_copied};
ghost use Rattle.rtlil_text.specs.Sources.{wire_of, parameter_of, end_of, field_of, port_field};

use crate::cell::{RtlCell, RtlValue};
use crate::module::{RtlModule, RtlWire, WirePort};
use crate::sig::SigSpec;

impl RtlModule {
    /// The wire with this id, or `None` where no wire has it.
    pub fn wire(&self, name: &str) -> Option<&RtlWire>
        ensures { option_copied result ≡ wire_of self.now name.now }
    {
        self.wires.as_slice().iter().find(|w| w.id.is(name))
    }
}

impl RtlCell {
    /// The value of the parameter with this name, or `None` where the cell has no such parameter.
    pub fn parameter(&self, name: &str) -> Option<&RtlValue>
        ensures { option_copied result ≡ parameter_of self.now name.now }
    {
        self.parameters
            .as_slice()
            .iter()
            .find(|p| p.name.is(name))
            .map(|p| &p.value)
    }

    /// What is connected to the end with this name, or `None` where the cell has no such end.
    pub fn end(&self, name: &str) -> Option<&SigSpec>
        ensures { option_copied result ≡ end_of self.now name.now }
    {
        self.ends
            .as_slice()
            .iter()
            .find(|e| e.name.is(name))
            .map(|e| &e.spec)
    }
}

impl RtlWire {
    /// The number in a field: `width` in bits, and `input` or `output` with the port's number where the wire is such
    /// a port. No other field has one.
    pub fn field(&self, name: &str) -> Option<u32>
        ensures { result ≡ field_of self.now name.now }
    {
        if name == "width" {
            return Some(self.width);
        }
        self.port.field(name)
    }
}

impl WirePort {
    fn field(&self, name: &str) -> Option<u32>
        ensures { result ≡ port_field self.now name.now }
    {
        match self {
            WirePort::Input(n) if name == "input" => Some(*n),
            WirePort::Output(n) if name == "output" => Some(*n),
            _ => None,
        }
    }
}
