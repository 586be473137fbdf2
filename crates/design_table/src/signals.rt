// The signals of a design of the table, and its domains.
ghost use Rattle.std.specs.Prelude.{◌≡◌, IfOk};

use crate::form::signal;
use crate::numbers::shape;
use crate::pool::Sheet;
use amh_bits::Int;
use amh_host::{Items, NoMemory, Text};
use design_ir::{Domain, Domains, ExprId, Port, Ports, Sig, SigId};
use shape_rules::Shape;
use std::alloc::Global;
use table_text::{Stop, integer};

/// Signals with their expressions so far. Each signal is a port of its name. Its side is 0 where combinational statements
/// drive it, and behind that come the domains in order.
#[derive(Drop)]
pub struct Signals {
    pub sheet: Sheet,
    pub ports: Ports,
    pub sides: Vec<usize>,
    pub domains: Domains,
}

// Where a signal is driven.
#[derive(Clone, Copy, PartialEq, Eq)]
enum Driver {
    Input,
    Side(usize),
}

impl Signals {
    /// The clock alone.
    pub fn new(alloc: Global) -> Result<Signals, Stop> {
        let mut signals = Signals {
            sheet: Sheet::new(alloc),
            ports: Items::new(alloc),
            sides: Vec::new(alloc),
            domains: Items::new(alloc),
        };
        let bit = Shape {
            width: 1,
            signed: false,
        };
        signals.add(alloc, "clk", bit, Driver::Input, Int::of_u128(0))?;
        Ok(signals)
    }

    // One signal more.
    fn add(
        &mut self,
        alloc: Global,
        name: &str,
        shape: Shape,
        driver: Driver,
        init: Int,
    ) -> Result<(), Stop> {
        let sig = self.sheet.sig(Sig {
            name: copied(alloc, name)?,
            shape,
            init,
            reset_less: false,
        })?;
        self.ports.push(Port {
            name: copied(alloc, name)?,
            sig,
            is_input: driver == Driver::Input,
        })?;
        let side = match driver {
            Driver::Input => 0,
            Driver::Side(side) => side,
        };
        self.sides.push(side)?;
        Ok(())
    }

    /// The signal of a line behind the word `signal`.
    pub fn declare(&mut self, alloc: Global, words: &[&str]) -> Result<(), Stop> {
        let (name, width, sign, driver, init) = match words {
            [name, width, sign, driver] => (*name, *width, *sign, *driver, "0"),
            [name, width, sign, driver, init] => (*name, *width, *sign, *driver, *init),
            _ => return Err(Stop::NoCase),
        };
        let driver = match driver {
            "comb" => Driver::Side(0),
            "input" => Driver::Input,
            domain => Driver::Side(self.side(alloc, domain)?),
        };
        self.add(alloc, name, shape(width, sign)?, driver, integer(init)?)
    }

    /// The side of the domain of a name. Where no line defines `sync`, it is the domain of `clk` without a reset.
    pub fn side(&mut self, alloc: Global, name: &str) -> Result<usize, Stop> {
        let found = self.domains.as_slice().iter().position(|d| d.name.is(name));
        if let Some(d) = found {
            return Ok(d + 1);
        }
        if name != "sync" {
            return Err(Stop::NoCase);
        }
        self.define(alloc, &["sync", "clk", "rising"])?;
        Ok(self.domains.len())
    }

    /// The domain of a line behind the word `domain`.
    pub fn define(&mut self, alloc: Global, words: &[&str]) -> Result<(), Stop> {
        let [name, clock, edge, reset @ ..] = words else {
            return Err(Stop::NoCase);
        };
        let (rst, async_reset) = self.reset(reset)?;
        let domain = Domain {
            name: copied(alloc, name)?,
            clk: self.known(clock)?,
            rst,
            falling: is_falling(edge)?,
            async_reset,
        };
        Ok(self.domains.push(domain)?)
    }

    // The reset of a domain, and whether it is asynchronous.
    fn reset(&self, words: &[&str]) -> Result<(Option<SigId>, bool), Stop> {
        match words {
            [] => Ok((None, false)),
            ["sync", name] => Ok((Some(self.known(name)?), false)),
            ["async", name] => Ok((Some(self.known(name)?), true)),
            _ => Err(Stop::NoCase),
        }
    }

    /// The signal of a name that is there.
    pub fn known(&self, name: &str) -> Result<SigId, Stop> {
        match self.named(name) {
            Some(s) => Ok(s),
            None => Err(Stop::NoCase),
        }
    }

    // The signal of a name.
    fn named(&self, name: &str) -> Option<SigId> {
        self.ports
            .as_slice()
            .iter()
            .find(|p| p.name.is(name))
            .map(|p| p.sig)
    }

    /// The expression that is the signal of a name.
    pub fn of_name(&mut self, name: &str) -> Result<ExprId, Stop> {
        let s = self.known(name)?;
        signal(&mut self.sheet, s)
    }
}

// Whether this is the falling edge.
fn is_falling(edge: &str) -> Result<bool, Stop> {
    match edge {
        "rising" => Ok(false),
        "falling" => Ok(true),
        _ => Err(Stop::NoCase),
    }
}

/// A text of its own with the same bytes.
pub fn copied(alloc: Global, s: &str) -> Result<Text, NoMemory>
    ensures { IfOk result (λ t. t ≡ s.now) }
{
    let mut text = Text::new(alloc);
    text.push(s)?;
    Ok(text)
}
