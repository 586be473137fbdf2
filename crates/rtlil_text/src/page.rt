// The lines of a text, one call of the host each.
ghost use Rattle.std.specs.Prelude.{◌≡◌, ◌++◌, [], OnOk, string_bytes};
ghost use Rattle.amh_host.specs.Seen.{written};
ghost use Rattle.amh_host.specs.Calls.{Adds};
ghost use Rattle.amh_host.specs.Causes.{HasCause};

use amh_host::{Host, HostStop};
use std::alloc::{AllocError, Global};
use std::marker::Model;

/// Lines, which contracts see as the text that they make.
#[derive(Drop)]
pub(crate) struct Page {
    lines: Vec<String>,
}

impl Model for Page {
    ghost use Rattle.std.specs.Prelude.{List, ℕ, string_bytes};
    ghost use Rattle.std.specs.List.{flat_map};

    ghost Value = { List ℕ };

    ghost view = { λ p. flat_map string_bytes p.lines.items };
}

impl Page {
    pub(crate) fn new(alloc: Global) -> Page
        ensures { result ≡ [] }
    {
        Page {
            lines: Vec::new(alloc),
        }
    }

    pub(crate) fn add(&mut self, line: String) -> Result<(), AllocError>
        ensures { OnOk result (self.new ≡ self.old ++ string_bytes line) }
    {
        self.lines.push(line)?;
        Ok(())
    }

    /// Adds the lines to the end of the file.
    pub(crate) fn put<H: Host>(&self, host: &mut H, name: &str) -> Result<(), HostStop>
        ensures done { Adds (written name.now) self.now result (H.seen host.old) (H.seen host.new) }
        ensures cause { HasCause (H.faults host.old) (H.faults host.new) result }
    {
        for line in &self.lines {
            host.put(name, line.as_bytes())?;
        }
        Ok(())
    }
}
