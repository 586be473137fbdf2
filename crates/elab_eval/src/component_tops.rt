// The ports of a component that is the top.
ghost use Rattle.std.specs.Prelude.{◌≡◌, IfOk};
ghost use Rattle.elab_eval.specs.ComponentTops.{component_ports};

use clock_domains::TopPorts;
use design_ir::{Port, Ports};
use elab_components::interfaces::copied_text;
use elab_store::store::Store;
use lists::NoMemory;
use py_values::ObjId;
use std::alloc::Global;

fn copied_port(alloc: Global, port: &Port) -> Result<Port, NoMemory>
    ensures { IfOk result (λ copy. copy ≡ port.now) }
{
    Ok(Port {
        name: copied_text(alloc, &port.name)?,
        sig: port.sig,
        is_input: port.is_input,
    })
}

fn copied_ports(alloc: Global, ports: &[Port]) -> Result<Ports, NoMemory>
    ensures { IfOk result (λ all. all ≡ ports.now) }
{
    let mut all = Ports::new(alloc);
    for port in ports {
        all.push(copied_port(alloc, port)?)?;
    }
    Ok(all)
}

/// The ports of a component that is the top: those that were made for it.
pub(crate) fn component_ports(
    store: &Store,
    alloc: Global,
    object: ObjId,
) -> Result<Option<TopPorts>, NoMemory>
    ensures { IfOk result (λ ports. ports ≡ component_ports store.now object) }
{
    match store.components.ports(object.0) {
        Some(ports) => Ok(Some(TopPorts::Members(copied_ports(alloc, ports.as_slice())?))),
        None => Ok(None),
    }
}
