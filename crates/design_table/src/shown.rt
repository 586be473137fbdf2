// Whether ports are those of signals that are there, under names that are apart.
ghost use Rattle.std.specs.Prelude.{◌≡◌};
ghost use Rattle.std.specs.List.{list_all};
ghost use Rattle.lists.specs.Names.{starts_name, continues_name};
ghost use Rattle.design_table.specs.Tests.{is_name, is_apart, are_apart, is_shown};

use crate::pool::Sheet;
use design_ir::Port;

// A letter or `_`, or a byte of a letter beyond ASCII.
fn starts_name(b: u8) -> bool
    ensures { result ≡ starts_name b }
{
    65 <= b && b <= 90 || 97 <= b && b <= 122 || b == 95 || 128 <= b
}

fn continues_name(b: u8) -> bool
    ensures { result ≡ continues_name b }
{
    starts_name(b) || 48 <= b && b <= 57
}

// Whether these are all bytes that stand in a name.
fn all_continue(bytes: &[u8]) -> bool
    ensures { result ≡ list_all continues_name bytes.now }
{
    bytes.iter().all(|b| continues_name(*b))
}

/// Whether a text is a name.
pub fn is_name(name: &[u8]) -> bool
    ensures { result ≡ is_name name.now }
{
    match name {
        [] => false,
        [first, rest @ ..] => starts_name(*first) && all_continue(rest),
    }
}

// Whether two ports have neither a signal nor a name in common.
fn is_apart(p: &Port, q: &Port) -> bool
    ensures { result ≡ is_apart p.now q.now }
{
    p.sig.0 != q.sig.0 && !p.name.is(q.name.as_str())
}

// Whether a port has neither a signal nor a name in common with these.
fn all_apart(p: &Port, others: &[Port]) -> bool
    ensures { result ≡ list_all (is_apart p.now) others.now }
{
    others.iter().all(|q| is_apart(p, q))
}

/// Whether no two ports have a signal or a name in common.
pub fn are_apart(ports: &[Port]) -> bool
    ensures { result ≡ are_apart ports.now }
{
    match ports {
        [] => true,
        [p, rest @ ..] => all_apart(p, rest) && are_apart(rest),
    }
}

// Whether a port is that of a signal with bits, under a name.
fn is_shown(sheet: &Sheet, p: &Port) -> bool
    ensures { result ≡ is_shown sheet.now.pool p.now }
{
    sheet.has_signal(p.sig) && 1 <= sheet.width(p.sig) && is_name(p.name.as_str().as_bytes())
}

/// Whether each port is that of a signal with bits, under a name.
pub fn are_shown(sheet: &Sheet, ports: &[Port]) -> bool
    ensures { result ≡ list_all (is_shown sheet.now.pool) ports.now }
{
    ports.iter().all(|p| is_shown(sheet, p))
}
