// The columns of a design, and their names.
ghost use Rattle.std.specs.Prelude.{◌≡◌, ℕ, ◌<◌, ◌≤◌, ◌&&◌, ◌++◌, ◌∷◌, [], true, false, not, map, length, Some, is_some, unwrap_or, IfOk, OnOk};
ghost use Rattle.std.specs.List.{AllByRecursion, filter, range_with_len};
ghost use Rattle.std.specs.BTreeMap.{get_by_text};
ghost use Rattle.fragment_walks.specs.Marks.{is_marked};
ghost use Rattle.fragment_walks.specs.Numbers.{first_at};
ghost use Rattle.clock_domains.specs.Tracked.{AreTaken, IsFree, IsPut, IsTracked, names_of};
ghost use Rattle.clock_domains.specs.Firsts.{AreNumbersThere, IsPlace, column_under, known_column, path_at};
ghost use Rattle.clock_domains.specs.Resolved.{column_of_port, columns_after, fresh_name, has_name, has_width, numbered_name, ports_named};

use crate::ports::has_width;
use crate::shown::shown_name;
use amh_host::{Items, NoMemory, Text};
use design_ir::{Column, Columns, Domain, Exprs, Pool, Port, Ports, SigId};
use fragment_walks::copies::copied;
use std::alloc::Global;
use std::collections::BTreeMap;

// A name and a number behind it.
fn numbered_name(alloc: Global, name: &str, number: usize) -> Result<Text, NoMemory>
    ensures { IfOk result (λ t. t ≡ numbered_name name.now number) }
{
    let digits = format!(in alloc; "{number}")?;
    let mut text = copied(alloc, name)?;
    text.push("$")?;
    text.push(digits.as_str())?;
    Ok(text)
}

// The greatest number that a name was given, where it stands already.
fn last_number(numbers: &BTreeMap<String, usize>, name: &str) -> Option<usize>
    ensures { result ≡ get_by_text numbers.now name.now }
{
    match numbers.get(name) {
        Some(last) => Some(*last),
        None => None,
    }
}

// The least number with which a name is new; all up to the last one are taken.
fn free_number(
    alloc: Global,
    numbers: &BTreeMap<String, usize>,
    columns: &Columns,
    name: &str,
    last: usize,
) -> Result<usize, NoMemory>
    requires tracked { IsTracked numbers.now columns.now }
    requires there { has_name (names_of columns.now) name.now ≡ true }
    requires taken { AreTaken (names_of columns.now) name.now last }
    ensures { IfOk result (IsFree (names_of columns.now) name.now) }
{
    for taken in last..columns.len() {
        let text = numbered_name(alloc, name, taken + 1)?;
        if !numbers.contains_key(text.as_str()) {
            return Ok(taken + 1);
        }
    }
    unreachable!()
}

// A column with a name that is new.
fn add_new(
    alloc: Global,
    columns: &mut Columns,
    numbers: &mut BTreeMap<String, usize>,
    name: Text,
    sig: SigId,
) -> Result<(), NoMemory>
    ensures columns { OnOk result (columns.new ≡ columns.old ++ record { name = name; sig = sig } ∷ []) }
    ensures numbers { OnOk result (IsPut (get_by_text numbers.old) name 0 (get_by_text numbers.new)) }
{
    numbers.insert(String::from_str(alloc, name.as_str())?, 0)?;
    columns.push(Column { name, sig })?;
    Ok(())
}

// A column with a name that stands already: it gets the least number that is new.
fn add_numbered(
    alloc: Global,
    columns: &mut Columns,
    numbers: &mut BTreeMap<String, usize>,
    name: &str,
    sig: SigId,
    last: usize,
) -> Result<(), NoMemory>
    requires tracked { IsTracked numbers.old columns.old }
    requires last { get_by_text numbers.old name.now ≡ Some last }
    ensures columns { OnOk result (columns.new ≡ columns.old ++ record { name = fresh_name (names_of columns.old) name.now; sig = sig } ∷ []) }
    ensures tracked { OnOk result (IsTracked numbers.new columns.new) }
{
    let number = free_number(alloc, numbers, columns, name, last)?;
    let text = numbered_name(alloc, name, number)?;
    numbers.insert(String::from_str(alloc, name)?, number)?;
    add_new(alloc, columns, numbers, text, sig)?;
    Ok(())
}

// A column under the name that it is to have, or where that stands already, with a number behind it.
fn add_column(
    alloc: Global,
    columns: &mut Columns,
    numbers: &mut BTreeMap<String, usize>,
    name: &str,
    sig: SigId,
) -> Result<(), NoMemory>
    requires { IsTracked numbers.old columns.old }
    ensures columns { OnOk result (columns.new ≡ columns.old ++ record { name = fresh_name (names_of columns.old) name.now; sig = sig } ∷ []) }
    ensures tracked { OnOk result (IsTracked numbers.new columns.new) }
{
    let last = match last_number(numbers, name) {
        Some(last) => last,
        None => {
            let name = copied(alloc, name)?;
            add_new(alloc, columns, numbers, name, sig)?;
            return Ok(());
        }
    };
    add_numbered(alloc, columns, numbers, name, sig, last)?;
    Ok(())
}

// The columns of ports.
fn add_ports(
    alloc: Global,
    columns: &mut Columns,
    numbers: &mut BTreeMap<String, usize>,
    ports: &[Port],
) -> Result<(), NoMemory>
    requires tracked { IsTracked numbers.old columns.old }
    ensures columns { OnOk result (columns.new ≡ columns.old ++ columns_after (names_of columns.old) (map column_of_port ports.now)) }
    ensures tracked { OnOk result (IsTracked numbers.new columns.new) }
{
    for port in ports {
        add_column(alloc, columns, numbers, port.name.as_str(), port.sig)?;
    }
    Ok(())
}

// The columns of registers.
fn add_registers(
    alloc: Global,
    columns: &mut Columns,
    numbers: &mut BTreeMap<String, usize>,
    registers: &[Column],
) -> Result<(), NoMemory>
    requires tracked { IsTracked numbers.old columns.old }
    ensures columns { OnOk result (columns.new ≡ columns.old ++ columns_after (names_of columns.old) registers.now) }
    ensures tracked { OnOk result (IsTracked numbers.new columns.new) }
{
    for register in registers {
        add_column(
            alloc,
            columns,
            numbers,
            register.name.as_str(),
            register.sig,
        )?;
    }
    Ok(())
}

/// The columns of ports and then of registers, each under a name that none before it has.
pub fn columns_of(alloc: Global, ports: &[Port], registers: &[Column]) -> Result<Columns, NoMemory>
    ensures { IfOk result (λ cs. cs ≡ columns_after [] (map column_of_port ports.now ++ registers.now)) }
{
    let mut columns = Items::new(alloc);
    let mut numbers = BTreeMap::new(alloc);
    add_ports(alloc, &mut columns, &mut numbers, ports)?;
    add_registers(alloc, &mut columns, &mut numbers, registers)?;
    Ok(columns)
}

// Whether the process or the memory with a number names registers.
fn is_naming(paths: &[Option<Text>], number: Option<usize>) -> bool
    requires { IsPlace (length paths.now) number }
    ensures { result ≡ is_some (path_at paths.now number) }
{
    match number {
        Some(number) => paths[number].is_some(),
        None => false,
    }
}

// The path under which it names them, or the empty one.
fn path_of(paths: &[Option<Text>], number: Option<usize>) -> &str
    requires { IsPlace (length paths.now) number }
    ensures { result.now ≡ unwrap_or (path_at paths.now number) [] }
{
    let Some(number) = number else {
        return "";
    };
    match &paths[number] {
        Some(path) => path.as_str(),
        None => "",
    }
}

// A register under the name under which it is shown, behind a path.
fn register_column(
    alloc: Global,
    pool: &Pool,
    domains: &[Domain],
    path: &str,
    sig: SigId,
) -> Result<Column, NoMemory>
    requires { sig.0 < length pool.now.signals }
    ensures { IfOk result (λ c. c ≡ column_under pool.now domains.now (Some path.now) sig.0) }
{
    let mut name = copied(alloc, path)?;
    let shown = shown_name(alloc, pool, domains, sig)?;
    name.push(shown.as_str())?;
    Ok(Column { name, sig })
}

/// Registers under their names behind the paths of what gives them.
pub fn register_columns(
    alloc: Global,
    pool: &Pool,
    domains: &[Domain],
    paths: &[Option<Text>],
    sites: &[Option<usize>],
    registers: &[SigId],
) -> Result<Columns, NoMemory>
    requires there { AllByRecursion (λ s. s.0 < length pool.now.signals) registers.now }
    requires size { length sites.now ≡ 16384 }
    requires paths { (s : ℕ) → IsPlace (length paths.now) (first_at sites.now s) }
    ensures { IfOk result (λ cs. cs ≡ map (known_column pool.now domains.now paths.now sites.now) (map (λ s. s.0) registers.now)) }
{
    let _ = pool.count();
    let mut columns = Items::new(alloc);
    for s in registers {
        let path = path_of(paths, sites[s.0 as usize]);
        columns.push(register_column(alloc, pool, domains, path, *s)?)?;
    }
    Ok(columns)
}

// A signal more, where it is named as a register, is no port, and has bits.
fn add_register(
    pool: &Pool,
    registers: &mut Vec<SigId>,
    is_register: bool,
    is_port: bool,
    s: SigId,
) -> Result<(), NoMemory>
    requires { is_register ≡ true → s.0 < length pool.now.signals }
    ensures { OnOk result (map (λ x. x.0) registers.new.items ≡ map (λ x. x.0) registers.old.items ++ filter (λ x. is_register && (not is_port && has_width pool.now x)) (s.0 ∷ [])) }
{
    if !is_register || is_port || !has_width(pool, s) {
        return Ok(());
    }
    registers.push(s)?;
    Ok(())
}

/// The signals that are named as registers and are no ports, in order of making.
pub fn named_registers(
    alloc: Global,
    pool: &Pool,
    paths: &[Option<Text>],
    sites: &[Option<usize>],
    is_port: &[bool],
) -> Result<Vec<SigId>, NoMemory>
    requires there { AreNumbersThere pool.now sites.now }
    requires paths { (s : ℕ) → IsPlace (length paths.now) (first_at sites.now s) }
    requires size { length is_port.now ≡ 16384 }
    ensures { IfOk result (λ v. map (λ s. s.0) v.items ≡ filter (λ s. is_some (path_at paths.now (first_at sites.now s)) && (not (is_marked is_port.now s) && has_width pool.now s)) (range_with_len 0 (length sites.now))) }
{
    let mut registers = Vec::new(alloc);
    for s in 0..sites.len() {
        add_register(
            pool,
            &mut registers,
            is_naming(paths, sites[s]),
            is_port[s],
            SigId(s as u32),
        )?;
    }
    Ok(registers)
}

/// The ports under the names of their columns.
pub fn ports_named(alloc: Global, ports: &[Port], columns: &[Column]) -> Result<Ports, NoMemory>
    requires { length ports.now ≤ length columns.now }
    ensures { IfOk result (λ ps. ps ≡ ports_named ports.now columns.now) }
{
    let mut named = Items::new(alloc);
    for (n, port) in ports.iter().enumerate() {
        let column = &columns[n];
        named.push(Port {
            name: copied(alloc, column.name.as_str())?,
            sig: port.sig,
            is_input: port.is_input,
        })?;
    }
    Ok(named)
}
