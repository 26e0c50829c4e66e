ghost use Rattle.std.specs.Prelude.{◌≡◌, ◌≢◌, Ok, Err, Some, None, IfOk, IfErr, option_map, string_bytes, ◌≤◌, find};
ghost use Rattle.std.specs.Prelude.{not};
ghost use Rattle.std.specs.BTreeMap.{keys, IsOrdered};
ghost use Rattle.std.specs.String.{string_cmp};
ghost use Rattle.toml.specs.View.{table_view};
ghost use Rattle.tm_base.specs.declared.limits.TheConstants.{LONG_LINE};
ghost use Rattle.tm_topo.specs.Limits.{IsInRange};
ghost use Rattle.tm_topo.specs.Reading as reading;

use crate::system::DEFAULT_BIAS;
use crate::{TopoFault, TopoKey, Topology};
use std::alloc::Global;
use tm_base::{IMAGE_VERSION, Text, most_harts};
use toml::Table;

/// Reads a topology: the numbers that the document states, or its first fault. The least unknown key comes before all
/// faults of known ones, these come in the order cores, threads, line, bias, and too many harts come last.
pub fn parse_topology(alloc: Global, text: &[u8]) -> Result<Topology, TopoFault>
    ensures ok { IfOk result (λ t. reading.topology_of text.now ≡ Ok t) }
    ensures err { IfErr result (λ e. e ≢ TopoFault.NoMemory → reading.topology_of text.now ≡ Err e) }
    ensures range { IfOk result IsInRange }
{
    let table = match toml::table_from_slice(alloc, text) {
        Ok(table) => table,
        Err(fault) => {
            if fault.is_memory() {
                return Err(TopoFault::NoMemory);
            }
            return Err(TopoFault::NotToml);
        }
    };
    topology_in(alloc, &table)
}

// The topology that a document's table states.
fn topology_in(alloc: Global, table: &Table) -> Result<Topology, TopoFault>
    ensures ok { IfOk result (λ t. reading.of_document (Some (table_view table.now)) ≡ Ok t) }
    ensures err { IfErr result (λ e. e ≢ TopoFault.NoMemory → reading.of_document (Some (table_view table.now))
        ≡ Err e) }
{
    match unknown_key(table) {
        Some(key) => Err(unknown(alloc, key.as_str())),
        None => numbers_in(table),
    }
}

// The numbers, key by key, and their product.
fn numbers_in(table: &Table) -> Result<Topology, TopoFault>
    ensures { result ≡ reading.numbers_in (table_view table.now) }
{
    let cores = number_at(table, TopoKey::Cores)?;
    let threads = number_at(table, TopoKey::Threads)?;
    let line = number_at(table, TopoKey::Line)?;
    let bias = number_at(table, TopoKey::Bias)?;
    let product = cores * threads;
    if product > most_harts(IMAGE_VERSION) {
        return Err(TopoFault::TooManyHarts { product });
    }
    Ok(Topology {
        cores,
        threads,
        line,
        bias,
    })
}

// The least key that isn't one of the topology's.
fn unknown_key(table: &Table) -> Option<&String>
    ensures { option_map (λ k. string_bytes k.now) result ≡ reading.unknown_key (table_view table.now) }
{
    first_unknown(table)
}

// The first key, in the table's order, that isn't one of the topology's.
fn first_unknown(table: &Table) -> Option<&String>
    ensures found { option_map (λ k. k.now) result
        ≡ find (λ k. not (reading.is_known (string_bytes k))) (keys table.now) }
    ensures ordered { IsOrdered string_cmp table.now }
{
    table.keys().find(|key| !is_known(key.as_str()))
}

// Whether a text is a key of the topology.
fn is_known(key: &str) -> bool
    ensures { result ≡ reading.is_known key.now }
{
    if key == TopoKey::Cores.as_str() {
        return true;
    }
    if key == TopoKey::Threads.as_str() {
        return true;
    }
    if key == TopoKey::Line.as_str() {
        return true;
    }
    key == TopoKey::Bias.as_str()
}

// The fault for an unknown key, which wants room for the key.
fn unknown(alloc: Global, key: &str) -> TopoFault
    ensures { result ≢ TopoFault.NoMemory → result ≡ TopoFault.UnknownKey key.now }
{
    let mut copy = Text::new(alloc);
    match copy.append(key.as_bytes()) {
        Ok(()) => TopoFault::UnknownKey { key: copy },
        Err(_) => TopoFault::NoMemory,
    }
}

// The number at a key.
fn number_at(table: &Table, key: TopoKey) -> Result<u32, TopoFault>
    ensures number { result ≡ reading.number_at key (table_view table.now) }
    ensures small { IfOk result (λ n. n ≤ LONG_LINE) }
{
    match table.get(key.as_str()) {
        Some(value) => match value.as_integer() {
            Some(integer) => of_integer(key, integer),
            None => Err(TopoFault::WrongKind { key }),
        },
        None => default_of(key),
    }
}

// The number where a key isn't there.
fn default_of(key: TopoKey) -> Result<u32, TopoFault>
    ensures number { result ≡ reading.default_of key }
    ensures small { IfOk result (λ n. n ≤ LONG_LINE) }
{
    match key {
        TopoKey::Bias => Ok(DEFAULT_BIAS),
        _ => Err(TopoFault::Missing { key }),
    }
}

// The number that an integer at a key states.
fn of_integer(key: TopoKey, integer: i64) -> Result<u32, TopoFault>
    ensures number { result ≡ reading.of_integer key integer }
    ensures small { IfOk result (λ n. n ≤ LONG_LINE) }
{
    match u64::try_from(integer) {
        Ok(number) => {
            if key.allows(number) {
                Ok(number as u32)
            } else {
                Err(TopoFault::OutOfRange {
                    key,
                    value: integer,
                })
            }
        }
        Err(_) => Err(TopoFault::OutOfRange {
            key,
            value: integer,
        }),
    }
}
