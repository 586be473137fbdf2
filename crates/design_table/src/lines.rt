// Where a line begins.
use amh_host::Place;

/// The place of the first letter of the line with this number, from 0.
pub fn place_of(number: usize, line: &str) -> Place {
    Place {
        line: short(number),
        col: short(line.len().saturating_sub(line.trim_start().len())),
    }
}

// A count from 1, cut where it is past all lines.
fn short(n: usize) -> u32 {
    if n < 1_000_000 { n as u32 + 1 } else { 0 }
}
