// What two runs have of one another.

/// A part is a front of the whole; nothing is a front of everything.
pub fn is_front(part: Option<&[u8]>, whole: Option<&[u8]>) -> bool {
    match (part, whole) {
        (None, _) => true,
        (Some(part), Some(whole)) => whole.starts_with(part),
        (Some(_), None) => false,
    }
}

/// How many lines end in these bytes.
pub fn lines_in(bytes: &[u8]) -> usize {
    bytes.iter().filter(|b| **b == b'\n').count()
}
