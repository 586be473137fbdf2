// What a call is given.

use crate::arguments::Arguments;
use crate::shown::Shown;

/// The arguments of a call, and the heap in which they stand.
#[derive(Drop)]
pub struct Given<'a> {
    pub arguments: Arguments<'a>,
    pub shown: Shown<'a>,
}
