// What a line of a script may say.

use design_ir::Event;

/// A line says nothing, asks for an event, or says what no script says.
#[derive(Drop)]
pub enum Saying {
    Nothing,
    Asks(Event),
    Bad,
}
