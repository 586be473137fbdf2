// Numbers and shapes of the table.
ghost use Rattle.std.specs.Prelude.{◌≤◌, IfOk};

use shape_rules::Shape;
use table_text::{Stop, natural};

/// A number of at most 128.
pub fn small(text: &str) -> Result<u8, Stop>
    ensures { IfOk result (λ n. n ≤ 128) }
{
    let number = natural(text)?;
    if number > 128 {
        return Err(Stop::NoCase);
    }
    Ok(number as u8)
}

/// The shape of this width and sign, `u` or `s`.
pub fn shape(width: &str, sign: &str) -> Result<Shape, Stop> {
    let width = small(width)?;
    match sign {
        "u" => Ok(Shape {
            width,
            signed: false,
        }),
        "s" if width > 0 => Ok(Shape {
            width,
            signed: true,
        }),
        _ => Err(Stop::NoCase),
    }
}
