// Text in escapes, as the table has it.
ghost use Rattle.std.specs.Prelude.{◌≡◌, ◌≢◌, ◌<◌, [], Some, IfOk};
ghost use Rattle.std.specs.String.{string_bytes};
ghost use Rattle.table_text.specs.Escapes.{digit, first_byte, Spells};

use amh_host::NoMemory;
use std::alloc::Global;

/// A line that spells these bytes: what `bytes_of` reads from it.
pub fn spelled(alloc: Global, bytes: &[u8]) -> Result<String, NoMemory>
    ensures { IfOk result (λ line. Spells bytes.now (string_bytes line)) }
{
    let mut line = String::new(alloc);
    for byte in bytes {
        let piece = piece_of(alloc, *byte)?;
        line.push_str(piece.as_str())?;
    }
    Ok(line)
}

// How a byte is spelled: in printable ASCII without `"`.
fn piece_of(alloc: Global, byte: u8) -> Result<String, NoMemory>
    ensures { IfOk result (λ piece. first_byte (string_bytes piece) ≡ Some (byte, [])) }
{
    match byte {
        b'\\' => Ok(String::from_str(alloc, "\\\\")?),
        b'\n' => Ok(String::from_str(alloc, "\\n")?),
        b'\t' => Ok(String::from_str(alloc, "\\t")?),
        b'"' | 0..=31 | 127.. => code_of(alloc, byte),
        _ => plain(alloc, byte),
    }
}

fn plain(alloc: Global, byte: u8) -> Result<String, NoMemory>
    requires ascii { byte < 128 }
    requires no_escape { byte ≢ 92 }
    ensures { IfOk result (λ piece. first_byte (string_bytes piece) ≡ Some (byte, [])) }
{
    let mut piece = String::new(alloc);
    piece.push(byte as char)?;
    Ok(piece)
}

fn code_of(alloc: Global, byte: u8) -> Result<String, NoMemory>
    ensures { IfOk result (λ piece. first_byte (string_bytes piece) ≡ Some (byte, [])) }
{
    let mut piece = String::from_str(alloc, "\\x")?;
    piece.push(digit_of(byte / 16))?;
    piece.push(digit_of(byte % 16))?;
    Ok(piece)
}

fn digit_of(value: u8) -> char
    requires { value < 16 }
    ensures value { digit result ≡ Some value }
    ensures ascii { result < 128 }
{
    if value < 10 {
        (b'0' + value) as char
    } else {
        (b'A' + (value - 10)) as char
    }
}
