// The characters that an identifier is made of.
ghost use Rattle.std.specs.Prelude.{◌≡◌, chars};
ghost use Rattle.std.specs.List.{list_all};
ghost use Rattle.unicode_ident.specs.Ident.{is_xid_continue};
ghost use Rattle.identifiers.specs.Identifiers.{starts_identifier, has_form};

use unicode_ident::{is_xid_continue, is_xid_start};

// Whether an identifier may begin with the character.
fn starts_identifier(c: char) -> bool
    ensures { result ≡ starts_identifier c }
{
    is_xid_start(c) || c == '_'
}

// Whether all these characters may stand behind the first.
fn continue_identifier(rest: &str) -> bool
    ensures { result ≡ list_all is_xid_continue (chars rest.now) }
{
    for c in rest.chars() {
        if !is_xid_continue(c) {
            return false;
        }
    }
    true
}

/// Whether the characters of a text have the form of an identifier.
pub(crate) fn has_form(text: &str) -> bool
    ensures { result ≡ has_form (chars text.now) }
{
    let mut rest = text.chars();
    match rest.next() {
        Some(first) => starts_identifier(first) && continue_identifier(rest.as_str()),
        None => false,
    }
}
