// The digits of a number, from the first to the last.
ghost use Rattle.std.specs.Prelude.{◌≡◌, ◌<◌, ◌≤◌, ◌+◌, ◌/◌, ◌%◌, ◌++◌, ◌∷◌, [], OnOk};
ghost use Rattle.std.specs.Fmt.{decimal};
ghost use Rattle.std.specs.Vec.{vec_len, vec_capacity};

use std::alloc::AllocError;

/// Adds a numeral of at most eight digits.
#[inline]
pub fn push_short(text: &mut Vec<u8>, n: usize) -> Result<(), AllocError>
    requires { n < 100000000 }
    ensures { OnOk result (text.new.items ≡ text.old.items ++ decimal n) }
{
    text.reserve(8)?;
    if n < 10_000 {
        put_four(text, n);
        return Ok(());
    }
    put_four(text, n / 10_000);
    let rest = n % 10_000;
    put_pair(text, rest / 100);
    put_pair(text, rest % 100);
    Ok(())
}

// A numeral of at most four digits.
#[inline]
fn put_four(text: &mut Vec<u8>, n: usize)
    requires few { n < 10000 }
    requires room { vec_len text.old + 4 ≤ vec_capacity text.old }
    ensures items { text.new.items ≡ text.old.items ++ decimal n }
    ensures len { vec_len text.new ≤ vec_len text.old + 4 }
    ensures capacity { vec_capacity text.new ≡ vec_capacity text.old }
{
    if n < 100 {
        put_two(text, n);
    } else {
        put_two(text, n / 100);
        put_pair(text, n % 100);
    }
}

// A numeral of at most two digits.
#[inline]
fn put_two(text: &mut Vec<u8>, n: usize)
    requires few { n < 100 }
    requires room { vec_len text.old + 2 ≤ vec_capacity text.old }
    ensures items { text.new.items ≡ text.old.items ++ decimal n }
    ensures len { vec_len text.new ≤ vec_len text.old + 2 }
    ensures capacity { vec_capacity text.new ≡ vec_capacity text.old }
{
    if n < 10 {
        text.push_reserved(b'0' + n as u8);
    } else {
        put_pair(text, n);
    }
}

// Two digits, also where the first is 0.
#[inline]
fn put_pair(text: &mut Vec<u8>, n: usize)
    requires few { n < 100 }
    requires room { vec_len text.old + 2 ≤ vec_capacity text.old }
    ensures items { text.new.items ≡ text.old.items ++ (48 + n / 10) ∷ (48 + n % 10) ∷ [] }
    ensures len { vec_len text.new ≡ vec_len text.old + 2 }
    ensures capacity { vec_capacity text.new ≡ vec_capacity text.old }
{
    text.push_reserved(b'0' + (n / 10) as u8);
    text.push_reserved(b'0' + (n % 10) as u8);
}
