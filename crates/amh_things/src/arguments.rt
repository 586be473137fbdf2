// Arguments of a call, as Python binds them to parameters.
ghost use Rattle.std.specs.Prelude.{◌≡◌, ◌&&◌, nat_le, length, drop, map, string_bytes};
ghost use Rattle.std.specs.List.{list_all, list_any};
ghost use Rattle.lists.specs.Texts.{text_eq};
ghost use Rattle.amh_things.specs.Arguments.{arguments_of, keyword, is_some_key, argument, is_among, fits};

use crate::texts::is_text;
use py_values::Val;
use std::marker::Model;

/// The values by position, the values of keywords, and the keywords.
#[derive(Drop)]
pub struct Arguments<'a> {
    positional: &'a [Val],
    named: &'a [Val],
    keys: &'a [String],
}

impl<'a> Model for Arguments<'a> {
    ghost use Rattle.amh_things.specs.Arguments.{Arguments};
    ghost use Rattle.std.specs.Prelude.{map, string_bytes};

    ghost Value = { Arguments };

    ghost view = { λ a. record { positional = a.positional.now; named = a.named.now; keys = map string_bytes a.keys.now } };
}

impl<'a> Arguments<'a> {
    /// The values of a call: those of its keywords are the last ones.
    pub fn of(args: &'a [Val], keys: &'a [String]) -> Arguments<'a>
        ensures { result ≡ arguments_of args.now (map string_bytes keys.now) }
    {
        let count = if keys.len() < args.len() {
            args.len() - keys.len()
        } else {
            0
        };
        let (positional, named) = args.split_at(count);
        Arguments {
            positional,
            named,
            keys,
        }
    }

    /// The values by position.
    pub fn positional(&self) -> &'a [Val]
        ensures { result.now ≡ self.now.positional }
    {
        self.positional
    }

    /// Whether there is a keyword.
    pub fn has_keys(&self) -> bool
        ensures { result ≡ is_some_key self.now.keys }
    {
        is_some_key(self.keys)
    }

    // The value of a keyword.
    fn keyword(&self, name: &str) -> Option<Val>
        ensures { result ≡ keyword name.now self.now.keys self.now.named }
    {
        keyword(name, self.keys, self.named)
    }

    /// The value of the parameter that has this place and this name.
    pub fn argument(&self, i: usize, name: &str) -> Option<Val>
        ensures { result ≡ argument self.now i name.now }
    {
        match self.positional.get(i) {
            Some(v) => Some(*v),
            None => self.keyword(name),
        }
    }

    /// Whether each argument is for one of these parameters, and none of them is given twice.
    pub fn fits(&self, parameters: &[&str]) -> bool
        ensures { result ≡ fits (map (λ p. p.now) parameters.now) self.now }
    {
        fits_from(parameters, self.positional.len(), self.keys)
    }
}

// Whether so many parameters are there, and the keywords are among the others.
fn fits_from(parameters: &[&str], count: usize, keys: &[String]) -> bool
    ensures { result ≡ (nat_le count (length parameters.now) && list_all (is_among (drop count (map (λ p. p.now) parameters.now))) (map string_bytes keys.now)) }
{
    if count > parameters.len() {
        return false;
    }
    let (_, others) = parameters.split_at(count);
    are_among(others, keys)
}

fn is_some_key(keys: &[String]) -> bool
    ensures { result ≡ is_some_key (map string_bytes keys.now) }
{
    match keys {
        [] => false,
        _ => true,
    }
}

/// The value of a keyword, which stands at the place of its name.
pub fn keyword(name: &str, keys: &[String], named: &[Val]) -> Option<Val>
    ensures { result ≡ keyword name.now (map string_bytes keys.now) named.now }
{
    match keys {
        [key, keys @ ..] => match named {
            [v, named @ ..] => {
                if is_text(key.as_str(), name) {
                    Some(*v)
                } else {
                    keyword(name, keys, named)
                }
            }
            [] => None,
        },
        [] => None,
    }
}

fn is_among(names: &[&str], key: &str) -> bool
    ensures { result ≡ is_among (map (λ p. p.now) names.now) key.now }
{
    for name in names {
        if is_text(key, name) {
            return true;
        }
    }
    false
}

fn are_among(names: &[&str], keys: &[String]) -> bool
    ensures { result ≡ list_all (is_among (map (λ p. p.now) names.now)) (map string_bytes keys.now) }
{
    for key in keys {
        if !is_among(names, key.as_str()) {
            return false;
        }
    }
    true
}
