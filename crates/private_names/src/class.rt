// The class around a part of a program, and what becomes of names within it.
ghost use Rattle.std.specs.Prelude.{◌≡◌, ◌↔◌, [], IfOk, IsTrue, option_map};
ghost use Rattle.private_names.specs.Names.{without_underscores, is_private, mangled_name};

use amh_host::{NoMemory, Text};
use py_tree::Name;
use std::alloc::Global;

/// The nearest class around a part of a program: what is left of its name without the underscores that it begins with.
/// Nothing is left outside of all classes.
#[derive(Drop)]
pub struct Class {
    pub alloc: Global,
    pub name: Text,
}

impl Class {
    /// The class of this name.
    pub fn called(alloc: Global, name: &str) -> Result<Class, NoMemory>
        ensures { IfOk result (λ class. class.name ≡ without_underscores name.now) }
    {
        let mut text = Text::new(alloc);
        text.push(without_underscores(name))?;
        Ok(Class { alloc, name: text })
    }

    /// No class, as outside of all.
    pub fn none(alloc: Global) -> Class
        ensures { result.name ≡ [] }
    {
        Class {
            alloc,
            name: Text::new(alloc),
        }
    }

    /// Whether names stay as they are.
    pub fn is_none(&self) -> bool
        ensures { IsTrue result ↔ (self.now.name ≡ []) }
    {
        self.name.as_str().is_empty()
    }

    /// A name within the class: one handle more of it, where nothing changes.
    #[tactic(auto, unfolding(crate::specs::Names::mangled_name))]
    pub fn name(&self, name: &Name) -> Result<Name, NoMemory>
        ensures { IfOk result (λ n. n ≡ mangled_name self.now.name name.now) }
    {
        if self.is_none() || !is_private(name.as_str()) {
            return name.share();
        }
        let mut text = Text::new(self.alloc);
        text.push("_")?;
        text.push(self.name.as_str())?;
        text.push(name.as_str())?;
        Name::new(self.alloc, text)
    }

    /// A name within the class, where there is one.
    pub fn optional_name(&self, name: &Option<Name>) -> Result<Option<Name>, NoMemory>
        ensures { IfOk result (λ n. n ≡ option_map (mangled_name self.now.name) name.now) }
    {
        match name {
            Some(name) => Ok(Some(self.name(name)?)),
            None => Ok(None),
        }
    }
}

fn is_private(name: &str) -> bool
    ensures { result ≡ is_private name.now }
{
    let bytes = name.as_bytes();
    bytes.starts_with(b"__") && !bytes.ends_with(b"__")
}

/// A name without the underscores that it begins with.
pub fn without_underscores(name: &str) -> &str
    ensures { result.now ≡ without_underscores name.now }
{
    let mut rest = name;
    while let Some(behind) = rest.strip_prefix("_") {
        rest = behind;
    }
    rest
}
