// Values that are held apart, so that what holds them stays small.
ghost use Rattle.std.specs.Prelude.{◌≡◌, IfOk};

use amh_host::NoMemory;
use std::alloc::Global;
use std::marker::Model;

/// A value in memory of its own, which contracts see as that value.
#[derive(Drop)]
pub struct Boxed<T> {
    inner: Box<T>,
}

impl<T> Model for Boxed<T> {
    ghost Value = { T };

    ghost view = { λ a. a.inner.value };
}

impl<T: Drop> Boxed<T> {
    /// Holds a value apart.
    pub fn new(alloc: Global, value: T) -> Result<Self, NoMemory>
        ensures { IfOk result (λ b. b ≡ value) }
    {
        match Box::new(alloc, value) {
            Ok(inner) => Ok(Boxed { inner }),
            Err(_) => Err(NoMemory),
        }
    }

    /// The value, which is held apart no more.
    pub fn into_inner(self) -> T
        ensures { result ≡ self }
    {
        Box::into_inner(self.inner)
    }
}
