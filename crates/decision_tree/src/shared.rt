//! Values that several trees hold.
ghost use Rattle.std.specs.Prelude.{◌≡◌, IfOk};

use std::alloc::{AllocError, Global};
use std::marker::Model;
use std::ops::Deref;
use std::rc::Rc;

/// A value that several trees may hold. It stands in one place however many hold it, and goes with the last of them. Contracts see it as the value.
#[derive(Drop)]
pub struct Shared<T: Drop> {
    held: Rc<T>,
}

impl<T: Drop> Model for Shared<T> {
    ghost Value = { T };

    ghost view = { λ inside. inside.held.value };
}

impl<T: Drop> Shared<T> {
    /// The value, held once. The only error is want of memory.
    pub fn new(alloc: Global, value: T) -> Result<Shared<T>, AllocError>
        ensures { IfOk result (λ shared. shared ≡ value) }
    {
        match Rc::new(alloc, value) {
            Ok(held) => Ok(Shared { held }),
            Err(_) => Err(AllocError),
        }
    }

    /// The value, held once more, which takes no memory. The error comes where the count of those that hold it is full.
    pub fn share(&self) -> Result<Shared<T>, AllocError>
        ensures { IfOk result (λ twin. twin ≡ self.now) }
    {
        let held = self.held.clone()?;
        Ok(Shared { held })
    }
}

impl<T: Drop> Deref for Shared<T> {
    type Target = T;

    ghost deref_gives = { λ shared value. value ≡ shared };

    fn deref(&self) -> &T
        ensures { result.now ≡ self.now }
    {
        &self.held
    }
}
