//! A method that is shared, not copied.

ghost use Rattle.std.specs.Prelude.{◌≡◌, IfOk};

use crate::method::Method;
use sshc_wire::NoMemory;
use std::alloc::Global;
use std::marker::Model;
use std::sync::Arc;

/// A method of authentication behind one pointer: an event hands it on, and a session stores it, without copies of keys
/// and passwords. Contracts see the method.
#[derive(Drop)]
pub struct SharedMethod {
    method: Arc<Method>,
}

impl Model for SharedMethod {
    ghost use Rattle.sshc_auth_event.specs.MethodCode.{method_code};
    ghost use Rattle.sshc_auth_event.specs.declared.method.Method.{Method as Shared};

    ghost Value = { Shared };

    ghost coded = { method_code };

    ghost view = { λ s. s.method.value };
}

impl SharedMethod {
    /// This method.
    pub fn new(alloc: Global, method: Method) -> Result<SharedMethod, NoMemory>
        ensures { IfOk result (λ s. s ≡ method) }
    {
        match Arc::new(alloc, method) {
            Ok(method) => Ok(SharedMethod { method }),
            Err(refused) => {
                drop(refused);
                Err(NoMemory)
            }
        }
    }

    /// The same method once more. Nothing of it is copied.
    pub fn share(&self) -> Result<SharedMethod, NoMemory>
        ensures { IfOk result (λ s. s ≡ self.now) }
    {
        Ok(SharedMethod {
            method: self.method.clone()?,
        })
    }

    pub fn as_method(&self) -> &Method
        ensures { result.now ≡ self.now }
    {
        &self.method
    }
}

impl PartialEq for SharedMethod {
    ghost use Rattle.sshc_auth_event.specs.contracts.method.MethodPartialEq.TheImpl.Laws.{laws-law};

    ghost eq = { ⟦<Method as PartialEq>⟧.eq };

    ghost laws = { laws-law };

    fn eq(&self, other: &SharedMethod) -> bool {
        *self.method == *other.method
    }
}

impl Eq for SharedMethod {
    ghost use Rattle.sshc_auth_event.specs.contracts.method.MethodEq.TheImpl.Laws.{laws-law};

    ghost laws = { laws-law };
}
