//! Why the objects of lines aren't those of a link.
ghost use Rattle.std.specs.Prelude.{◌≡◌};
ghost use Rattle.order_judge.specs.Faults.{fault_of};
ghost use Rattle.order_judge.specs.declared.faults.OrderFault.TheVariants as fault;

use opening::OpenFault;
use std::alloc::{AllocError, AllocFailed};

/// Why the objects of lines aren't those that a command loads, in an order that a linker may come to.
#[derive(Clone, Copy, Debug)]
pub enum OrderFault {
    /// A growth was refused.
    Memory,
    /// The inputs can't be read: a file, an index or a member is missing or bad, or groups aren't lawful. Nothing is said of
    /// the lines then.
    Unreadable,
    /// The inputs can be read, and the lines aren't right.
    Unordered,
}

impl From<AllocError> for OrderFault {
    ghost from_gives = { λ _ f. f ≡ fault.Memory };

    fn from(_error: AllocError) -> OrderFault {
        OrderFault::Memory
    }
}

impl<T: Drop> From<AllocFailed<T>> for OrderFault {
    ghost from_gives = { λ _ f. f ≡ fault.Memory };

    fn from(_error: AllocFailed<T>) -> OrderFault {
        OrderFault::from(AllocError)
    }
}

impl From<OpenFault> for OrderFault {
    ghost from_gives = { λ e f. f ≡ fault_of e };

    fn from(error: OpenFault) -> OrderFault {
        match error {
            OpenFault::Memory => OrderFault::Memory,
            _ => OrderFault::Unreadable,
        }
    }
}
