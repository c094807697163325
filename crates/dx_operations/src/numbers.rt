//! The numbers of fills and offsets in the faults of an operation.

ghost use Rattle.std.specs.Prelude.{◌≡◌, ◌<◌, ◌^◌};
ghost use Rattle.dx_spec.specs.Lists.{is_empty as has_none};
ghost use Rattle.dx_operations.specs.Refusals.{fault_at as fault_of_number};

use dx_ledger::OpFault;

/// Whether there is no fill, or no offset.
pub(crate) fn is_empty<T>(members: &[T]) -> bool
    ensures { result ≡ has_none members.now }
{
    members.is_empty()
}

/// The fault of the fill or offset of a number.
pub(crate) fn fault_at(number: usize, fault: OpFault) -> OpFault
    requires { number < 2 ^ 32 }
    ensures { result ≡ fault_of_number number fault }
{
    match fault {
        OpFault::NoMemory => OpFault::NoMemory,
        OpFault::Code { code, .. } => OpFault::Code {
            fill: number as u32,
            code,
        },
    }
}
