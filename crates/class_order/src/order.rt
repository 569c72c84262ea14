// The order of the classes: depth first in source order, so that each comes after those that its header names.
ghost use Rattle.std.specs.Prelude.{◌≡◌, length, IfOk, OnOk};
ghost use Rattle.class_order.specs.Order.{IsOrder, HasCycle, AreListed};
ghost use Rattle.class_order.specs.declared.order.OrderFault.TheVariants.{Cyclic};

use crate::header::Header;
use crate::walk::{Mark, Walk, visit};
use std::alloc::{AllocError, Global};
use thiserror::Error;

/// Why there is no order.
#[derive(Debug, Drop, PartialEq, Eq, Error)]
pub enum OrderFault {
    /// A class leads back to itself.
    #[error("a class that leads back to itself")]
    Cyclic,
    /// Memory ran out.
    #[error("out of memory")]
    Memory,
}

impl From<AllocError> for OrderFault {
    ghost use Rattle.std.specs.Prelude.{◌≡◌};
    ghost use Rattle.class_order.specs.declared.order.OrderFault.TheVariants.{Memory};

    ghost from_gives = { λ _ fault. fault ≡ Memory };

    fn from(_: AllocError) -> Self {
        OrderFault::Memory
    }
}

/// The numbers of the classes, each once and after all that its header names (ECMA-408, Superclasses and Superinterfaces: no
/// class stands above itself), in the order in which a walk finishes them that goes depth first in source order. `Cyclic`
/// comes exactly where a class leads back to itself. It takes time and memory linear in the headers, and no function calls
/// itself.
pub fn order(alloc: Global, headers: &[Header]) -> Result<Vec<usize>, OrderFault>
    requires { AreListed headers.now }
    ensures order { IfOk result (λ v. IsOrder headers.now v.items) }
    ensures acyclic { OnOk result (HasCycle headers.now → ⊥) }
    ensures cyclic { result ≡ Err Cyclic → HasCycle headers.now }
{
    let mut walk = Walk {
        marks: vec![in alloc; Mark::New; headers.len()]?,
        order: Vec::new(alloc),
        stack: Vec::new(alloc),
    };
    for root in 0..headers.len() {
        visit(headers, &mut walk, root)?;
    }
    Ok(walk.order)
}
