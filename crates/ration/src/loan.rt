//! The memory that is lent, as it crosses from C or from a host.
ghost use Rattle.std.specs.Prelude.{◌≡◌, ◌*◌, ◌/◌, ◌%◌, IfSome};
ghost use Rattle.ration.specs.Blocks.{bytes_at};

use std::alloc::Allocator;
use std::marker::Model;

/// What blocks are aligned to, and what sizes are rounded up to.
pub(crate) const UNIT: usize = 16;

/// `size` bytes from `ptr` on, aligned to 16, which nobody else reads or writes. What they hold does not matter.
///
/// Whoever lends them from outside must see to that: this type owns the bytes, and no code can check it.
#[repr(C)]
#[derive(Drop)]
pub struct Loan {
    pub ptr: *mut u8,
    pub size: usize,
}

impl Model for Loan {
    ghost also_owns = { λ loan. bytes_at loan.ptr loan.size };
}

impl Loan {
    /// Takes `size` bytes, rounded down to a multiple of 16, from an allocator that aligns blocks to 16, as `Global` does. They are never
    /// given back to it.
    pub fn taken<A: Allocator>(alloc: &A, size: usize) -> Option<Loan>
        ensures { IfSome result (λ loan. loan.size ≡ size / 16 * 16) }
    {
        Loan::whole(alloc, size / UNIT * UNIT)
    }

    fn whole<A: Allocator>(alloc: &A, size: usize) -> Option<Loan>
        requires { size % 16 ≡ 0 }
        ensures { IfSome result (λ loan. loan.size ≡ size) }
    {
        match alloc.allocate(size, UNIT) {
            Ok(ptr) => Some(Loan { ptr, size }),
            Err(_) => None,
        }
    }
}
