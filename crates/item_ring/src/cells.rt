//! A block of raw memory: a row of places, each empty or holding a value. Only this file touches a
//! pointer.
ghost use Rattle.std.specs.Prelude.{◌≡◌, ℕ, ◌<◌, ◌*◌, List, Option, Some, None, length, replicate, get_or, slice_set, IfOk, ⊤};
ghost use Rattle.std.specs.Mem.{type_size};
ghost use Rattle.std.specs.Vec.Ownership.{FitsInBlock};
ghost use base.Fml.{ftrue};
ghost use denote.RawPtr.{Ptr, ◌+ₚ◌};
ghost use Rattle.item_ring.specs.Memory.{cells_own, cells_lent, deed_owns, IsFilled};

use std::alloc::{AllocError, Allocator};
use std::marker::{Model, PhantomData};
use std::mem::{align_of, size_of};

/// The address of a place. It owns nothing, and may be kept, copied and passed about.
#[derive(Clone, Copy, Drop)]
pub(crate) struct Link {
    at: *const u8,
}

/// The owner of a block's places. It takes no space.
pub(crate) struct Cells<T> {
    mark: PhantomData<*const T>,
    ghost at: { Ptr },
    ghost slots: { List (Option T) },
}

impl<T> Model for Cells<T> {
    ghost also_owns = { λ c. cells_own T.row c.at c.slots };

    ghost also_shares = { λ c _ κ. cells_lent T.row c.at c.slots κ };
}

/// The right to give the block of `len` places at `at` back to `alloc`. It takes no space.
pub(crate) struct Deed<T, A: Allocator> {
    mark: PhantomData<*const (T, A)>,
    ghost at: { Ptr },
    ghost len: { ℕ },
    ghost alloc: { A },
}

impl<T, A: Allocator> Model for Deed<T, A> {
    ghost also_owns = { λ d. deed_owns T.row (A.dealloc_token d.alloc) d.at d.len };

    ghost also_shares = { λ _ _ _. ftrue };
}

/// A new block of `len` empty places, the owner of its places and the right to give it back.
pub(crate) fn allocate<T, A: Allocator>(
    alloc: &A,
    len: usize,
) -> Result<(Link, Cells<T>, Deed<T, A>), AllocError>
    requires { FitsInBlock T.row len }
    ensures { IfOk result (λ r.
        (r.1.at ≡ r.0.at)
        × (r.1.slots ≡ replicate len None)
        × (r.2.at ≡ r.0.at)
        × (r.2.len ≡ len)
        × (r.2.alloc ≡ alloc.now)) }
{
    let Ok(block) = alloc.allocate(len * size_of::<T>(), align_of::<T>()) else {
        return Err(AllocError);
    };
    let start = Link {
        at: block as *const u8,
    };
    Ok((
        start,
        Cells { mark: PhantomData },
        Deed { mark: PhantomData },
    ))
}

/// Gives the block back. The values that stand in it are forgotten.
pub(crate) fn deallocate<T, A: Allocator>(
    alloc: &A,
    start: Link,
    len: usize,
    cells: Cells<T>,
    deed: Deed<T, A>,
)
    requires { (cells.at ≡ start.at)
        × (length cells.slots ≡ len)
        × (deed.at ≡ start.at)
        × (deed.len ≡ len)
        × (deed.alloc ≡ alloc.now) }
{
    let Cells { mark: _ } = cells;
    let Deed { mark: _ } = deed;
    unsafe {
        alloc.deallocate(start.at as *mut u8, len * size_of::<T>(), align_of::<T>());
    }
}

impl<T> Cells<T> {
    /// The link to the place at the index, of a block that begins at `start`.
    pub(crate) fn link(&self, start: Link, index: usize) -> Link
        requires { (start.at ≡ self.now.at) × (index < length self.now.slots) }
        ensures { result.at ≡ self.now.at +ₚ (index * type_size T.row) }
    {
        unsafe {
            Link {
                at: (start.at as *const T).add(index) as *const u8,
            }
        }
    }

    /// Follows the link to a value. The index, the place that the link leads to, serves the proof
    /// alone.
    pub(crate) fn get(&self, link: Link, index: usize) -> &T
        requires { (link.at ≡ self.now.at +ₚ (index * type_size T.row))
            × IsFilled self.now.slots index }
        ensures { get_or self.now.slots index None ≡ Some result.now }
    {
        unsafe { &*(link.at as *const T) }
    }

    /// Puts the item where the link leads. What stood there is forgotten.
    pub(crate) fn write(&mut self, link: Link, index: usize, item: T)
        requires { (link.at ≡ self.old.at +ₚ (index * type_size T.row))
            × (index < length self.old.slots) }
        ensures { (self.new.at ≡ self.old.at)
            × (self.new.slots ≡ slice_set self.old.slots index (Some item)) }
    {
        unsafe { (link.at as *mut T).write(item) }
    }
}
