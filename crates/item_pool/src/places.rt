//! A block of raw memory: a row of places, each of which is empty or holds a value.
//!
//! All that follows a pointer stands here, in six small functions: `allocate`, `deallocate`,
//! `fill`, `take`, `get` and `get_mut`. Whatever is built on them is safe code.
ghost use Rattle.std.specs.Prelude.{◌≡◌, ◌<◌, ℕ, List, Option, Some, None, length, replicate, get_or, slice_set, IfOk, ⊤};
ghost use Rattle.std.specs.Borrow.{sem};
ghost use Rattle.std.specs.Vec.Ownership.{FitsInBlock};
ghost use base.Fml.{ftrue};
ghost use denote.RawPtr.{Ptr};
ghost use Rattle.item_pool.specs.Filled.{IsFilled};
ghost use Rattle.item_pool.specs.Ownership.{places_owned, places_lent, deed_owned};

use std::alloc::{AllocError, Allocator};
use std::marker::{Model, PhantomData};
use std::mem::{align_of, size_of};

/// Where a block starts. It owns nothing.
pub struct Start<T> {
    ptr: *mut T,
}

impl<T> Clone for Start<T> {
    ghost is_clone = { λ x y. y ≡ x };

    ghost is_infallible = { λ _. ⊤ };

    fn clone(&self) -> Result<Start<T>, AllocError> {
        Ok(*self)
    }
}

impl<T> Copy for Start<T> {}

/// The owner of a block's places. It takes no bytes.
pub struct Places<T> {
    mark: PhantomData<*const T>,
    ghost at: { Ptr },
    ghost row: { List (Option T) },
}

impl<T> Model for Places<T> {
    ghost also_owns = { λ p. places_owned T.row p.at p.row };

    ghost also_shares = { λ p _ κ. places_lent T.row p.at p.row κ };
}

/// The right to give a block of `len` places back to the allocator that it came from. It takes no
/// bytes.
pub struct Deed<T, A: Allocator> {
    mark: PhantomData<*const (T, A)>,
    ghost at: { Ptr },
    ghost len: { ℕ },
    ghost alloc: { A },
}

impl<T, A: Allocator> Model for Deed<T, A> {
    ghost also_owns = { λ d. deed_owned T.row (A.dealloc_token d.alloc) d.at d.len };

    ghost also_shares = { λ _ _ _. ftrue };
}

/// Allocates a block of `len` empty places, or answers that there is no memory.
pub(crate) fn allocate<T, A: Allocator>(
    alloc: &A,
    len: usize,
) -> Result<(Start<T>, Places<T>, Deed<T, A>), AllocError>
    requires { FitsInBlock T.row len }
    ensures { IfOk result (λ r.
        (r.1.at ≡ r.0.ptr)
        × (r.1.row ≡ replicate len None)
        × (r.2.at ≡ r.0.ptr)
        × (r.2.len ≡ len)
        × (r.2.alloc ≡ alloc.now)) }
{
    let Ok(block) = alloc.allocate(len * size_of::<T>(), align_of::<T>()) else {
        return Err(AllocError);
    };
    let start = Start {
        ptr: block as *mut T,
    };
    Ok((
        start,
        Places { mark: PhantomData },
        Deed { mark: PhantomData },
    ))
}

/// Gives a block of empty places back.
pub(crate) fn deallocate<T, A: Allocator>(
    alloc: &A,
    start: Start<T>,
    len: usize,
    places: Places<T>,
    deed: Deed<T, A>,
)
    requires { (places.at ≡ start.ptr)
        × (places.row ≡ replicate len None)
        × (deed.at ≡ start.ptr)
        × (deed.len ≡ len)
        × (deed.alloc ≡ alloc.now) }
{
    let Places { mark: _ } = places;
    let Deed { mark: _ } = deed;
    unsafe {
        alloc.deallocate(start.ptr as *mut u8, len * size_of::<T>(), align_of::<T>());
    }
}

impl<T> Places<T> {
    ghost use Rattle.item_pool.specs.PlaceLent.{lends_place};

    /// Puts a value into an empty place.
    pub(crate) fn fill(&mut self, start: Start<T>, index: usize, value: T)
        requires { (start.ptr ≡ self.old.at)
            × (index < length self.old.row)
            × (get_or self.old.row index None ≡ None) }
        ensures { (self.new.at ≡ self.old.at)
            × (self.new.row ≡ slice_set self.old.row index (Some value)) }
    {
        unsafe { start.ptr.add(index).write(value) }
    }

    /// Takes the value out of a place, which is empty from then on.
    pub(crate) fn take(&mut self, start: Start<T>, index: usize) -> T
        requires { (start.ptr ≡ self.old.at) × IsFilled self.old.row index }
        ensures value { get_or self.old.row index None ≡ Some result }
        ensures row { (self.new.at ≡ self.old.at)
            × (self.new.row ≡ slice_set self.old.row index None) }
    {
        unsafe { start.ptr.add(index).read() }
    }

    /// The value in a place.
    #[inline]
    pub(crate) fn get(&self, start: Start<T>, index: usize) -> &T
        requires { (start.ptr ≡ self.now.at) × IsFilled self.now.row index }
        ensures { get_or self.now.row index None ≡ Some result.now }
    {
        unsafe { &*start.ptr.add(index) }
    }

    /// The value in a place, to be written to.
    #[inline]
    pub(crate) fn get_mut(&mut self, start: Start<T>, index: usize) -> &mut T
        requires { (start.ptr ≡ self.old.at) × IsFilled self.old.row index }
        ensures* writes_back { sem 𝓛 (lends_place T.row self.entry index result) }
        ensures value { get_or self.old.row index None ≡ Some result.now }
    {
        unsafe { &mut *start.ptr.add(index) }
    }
}
