//! What contracts see of a value where no field shows it, held by a struct that takes no memory.
ghost use Rattle.std.specs.Prelude.{◌≡◌};
ghost use Rattle.std.specs.Borrow.{ftrue};

use std::marker::{Model, PhantomData};

/// A value that only contracts see, as `view`. It takes no memory, and its methods do nothing at
/// run time. As the field of a struct, it says what the struct stands for, and the invariant of
/// the struct ties that to the other fields.
///
/// `T` is the type that contracts see: any type of code, or an empty struct whose `Model` has
/// a value of `specs/`.
pub struct Seen<T> {
    mark: PhantomData<*const T>,
    pub ghost view: { T },
}

impl<T> Model for Seen<T> {
    ghost also_owns = { λ _. ftrue };
}

impl<T> Drop for Seen<T> {
    fn drop(self) {
        let Seen { mark: _ } = self;
    }
}

impl<T> Seen<T> {
    /// At the start `first` is seen.
    pub fn nothing() -> Seen<T>
        ghost first: { T }
        ensures { result.view ≡ first }
    {
        Seen { mark: PhantomData }
    }

    /// From here on `to` is seen.
    pub fn becomes(&mut self)
        ghost to: { T }
        ensures { self.new.view ≡ to }
    {}
}

#[cfg(test)]
mod tests {
    use super::*;
    use std::mem::size_of;

    #[test]
    fn it_takes_no_memory(rt: HostRuntime) {
        let mut seen: Seen<[u64; 4]> = Seen::nothing();
        seen.becomes();
        assert_eq!(rt; size_of::<Seen<[u64; 4]>>(), 0);
    }
}
