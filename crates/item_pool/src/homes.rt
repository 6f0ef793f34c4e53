//! Homes: a serial's last bits say where it may lie with its slot, and one serial can lie there.
ghost use Rattle.std.specs.Prelude.{◌≡◌, ℕ, ◌+◌, ◌*◌, ◌%◌, ◌^◌, ◌<◌, ◌≤◌, length, nat_eq, if◌then◌else◌, ◌↔◌, Some, None, OnOk, IsTrue, IsFalse, IsSome};
ghost use Rattle.std.specs.Int.{IsPowerOfTwo};
ghost use Rattle.item_pool.specs.Homes.{at_home, settled, IsFree, AreFree, StayFree};
ghost use Rattle.item_pool.specs.Lookups.{Sets};
ghost use Rattle.item_pool.specs.declared.homes.TheConstants.{FIRST_HOMES};

use std::alloc::{AllocError, Global};
use std::marker::Model;

/// How many homes there are first, a power of two.
const FIRST_HOMES: usize = 64;

/// The slot of a serial, where the serial is at home.
#[derive(Clone, Copy)]
pub struct Home {
    serial: u32,
    slot: u32,
}

/// A home where no serial ever was.
const NOBODY: Home = Home { serial: 0, slot: 0 };

/// The homes of a table, none at first and then a power of two. A serial that lies elsewhere than
/// in its own home, as a doubling leaves it, isn't there, and its place is free.
#[derive(Drop)]
pub struct Homes {
    places: Vec<Home>,
}

impl Model for Homes {
    ghost use Rattle.std.specs.Prelude.{List};
    ghost use Rattle.item_pool.specs.declared.homes.Home.{Home};

    ghost Value = { List Home };

    ghost use Rattle.item_pool.specs.Homes.{AreHomes};

    ghost view = { λ h. h.places.items };

    ghost invariant = { λ h. AreHomes h.places.items };
}

/// The place of a serial's home, of `len` places.
#[inline]
fn home_of(serial: u32, len: usize) -> usize
    requires { IsPowerOfTwo len }
    ensures { result ≡ serial % len }
{
    serial as usize & (len - 1)
}

impl Homes {
    /// No homes, which take no memory.
    pub(crate) fn new(alloc: Global) -> Homes
        ensures { (s : ℕ) → at_home result s ≡ None }
    {
        Homes {
            places: Vec::new(alloc),
        }
    }

    /// The slot of a serial that is at home.
    #[inline]
    pub(crate) fn get(&self, serial: u32) -> Option<u32>
        ensures { result ≡ at_home self.now serial }
    {
        if self.places.is_empty() {
            return None;
        }
        let home = self.places[home_of(serial, self.places.len())];
        if home.serial == serial && serial != 0 {
            Some(home.slot)
        } else {
            None
        }
    }

    /// Whether a serial has a home at which nobody is.
    #[inline]
    fn is_free(&self, serial: u32) -> bool
        ensures { IsTrue result ↔ IsFree self.now serial }
    {
        let len = self.places.len();
        if len == 0 {
            return false;
        }
        let place = home_of(serial, len);
        let home = self.places[place];
        home.serial == 0 || home_of(home.serial, len) != place
    }

    /// Of how many serials from `first` on, `most` at most, there are homes at which nobody is.
    pub(crate) fn free_from(&self, first: u32, most: u32) -> u32
        requires { first + most < 2 ^ 32 }
        ensures free { AreFree self.now first result }
        ensures most { result ≤ most }
    {
        for k in 0..most {
            if k as usize == self.places.len() || !self.is_free(first + k) {
                return k;
            }
        }
        most
    }

    /// Puts a serial into its home where that is free, and answers whether it was.
    #[inline]
    pub(crate) fn settle(&mut self, serial: u32, slot: u32) -> bool
        requires { 0 < serial }
        ensures free { IsTrue result ↔ IsFree self.old serial }
        ensures settled { IsTrue result
            → Sets (at_home self.old) (at_home self.new) serial (Some slot) }
        ensures placed { IsTrue result → self.new ≡ settled self.old serial slot }
        ensures taken { IsFalse result → self.new ≡ self.old }
    {
        if !self.is_free(serial) {
            return false;
        }
        let place = home_of(serial, self.places.len());
        self.places[place] = Home { serial, slot };
        true
    }

    /// Takes a serial out of its home, and answers whether it was there.
    #[inline]
    pub(crate) fn leave(&mut self, serial: u32) -> bool
        ensures there { IsTrue result ↔ IsSome (at_home self.old serial) }
        ensures gone { Sets (at_home self.old) (at_home self.new) serial None }
        ensures free { StayFree self.old self.new }
    {
        if self.get(serial).is_none() {
            return false;
        }
        let place = home_of(serial, self.places.len());
        self.places[place] = NOBODY;
        true
    }

    /// Makes homes for at least as many values, where there is memory for them. Who is at home
    /// stays there.
    pub(crate) fn widen(&mut self, values: u32)
        ensures kept { (s : ℕ) → at_home self.new s ≡ at_home self.old s }
        ensures free { StayFree self.old self.new }
    {
        while self.places.len() < values as usize {
            if self.double().is_err() {
                return;
            }
        }
    }

    /// Twice as many homes, or the first ones. With the homes there twice, each serial is in its
    /// new home, whichever of the two that is, and the other is free.
    fn double(&mut self) -> Result<(), AllocError>
        ensures kept { (s : ℕ) → at_home self.new s ≡ at_home self.old s }
        ensures free { StayFree self.old self.new }
        ensures ok { OnOk result
            (length self.new
            ≡ (if nat_eq (length self.old) 0 then FIRST_HOMES else 2 * length self.old)) }
    {
        if self.places.is_empty() {
            self.places.resize(FIRST_HOMES, NOBODY)
        } else {
            self.places.extend_from_within(..)
        }
    }
}
