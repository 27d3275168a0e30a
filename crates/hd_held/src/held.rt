// An end as C holds it: a pointer, null where it is closed.
ghost use Rattle.std.specs.Prelude.{◌≡◌, None, Some, Option, option_map};
ghost use Rattle.std.specs.Coded.{coded_option};
ghost use Rattle.hd_ends.specs.declared.end.End.{End};
ghost use Rattle.hd_ends.specs.contracts.end.End as end_contract;

use hd_ends::End;
use hd_loose::Loose;
use std::alloc::Global;
use std::marker::Model;
use std::mem::replace;
use std::ptr::null_mut;

/// `hdt_host`: a pointer to the end that it owns, null where it is closed.
#[repr(C)]
pub struct Held {
    at: *mut u8,
    alloc: Global,
    pub ghost value: { Option End } by { coded_option end_contract.the_row.coded },
}

impl Model for Held {
    ghost use Rattle.hd_held.specs.Held.{owned_at};

    ghost also_owns = { λ h. owned_at h.alloc h.at h.value };
}

impl Held {
    // One that is closed.
    #[inline(always)]
    fn closed(alloc: Global) -> Held
        ensures { result.value ≡ None }
    {
        Held {
            at: null_mut(),
            alloc,
        }
    }

    // One that owns an end.
    #[inline(always)]
    fn seal(end: Loose<End, Global>) -> Held
        ensures { result.value ≡ Some end.value }
    {
        let Loose { at, alloc } = end;
        Held {
            at: at as *mut u8,
            alloc,
        }
    }

    // The end that it owned, if it was open.
    #[inline(always)]
    fn unseal(self) -> Option<Loose<End, Global>>
        ensures { option_map (λ l. l.value) result ≡ self.value }
    {
        let Held { at, alloc } = self;
        if at.is_null() {
            None
        } else {
            Some(Loose {
                at: at as *mut End,
                alloc,
            })
        }
    }

    // Ends one that is closed, and so owns nothing.
    #[inline(always)]
    fn end(self)
        requires { self.value ≡ None }
    {
        let Held { at: _, alloc: _ } = self;
    }
}

/// Takes the end out, which is closed from then on.
#[inline(always)]
pub fn take(alloc: Global, held: &mut Held) -> Option<Box<End>>
    ensures value { option_map (λ b. b.value) result ≡ held.old.value }
    ensures closed { held.new.value ≡ None }
{
    match replace(held, Held::closed(alloc)).unseal() {
        Some(end) => Some(end.into_box()),
        None => None,
    }
}

/// Puts an end in, where it was closed.
#[inline(always)]
pub fn put(held: &mut Held, end: Box<End>)
    requires { held.old.value ≡ None }
    ensures { held.new.value ≡ Some end.value }
{
    replace(held, Held::seal(Loose::of(end))).end();
}

// What it owns is an end in a box, and no thread has a part of either: it may go to another thread.
unsafe impl Send for Held {}
