//! A station as C holds it: a box behind a pointer, or none where the pointer is null.
ghost use Rattle.std.specs.Prelude.{◌≡◌, MatchOption};
ghost use Rattle.std.specs.declared.alloc.Global.{Global as Heap};
ghost use Rattle.std.specs.Box.Ownership.{box_owns};
ghost use Rattle.nb_calls.specs.declared.handle.Kept.{Kept};
ghost use Rattle.nb_calls.specs.Handles.{kept_code, IsHere, IsNone, IsLookedAt};

use nb_member::Member;
use std::alloc::{Allocator, Global};
use std::marker::Model;
use std::{mem, ptr};

/// A station: the pointer to its box, or null. It owns what the box holds.
#[repr(C)]
pub struct NbtStation {
    at: *mut (),
    ghost value: { Kept } by { kept_code },
    ghost heap: { Heap },
}

impl Model for NbtStation {
    ghost use Rattle.std.specs.Box.Ownership.{box_owns};
    ghost use Rattle.std.specs.Ptr.{if_non_null};
    ghost use Rattle.std.specs.contracts.impls.GlobalAllocator.TheImpl.{ghosts};
    ghost use Rattle.nb_calls.specs.contracts.handle.Kept.{the_row};

    ghost also_owns = { λ h. if_non_null h.at
        (box_owns (ghosts.dealloc_token h.heap) the_row h.at h.value) };
}

/// What is kept for a station between calls.
#[derive(Drop)]
pub struct Kept {
    /// Its names, settings and table.
    pub member: Member,
}

/// Shuts a box.
pub(crate) fn hide(parts: Parts<Kept, Global>) -> NbtStation
    ensures { (result.value ≡ parts.value) × IsHere result.at }
{
    let Parts { ptr, alloc: _ } = parts;
    NbtStation { at: ptr as *mut () }
}

/// Opens it again.
fn show(alloc: Global, station: NbtStation) -> Parts<Kept, Global>
    requires { IsHere station.at }
    ensures { result.value ≡ station.value }
{
    let NbtStation { at } = station;
    Parts {
        ptr: at as *mut Kept,
        alloc,
    }
}

/// The pointer to a station, which stays behind it.
pub(crate) fn pointer_of(station: NbtStation) -> *mut ()
    ensures { result ≡ station.at }
{
    let NbtStation { at } = station;
    at
}

/// A station that is none.
fn none() -> NbtStation
    ensures { IsNone result.at }
{
    NbtStation {
        at: ptr::null_mut(),
    }
}

/// Lets a station go that is none.
pub fn let_go(station: NbtStation)
    requires { IsNone station.at }
{
    let _at = pointer_of(station);
}

/// The station, and whether it is none.
fn looked_at(station: NbtStation) -> (NbtStation, bool)
    ensures { IsLookedAt station.at result.0.at station.value result.0.value result.1 }
{
    let NbtStation { at } = station;
    let is_none = at.is_null();
    (NbtStation { at }, is_none)
}

/// The box of a station, in whose place none is left; nothing where there is none.
pub fn taken(alloc: Global, station: &mut NbtStation) -> Option<Box<Kept>>
    ensures left { IsNone station.new.at }
    ensures given { MatchOption result (IsNone station.old.at)
        (λ kept. IsHere station.old.at × (kept.value ≡ station.old.value)) }
{
    let (was, is_none) = looked_at(mem::replace(station, none()));
    if is_none {
        let_go(was);
        return None;
    }
    Some(show(alloc, was).into_box())
}

/// Puts the box of a station to where none is left.
pub fn put_back(station: &mut NbtStation, kept: Box<Kept>)
    requires { IsNone station.old.at }
    ensures { (station.new.value ≡ kept.value) × IsHere station.new.at }
{
    let_go(mem::replace(station, hide(Parts::of(kept))));
}

/// A box as its pointer.
pub struct Parts<T, A: Allocator> {
    pub(super) ptr: *mut T,
    pub(super) alloc: A,
    pub ghost value: { T },
}

impl<T, A: Allocator> Model for Parts<T, A> {
    ghost also_owns = { λ p. box_owns (A.dealloc_token p.alloc) T.row p.ptr p.value };
}

impl<T, A: Allocator> Parts<T, A> {
    /// A box as its pointer.
    pub fn of(b: Box<T, A>) -> Parts<T, A>
    where
        T: Drop,
        ensures { result.value ≡ b.value }
    {
        let (ptr, alloc) = Box::into_raw_with_allocator(b);
        Parts { ptr, alloc }
    }

    /// The box of it.
    pub fn into_box(self) -> Box<T, A>
        ensures { result.value ≡ self.value }
    {
        let Parts { ptr, alloc } = self;
        unsafe { Box::from_raw(alloc, ptr) }
    }
}
