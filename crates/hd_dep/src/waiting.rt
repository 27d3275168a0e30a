// The dependent handles that a pass leaves waiting, in the order of their targets.
ghost use Rattle.std.specs.Prelude.{◌≡◌, ◌-◌, ◌<◌, ◌≤◌, ℕ, true, length, take, slice_get, slice_index_or, vec_capacity, Some, IfSome, IfNone};
ghost use Rattle.std.specs.List.Sorted.{IsPermutation, IsNonDecreasingBy};
ghost use Rattle.hd_model.specs.{Heap.objects_of, Leads.Grows, Scene.is_object, Scene.IsYoungField, declared.data.Addr.Addr as AddrValue};
ghost use Rattle.hd_dep.specs.declared.waiting.Waiting.{Waiting as WaitingValue};
ghost use Rattle.hd_dep.specs.Inside.{AreObjects, Waits, target_of, waiting_row};

use hd_model::{Addr, PromotionLog};

/// A dependent handle whose target is not promoted.
#[derive(Clone, Copy)]
pub(crate) struct Waiting {
    pub(crate) target: Addr,
    pub(crate) secondary: Addr,
}

/// Puts them in the order of their targets.
pub(crate) fn sort(rows: &mut Vec<Waiting>)
    ensures permutation { IsPermutation rows.old.items rows.new.items }
    ensures rising { IsNonDecreasingBy target_of rows.new.items }
    ensures capacity { vec_capacity rows.new ≡ vec_capacity rows.old }
{
    rows.sort_unstable_by_key(|row| row.target.0);
}

/// Promotes the secondaries of those that wait for a target.
pub(crate) fn promote_for<M: PromotionLog>(rows: &[Waiting], target: Addr, marker: &mut M)
    requires rising { IsNonDecreasingBy target_of rows.now }
    requires settled { M.settled marker.old }
    requires objects { AreObjects (objects_of (M.basis marker.old)) rows.now }
    ensures settled { M.settled marker.new }
    ensures basis { M.basis marker.new ≡ M.basis marker.old }
    ensures pinned { M.pinned marker.new ≡ M.pinned marker.old }
    ensures log { take (length (M.log marker.old)) (M.log marker.new) ≡ M.log marker.old }
    ensures grows { let basis = M.basis marker.old in
        Grows (IsYoungField (objects_of basis) basis.condemned) (Waits rows.now target)
        (M.promoted marker.old) (M.promoted marker.new) }
{
    let mut at = end_of(rows, target);
    while let Some(secondary) = secondary_before(rows, at, target) {
        marker.promote_logged(secondary);
        at -= 1;
    }
}

/// How many are before all those of higher targets.
fn end_of(rows: &[Waiting], target: Addr) -> usize
    requires { IsNonDecreasingBy target_of rows.now }
    ensures within { result ≤ length rows.now }
    ensures low { (k : ℕ) (d : WaitingValue) → k < result →
        target_of (slice_index_or rows.now k d) ≤ target.0 }
    ensures high { (k : ℕ) (d : WaitingValue) → result ≤ k → k < length rows.now →
        target.0 < target_of (slice_index_or rows.now k d) }
{
    rows.partition_point(|row| row.target.0 <= target.0)
}

/// The secondary of the last of the first `at`, if it waits for the target.
fn secondary_before(rows: &[Waiting], at: usize, target: Addr) -> Option<Addr>
    requires { at ≤ length rows.now }
    ensures some { IfSome result (λ y. (0 < at)
        × (slice_get rows.now (at - 1) ≡ Some (waiting_row target y))) }
    ensures none { IfNone result ((y : AddrValue) → 0 < at →
        slice_get rows.now (at - 1) ≡ Some (waiting_row target y) → ⊥) }
{
    if at == 0 {
        return None;
    }
    let row = rows[at - 1];
    if row.target.0 == target.0 {
        Some(row.secondary)
    } else {
        None
    }
}
