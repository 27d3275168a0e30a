// Cards are set exactly where an object that starts in them has a field to a younger one.
ghost use Rattle.std.specs.Prelude.{◌≡◌, ◌≢◌, ◌+◌, ◌*◌, ◌/◌, ◌<◌, ◌≤◌, ◌↔◌, ℕ, Bool, true, false, length};
ghost use Rattle.hd_model.specs.{Names.HasClosedFields, Ages.HasSoundCards, Scene.generation_at};
ghost use Rattle.hd_model.specs.Heap.{has_object, object_at, card_of, is_set, is_carded};
ghost use Rattle.hd_heap.specs.{Calls.IsWalk, Calls.with_card, Sound.IsSound, Moves.is_kept_fate, Moves.may_card, Moves.move_at};
ghost use Rattle.hd_plan.specs.Commit.{NeedsCard};
ghost use Rattle.hd_plan.specs.Inside.{AreAlike, AreCarded, IsKeptAt, MayCard, NamesYounger, starts_in};

use crate::moves::{Condemned, Move};
use hd_heap::Heap;
use hd_model::Addr;
use hd_model::limits::CARD;

/// Sets the card of each kept object of these moves that references a younger one, at its new
/// address. Where all condemned regions have one next generation none does, and no move is looked
/// at.
pub(crate) fn card_kept(heap: &mut Heap, moves: &[Move], regions: &[Condemned])
    requires alike { AreAlike regions.now → (k : ℕ) → k < length moves.now
        → is_kept_fate (move_at moves.now k).fate ≡ true
        → NamesYounger heap.old (move_at moves.now k).to → ⊥ }
    requires with_free { (k : ℕ) → k < length moves.now
        → may_card (move_at moves.now k) ≡ false
        → is_kept_fate (move_at moves.now k).fate ≡ true
        → NamesYounger heap.old (move_at moves.now k).to → ⊥ }
    requires objects { (a : Addr) → IsKeptAt moves.now (length moves.now) a
        → has_object heap.old a ≡ true }
    requires fields { HasClosedFields (object_at heap.old) }
    ensures { AreCarded heap.old heap.new moves.now (length moves.now) }
{
    if are_alike(regions) {
        return;
    }
    for object in moves {
        card_if_needed(heap, *object);
    }
}

// Whether all these regions have one next generation.
fn are_alike(regions: &[Condemned]) -> bool
    ensures { result ≡ true → AreAlike regions.now }
{
    for region in regions {
        if region.generation != regions[0].generation {
            return false;
        }
    }
    true
}

// Sets the card of one object if it is kept and references a younger one.
fn card_if_needed(heap: &mut Heap, object: Move)
    requires with_free { may_card object ≡ false → is_kept_fate object.fate ≡ true
        → NamesYounger heap.old object.to → ⊥ }
    requires object { is_kept_fate object.fate ≡ true → has_object heap.old object.to ≡ true }
    requires fields { HasClosedFields (object_at heap.old) }
    ensures { MayCard heap.old heap.new object }
{
    if object.may_card() {
        if names_younger(heap, object.to) {
            heap.set_card(object.to, true);
        }
    }
}

/// Clears each set card that no object needs, and notes where none is set afterwards.
pub(crate) fn clear_unneeded(heap: &mut Heap)
    requires fields { HasClosedFields (object_at heap.old) }
    requires cards { HasSoundCards (object_at heap.old) (is_carded heap.old) }
    requires grown { (a : Addr) → has_object heap.old a ≡ true
        → 0 < generation_at (object_at heap.old) a }
    ensures same { heap.new ≡ record heap.old { cards = heap.new.cards } }
    ensures exact { (card : ℕ) → (is_set heap.new card ≡ true) ↔ NeedsCard heap.new card }
{
    let mut after = None;
    let mut some = false;
    while let Some(at) = heap.next_carded(after, 0) {
        some |= make_exact(heap, at);
        after = Some(last_cell(at));
    }
    if !some {
        heap.note_no_card();
    }
}

// Sets the card in which an object starts where it is needed, and clears it otherwise. It is given
// the first object that starts in the card, and returns whether it is needed.
fn make_exact(heap: &mut Heap, first: Addr) -> bool
    requires object { has_object heap.old first ≡ true }
    requires first { (b : Addr) → starts_in heap.old (card_of first) b ≡ true → first.0 ≤ b.0 }
    requires fields { HasClosedFields (object_at heap.old) }
    ensures decides { (result ≡ true) ↔ NeedsCard heap.old (card_of first) }
    ensures set { heap.new ≡ with_card heap.old (card_of first) result }
{
    let needed = is_needed(heap, first);
    heap.set_card(first, needed);
    needed
}

// The last cell of the card in which an address is.
#[tactic(auto, unfolding(hd_model::specs::Heap::card_of))]
fn last_cell(at: Addr) -> Addr
    ensures { result.0 + 1 ≡ (card_of at + 1) * CARD }
{
    Addr(at.0 / CARD * CARD + (CARD - 1))
}

// Whether an object that starts in a card has a field to a younger one. It is given the first that
// starts in the card.
fn is_needed(heap: &Heap, first: Addr) -> bool
    requires object { has_object heap.now first ≡ true }
    requires first { (b : Addr) → starts_in heap.now (card_of first) b ≡ true → first.0 ≤ b.0 }
    requires fields { HasClosedFields (object_at heap.now) }
    ensures { (result ≡ true) ↔ NeedsCard heap.now (card_of first) }
{
    let mut next = Some(first);
    while let Some(at) = next {
        if names_younger(heap, at) {
            return true;
        }
        next = next_in_card(heap, at);
    }
    false
}

// The next object that starts in the same card.
fn next_in_card(heap: &Heap, at: Addr) -> Option<Addr>
    ensures walk { IsWalk (starts_in heap.now (card_of at)) (Some at) result }
    ensures sound { IsSound heap.now }
{
    let next = heap.next(Some(at))?;
    if next.0 / CARD == at.0 / CARD {
        Some(next)
    } else {
        None
    }
}

// Whether an object has a field to one of a younger generation.
fn names_younger(heap: &Heap, at: Addr) -> bool
    requires object { has_object heap.now at ≡ true }
    requires fields { HasClosedFields (object_at heap.now) }
    ensures { (result ≡ true) ↔ NamesYounger heap.now at }
{
    heap.names_below(at, heap.generation(at))
}
