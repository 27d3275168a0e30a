ghost use Rattle.hd_custody.specs.Misses.{MissesFoundNone};
ghost use Rattle.hd_custody.specs.Laws.{EachSlotIsInOnePlace, AFreeGateHasTheWorld, WordsAreNumbered, KindWordsAreNumbered, BoundsAreNumbered};

use hd_model::Held;

/// Between any two steps each slot of a block of handles is in exactly one place: a set bit of its
/// block's mask, one quick word or cell, the slots held by one seat, or live in the world. A slot
/// of any other block is in none. So no slot is given twice, and none is lost.
pub fn each_slot_is_in_one_place<W: Held>()
    ensures { EachSlotIsInOnePlace W.Held }
{}

/// Between any two steps at which the gate is free, the table has one world: its kinds are the kind
/// words, its journal has each caller's part and begins with what each has seen, and it is sound.
pub fn a_free_gate_has_the_world<W: Held>()
    ensures { AFreeGateHasTheWorld W.Held }
{}

/// A whole miss found no slot in any word of the kind: each quick word and cell gave 0, and the
/// mask of each block whose kind word was the kind gave 0, or the kind word loaded after it was
/// another.
pub fn misses_found_none()
    ensures { MissesFoundNone }
{}

/// The numbers of the words, the values of a kind word, and the bounds of the calls, as numerals.
pub fn numbers_are_these()
    ensures words { WordsAreNumbered }
    ensures kind_words { KindWordsAreNumbered }
    ensures bounds { BoundsAreNumbered }
{}
