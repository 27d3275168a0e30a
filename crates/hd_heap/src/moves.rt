ghost use Rattle.std.specs.Prelude.{◌≡◌};
ghost use Rattle.hd_heap.specs.Moves.{is_following, is_kept_fate, is_staying, may_card};

use hd_model::Addr;

/// What becomes of a condemned object.
#[derive(Clone, Copy, Debug, PartialEq, Eq)]
pub enum Fate {
    /// It is not kept.
    Dead,
    /// It is kept, and stays where it is, since it is pinned.
    Pinned,
    /// It is the first that is copied into a fresh region.
    MovesToNewRegion,
    /// It is copied after the object before it of its generation.
    Moves,
}

impl Fate {
    /// Whether the object is kept.
    pub fn is_kept(self) -> bool
        ensures { result ≡ is_kept_fate self }
    {
        match self {
            Fate::Dead => false,
            Fate::Pinned | Fate::MovesToNewRegion | Fate::Moves => true,
        }
    }

    /// Whether the object is kept and stays where it is.
    pub fn stays(self) -> bool
        ensures { result ≡ is_staying self }
    {
        match self {
            Fate::Pinned => true,
            Fate::Dead | Fate::MovesToNewRegion | Fate::Moves => false,
        }
    }

    /// Whether the object is copied after the one before it of its generation.
    pub(crate) fn follows(self) -> bool
        ensures { result ≡ is_following self }
    {
        match self {
            Fate::Moves => true,
            Fate::Dead | Fate::Pinned | Fate::MovesToNewRegion => false,
        }
    }
}

/// One condemned object: where it is and where it goes, the same address where it is not kept or
/// stays, the number of its fields, and the generation to which it is promoted if it is kept.
#[derive(Clone, Copy, Debug, PartialEq, Eq)]
pub struct Move {
    pub from: Addr,
    pub to: Addr,
    pub fields: u16,
    pub generation: u8,
    pub fate: Fate,
}

impl Move {
    /// Whether the object may need a set card: it is kept, it has fields, and its new generation is
    /// not the youngest that an object has after a collection.
    pub fn may_card(self) -> bool
        ensures { result ≡ may_card self }
    {
        self.fate.is_kept() && self.generation > 1 && self.fields != 0
    }
}
