use crate::row::BlockKind;

/// One block: what it is used for; and if it has handles, the data block with their extras, if they
/// have any.
#[derive(Clone, Copy)]
pub(crate) struct Block {
    pub(crate) kind: BlockKind,
    pub(crate) extras: Option<u32>,
}

/// An unused block.
pub(crate) const UNUSED: Block = Block {
    kind: BlockKind::Unused,
    extras: None,
};
