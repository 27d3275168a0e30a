/// What a word after the word of a command has to be.
#[derive(Clone, Copy, Debug, PartialEq, Eq)]
pub enum Operand {
    /// An object register, r0 to r15.
    Object,
    /// A handle register, h0 to h15.
    Handle,
    /// A number from 0 to this one.
    Number(u64),
    /// A kind of handle.
    Kind,
    /// A kind of handle without extra data.
    PlainKind,
    /// The strength of a variable handle.
    Strength,
    /// The word `fin`.
    Fin,
}
