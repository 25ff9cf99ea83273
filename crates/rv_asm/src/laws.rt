//! The laws of assembly. They compute nothing: each contract is a law.

ghost use Rattle.rv_asm.specs.Laws.{WordsDecode, DisassemblyAssembles, StatementsAreHeld};

/// The word of a statement other than `.word` decodes to the instruction that the statement spells.
pub fn words_decode()
    ensures { WordsDecode }
{}

/// The disassembly of a word that decodes to another instruction than FENCE is assembled to that word.
pub fn disassembly_assembles()
    ensures { DisassemblyAssembles }
{}

/// A source without a fault has as many words as statements, and an image that holds the words holds each statement.
pub fn statements_are_held()
    ensures { StatementsAreHeld }
{}
