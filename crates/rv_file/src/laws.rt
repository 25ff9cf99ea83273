//! The laws of the grammar.

ghost use Rattle.rv_rules.specs.Laws.{NoProperPrefix};
ghost use Rattle.rv_rules.specs.Laws.{FormIsGrammar};

/// The form of a file is good exactly where some parts spell it, and then these are what is read.
pub fn form_is_grammar()
    ensures { FormIsGrammar }
{}

/// Parts have one spelling, a file has one list of parts, and no spelling is a proper prefix of another.
pub fn no_proper_prefix()
    ensures { NoProperPrefix }
{}
