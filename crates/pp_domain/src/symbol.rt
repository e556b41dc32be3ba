//! Symbols: words, literals and trees that stand for values.

use pp_clause::Lit;
use pp_gate::Word;
use pp_list::Items;

/// What stands for a value: a word for a number, a literal for a truth value, a tree of a domain for a constructor
/// value.
#[derive(Clone, Copy)]
pub enum Symbol<T> {
    Word(Word),
    Bit(Lit),
    Tree(T),
}

/// A list of symbols.
pub type Symbols<T> = Items<Symbol<T>>;
