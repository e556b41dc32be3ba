//! The symbols that the calls of a line gave, by their numbers, counted from 0.

ghost use Rattle.std.specs.Prelude.{◌≡◌, IfOk};
ghost use Rattle.pp_domain.specs.declared.symbol.Symbol.TheVariants as symbol;
ghost use Rattle.pp_bounded_cases.specs.Registers.{IsRegister};

use crate::case::number;
use anyhow::{Result, bail};
use pp_clause::Lit;
use pp_domain::Symbol;
use pp_gate::Word;
use pp_named_trees::NamedTree;

/// The symbol whose number the last word spells, which is taken off.
pub fn symbol_at(symbols: &[Symbol<NamedTree>], words: &mut Vec<&str>) -> Result<Symbol<NamedTree>>
    ensures { IfOk result (λ x. IsRegister symbols.now x) }
{
    let place = number(words)? as usize;
    if place >= symbols.len() {
        bail!("no such symbol");
    }
    Ok(symbols[place])
}

/// The tree whose number the last word spells.
pub fn tree_at(symbols: &[Symbol<NamedTree>], words: &mut Vec<&str>) -> Result<NamedTree>
    ensures { IfOk result (λ t. IsRegister symbols.now (symbol.Tree t)) }
{
    match symbol_at(symbols, words)? {
        Symbol::Tree(tree) => Ok(tree),
        Symbol::Word(_) | Symbol::Bit(_) => bail!("no tree"),
    }
}

/// The word whose number the last word of the line spells.
pub fn word_at(symbols: &[Symbol<NamedTree>], words: &mut Vec<&str>) -> Result<Word>
    ensures { IfOk result (λ w. IsRegister symbols.now (symbol.Word w)) }
{
    match symbol_at(symbols, words)? {
        Symbol::Word(word) => Ok(word),
        Symbol::Bit(_) | Symbol::Tree(_) => bail!("no number"),
    }
}

/// The literal whose number the last word spells.
pub fn literal_at(symbols: &[Symbol<NamedTree>], words: &mut Vec<&str>) -> Result<Lit>
    ensures { IfOk result (λ l. IsRegister symbols.now (symbol.Bit l)) }
{
    match symbol_at(symbols, words)? {
        Symbol::Bit(lit) => Ok(lit),
        Symbol::Word(_) | Symbol::Tree(_) => bail!("no literal"),
    }
}
