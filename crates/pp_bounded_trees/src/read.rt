//! The value that a symbol stands for under an assignment.

ghost use Rattle.std.specs.Prelude.{◌≡◌, ◌<◌, length, Some, IfOk};
ghost use Rattle.pp_clause.specs.Assignment.{assigned};
ghost use Rattle.pp_clause.specs.Literal.{lit_value};
ghost use Rattle.pp_domain.specs.Naming.{Naming};
ghost use Rattle.pp_domain.specs.Symbols.{SymbolStands};
ghost use Rattle.pp_bounded_trees.specs.Meaning.{bounded_sense};
ghost use Rattle.pp_bounded_trees.specs.Readable.{HasTrue, IsFirstTrue, IsReadable};
ghost use Rattle.pp_bounded_trees.specs.Values.{symbol_value, values_of};

use crate::NoMemory;
use crate::arena::{Alternative, BoundedTree, Trees};
use pp_clause::{Assignment, Lit};
use pp_domain::Symbol;
use pp_list::Items;
use pp_prog::{TypeTable, Value};
use std::alloc::Global;

/// The value of a literal.
fn truth_of(assignment: &Assignment, lit: Lit) -> bool
    ensures { result ≡ lit_value (assigned assignment.now) lit }
{
    assignment.value(lit.var()) == lit.is_positive()
}

/// The place of the first constructor whose literal is true. There is one.
fn first_true(assignment: &Assignment, alternatives: &[Alternative]) -> usize
    requires { HasTrue (assigned assignment.now) alternatives.now }
    ensures own { IsFirstTrue (assigned assignment.now) alternatives.now result }
    ensures within { result < length alternatives.now }
{
    for place in 0..alternatives.len() {
        if truth_of(assignment, alternatives[place].lit) {
            return place;
        }
    }
    0
}

impl Trees {
    /// The value that the symbol stands for under the assignment. It does stand for one, and the assignment gives each
    /// gate of the domain's circuit its value.
    pub fn read(
        &self,
        alloc: Global,
        table: &TypeTable,
        assignment: &Assignment,
        symbol: &Symbol<BoundedTree>,
    ) -> Result<Value, NoMemory>
        requires { IsReadable table.now self.now (assigned assignment.now) symbol.now }
        ensures { IfOk result (λ v. (n : Naming) → SymbolStands bounded_sense self.now (assigned assignment.now) n
            symbol.now v) }
    {
        let value = self.value_of(alloc, table, assignment, symbol)?;
        Ok(value)
    }

    /// The same: that of a tree has the constructor whose literal is true.
    fn value_of(
        &self,
        alloc: Global,
        table: &TypeTable,
        assignment: &Assignment,
        symbol: &Symbol<BoundedTree>,
    ) -> Result<Value, NoMemory>
        requires { IsReadable table.now self.now (assigned assignment.now) symbol.now }
        ensures { IfOk result (λ v. symbol_value (assigned assignment.now)
            (values_of (assigned assignment.now) self.now.nodes) symbol.now ≡ Some v) }
    {
        match symbol {
            Symbol::Word(word) => Ok(Value::Int(pp_wordgate::value(assignment, *word))),
            Symbol::Bit(lit) => Ok(Value::Bool(truth_of(assignment, *lit))),
            Symbol::Tree(tree) => {
                let alternatives = self.alternatives(tree);
                let place = first_true(assignment, alternatives);
                let own = &alternatives[place];
                let fields = own.fields.as_slice();
                let mut values = Items::new(alloc);
                for field in fields {
                    let value = self.value_of(alloc, table, assignment, field)?;
                    values.push(value)?;
                }
                Ok(Value::Tree(own.ctor, values))
            }
        }
    }
}
