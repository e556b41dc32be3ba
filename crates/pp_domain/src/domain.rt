//! The trait.

ghost use Rattle.std.specs.Prelude.{◌≡◌, ℕ, ◌+◌, ◌^◌, ◌≤◌, ◌<◌, Bool, true, false, List, length};
ghost use Rattle.std.specs.Prelude.{IfOk, OnOk};
ghost use Rattle.pp_prog.specs.declared.sort.Sort.{Sort};
ghost use Rattle.pp_prog.specs.declared.types.TypeTable.{TypeTable};
ghost use Rattle.pp_gate.specs.declared.gate.Gate.{Gate};
ghost use Rattle.pp_gate.specs.Circuit.{IsCircuit, IsOf};
ghost use Rattle.pp_domain.specs.Sense.{Sense};
ghost use Rattle.pp_domain.specs.Moves.{Moves, Steady, SameLooks, OneComparison};
ghost use Rattle.pp_domain.specs.Allowance.{unknown_gates, construct_gates, look_at_gates, merge_gates, equal_gates};
ghost use Rattle.pp_domain.specs.Allowance.{below_gates};
ghost use Rattle.pp_domain.specs.Answers.{Fresh, IsNew, IsUnknown, IsConstruct, IsCtorTest, IsFieldRead, IsMerge};
ghost use Rattle.pp_domain.specs.Answers.{IsEquality};
ghost use Rattle.pp_domain.specs.Answers.{IsComparison, IsCtorOf, HasField, CanConstruct, AreOfOneData};
ghost use Rattle.pp_domain.specs.Laws.{Lawful};

use crate::symbol::{Symbol, Symbols};
use pp_clause::{Lit, NoMemory};
use pp_gate::Circuit;
use pp_prog::{CtorId, DataId, TypeTable};

/// Symbolic values of datatypes, over a circuit.
pub trait Domain {
    /// A tree that the domain keeps.
    type Tree: Copy;

    /// What the domain and its trees mean.
    ghost sense: { Sense Self Self.Tree };

    /// A domain without trees. It adds nothing to the circuit.
    fn fresh(circuit: &mut Circuit) -> Result<Self, NoMemory>
    where
        Self: Sized,
        ensures same { circuit.new ≡ circuit.old }
        ensures new { IfOk result (λ d. (types : _) → IsNew sense types d circuit.new) };

    /// Says of a domain without trees that fewer than so many values will have to be named, so that its names may be
    /// shorter.
    fn limit_to(&mut self, values: u64)
        ensures fresh { (types : TypeTable) (gs : List Gate) → Fresh sense types self.old gs
            → Fresh sense types self.new gs }
        ensures moves { (types : TypeTable) (gs : List Gate) → Fresh sense types self.old gs
            → Moves sense types self.old gs self.new gs 0 }
        ensures limit { values ≤ sense.limit self.old → values ≤ sense.limit self.new };

    /// The literal that is true where all conditions hold that the domain has put on its inputs so far.
    fn ok(&self) -> Lit
        ensures { result ≡ sense.ok self.now };

    /// The datatype of a tree.
    fn data_of(&self, tree: &Self::Tree) -> DataId
        requires { sense.Node self.now tree.now }
        ensures { result ≡ sense.data_of self.now tree.now };

    /// A tree of which nothing is known but its height.
    ///
    /// In an exact domain it stands for each value of the datatype up to this height, in another for each value that
    /// has a name.
    fn unknown(
        &mut self,
        circuit: &mut Circuit,
        table: &TypeTable,
        of: DataId,
        height: u32,
    ) -> Result<Self::Tree, NoMemory>
        requires fits { sense.Fits table.now self.old circuit.old }
        requires of { of.0 < length table.now.datatypes }
        requires room { length circuit.old + unknown_gates sense table.now of height ≤ 2 ^ 30 }
        ensures moves { Moves sense table.now self.old circuit.old self.new circuit.new
            (unknown_gates sense table.now of height) }
        ensures looks { SameLooks sense self.old self.new }
        ensures answer { IfOk result (λ t. IsUnknown sense table.now self.old circuit.old self.new circuit.new t of
            height) };

    /// The constructor with these fields.
    fn construct(
        &mut self,
        circuit: &mut Circuit,
        table: &TypeTable,
        ctor: CtorId,
        fields: &Symbols<Self::Tree>,
    ) -> Result<Self::Tree, NoMemory>
        requires fits { sense.Fits table.now self.old circuit.old }
        requires fields { CanConstruct sense table.now self.old circuit.old ctor fields.now }
        requires room { length circuit.old + construct_gates sense table.now self.old ctor ≤ 2 ^ 30 }
        ensures moves { Moves sense table.now self.old circuit.old self.new circuit.new
            (construct_gates sense table.now self.old ctor) }
        ensures steady { sense.exact ≡ true → Steady sense self.old circuit.old self.new circuit.new }
        ensures answer { IfOk result (λ t. IsConstruct sense table.now self.old circuit.old self.new circuit.new ctor
            fields.now t) };

    /// Whether the tree has this constructor, which is one of its datatype. A tree that was expanded before adds
    /// nothing to the circuit, and needs no room there.
    fn is_ctor(
        &mut self,
        circuit: &mut Circuit,
        table: &TypeTable,
        tree: &Self::Tree,
        ctor: CtorId,
    ) -> Result<Lit, NoMemory>
        requires fits { sense.Fits table.now self.old circuit.old }
        requires tree { sense.Node self.old tree.now }
        requires ctor { IsCtorOf table.now ctor (sense.data_of self.old tree.now) }
        requires room { (sense.Expanded self.old tree.now → ⊥)
            → length circuit.old + look_at_gates sense table.now self.old tree.now ≤ 2 ^ 30 }
        ensures moves { Moves sense table.now self.old circuit.old self.new circuit.new
            (look_at_gates sense table.now self.old tree.now) }
        ensures still { sense.Expanded self.old tree.now → circuit.new ≡ circuit.old }
        ensures steady { sense.exact ≡ true → Steady sense self.old circuit.old self.new circuit.new }
        ensures answer { IfOk result (λ l. IsCtorTest sense table.now self.old circuit.old self.new circuit.new
            tree.now ctor l) };

    /// The field at a place, counted from 0, of the constructor, which is one of the tree's datatype. A tree that was
    /// expanded before adds nothing to the circuit, and needs no room there.
    fn field(
        &mut self,
        circuit: &mut Circuit,
        table: &TypeTable,
        tree: &Self::Tree,
        ctor: CtorId,
        place: u32,
    ) -> Result<Symbol<Self::Tree>, NoMemory>
        requires fits { sense.Fits table.now self.old circuit.old }
        requires tree { sense.Node self.old tree.now }
        requires ctor { IsCtorOf table.now ctor (sense.data_of self.old tree.now) }
        requires place { (s : Sort) × HasField table.now ctor place s }
        requires room { (sense.Expanded self.old tree.now → ⊥)
            → length circuit.old + look_at_gates sense table.now self.old tree.now ≤ 2 ^ 30 }
        ensures moves { Moves sense table.now self.old circuit.old self.new circuit.new
            (look_at_gates sense table.now self.old tree.now) }
        ensures still { sense.Expanded self.old tree.now → circuit.new ≡ circuit.old }
        ensures steady { sense.exact ≡ true → Steady sense self.old circuit.old self.new circuit.new }
        ensures answer { IfOk result (λ r. (s : Sort) → HasField table.now ctor place s → IsFieldRead sense table.now
            self.old circuit.old self.new circuit.new tree.now ctor place s r) };

    /// The left tree where the choice is true, and else the right one. They have one datatype.
    fn merge(
        &mut self,
        circuit: &mut Circuit,
        table: &TypeTable,
        choice: Lit,
        left: &Self::Tree,
        right: &Self::Tree,
    ) -> Result<Self::Tree, NoMemory>
        requires fits { sense.Fits table.now self.old circuit.old }
        requires choice { IsOf circuit.old choice }
        requires trees { AreOfOneData sense table.now self.old left.now right.now }
        requires room { length circuit.old + merge_gates sense table.now self.old left.now right.now ≤ 2 ^ 30 }
        ensures moves { Moves sense table.now self.old circuit.old self.new circuit.new
            (merge_gates sense table.now self.old left.now right.now) }
        ensures steady { sense.exact ≡ true → Steady sense self.old circuit.old self.new circuit.new }
        ensures looks { SameLooks sense self.old self.new }
        ensures answer { IfOk result (λ t. IsMerge sense table.now self.old circuit.old self.new circuit.new choice
            left.now right.now t) };

    /// Whether the two trees, of one datatype, stand for one value.
    fn equal(
        &mut self,
        circuit: &mut Circuit,
        table: &TypeTable,
        left: &Self::Tree,
        right: &Self::Tree,
    ) -> Result<Lit, NoMemory>
        requires fits { sense.Fits table.now self.old circuit.old }
        requires trees { AreOfOneData sense table.now self.old left.now right.now }
        requires room { length circuit.old + equal_gates sense table.now self.old left.now right.now ≤ 2 ^ 30 }
        ensures moves { Moves sense table.now self.old circuit.old self.new circuit.new
            (equal_gates sense table.now self.old left.now right.now) }
        ensures steady { sense.exact ≡ true → Steady sense self.old circuit.old self.new circuit.new }
        ensures looks { SameLooks sense self.old self.new }
        ensures answer { IfOk result (λ l. IsEquality sense table.now self.old circuit.old self.new circuit.new
            left.now right.now l) };

    /// A literal that is true only where `new` is a proper subtree of `old`, and in an exact domain wherever it is.
    /// The two have one datatype.
    fn below(
        &mut self,
        circuit: &mut Circuit,
        table: &TypeTable,
        new: &Self::Tree,
        old: &Self::Tree,
    ) -> Result<Lit, NoMemory>
        requires fits { sense.Fits table.now self.old circuit.old }
        requires trees { AreOfOneData sense table.now self.old new.now old.now }
        requires room { length circuit.old + below_gates sense table.now self.old new.now old.now ≤ 2 ^ 30 }
        ensures moves { Moves sense table.now self.old circuit.old self.new circuit.new
            (below_gates sense table.now self.old new.now old.now) }
        ensures steady { sense.exact ≡ true → Steady sense self.old circuit.old self.new circuit.new }
        ensures looks { OnOk result (OneComparison sense self.old self.new) }
        ensures answer { IfOk result (λ l. IsComparison sense table.now self.old circuit.old self.new circuit.new
            new.now old.now l) };

    ghost lawful: { Lawful sense };
}
