//! The calls of the domain at low trees, which leave such trees.

ghost use Rattle.std.specs.Prelude.{◌≡◌, ◌^◌, ◌≤◌, ◌<◌, length, IfOk, OnOk};
ghost use Rattle.pp_gate.specs.Circuit.{IsOf};
ghost use Rattle.pp_bounded_trees.specs.Meaning.{BoundedFits};
ghost use Rattle.pp_bounded_samples.specs.Kept.{Goes, KeepsPair, Kept};
ghost use Rattle.pp_bounded_samples.specs.Sample.{IsLow, IsSample};

use crate::NoMemory;
use crate::pair::TreePair;
use pp_bounded::{Bounded, BoundedTree};
use pp_clause::Lit;
use pp_domain::Domain;
use pp_gate::Circuit;
use pp_prog::{DataId, TypeTable};
use std::alloc::AllocError;

/// The most gates of a circuit to which a call may add some.
const MOST: u32 = 1 << 29;

/// There is want of memory where the circuit has more than 2^29 gates.
pub(crate) fn room(circuit: &Circuit) -> Result<(), NoMemory>
    ensures { OnOk result (length circuit.now ≤ 2 ^ 29) }
{
    if circuit.gates() > MOST {
        return Err(AllocError);
    }
    Ok(())
}

/// A domain without trees over a circuit that has the literal of a choice.
pub fn fresh(circuit: &mut Circuit, table: &TypeTable, choice: Lit) -> Result<Bounded, NoMemory>
    requires { IsOf circuit.old choice }
    ensures fits { IfOk result (λ d. BoundedFits table.now d circuit.new) }
    ensures choice { OnOk result (IsOf circuit.new choice) }
{
    let domain = Bounded::fresh(circuit)?;
    Ok(domain)
}

/// Two trees of which nothing is known but their height.
pub fn unknown_pair(
    domain: &mut Bounded,
    circuit: &mut Circuit,
    table: &TypeTable,
    of: DataId,
    height: u32,
) -> Result<TreePair, NoMemory>
    requires sample { IsSample table.now }
    requires fits { BoundedFits table.now domain.old circuit.old }
    requires low { IsLow of height }
    ensures goes { OnOk result (Goes table.now domain.old circuit.old domain.new circuit.new) }
    ensures pair { IfOk result (λ p. KeepsPair table.now domain.new circuit.new p) }
{
    let left = unknown(domain, circuit, table, of, height)?;
    let right = unknown(domain, circuit, table, of, height)?;
    Ok(TreePair { left, right })
}

/// A tree of which nothing is known but its height.
fn unknown(
    domain: &mut Bounded,
    circuit: &mut Circuit,
    table: &TypeTable,
    of: DataId,
    height: u32,
) -> Result<BoundedTree, NoMemory>
    requires sample { IsSample table.now }
    requires fits { BoundedFits table.now domain.old circuit.old }
    requires low { IsLow of height }
    ensures goes { OnOk result (Goes table.now domain.old circuit.old domain.new circuit.new) }
    ensures kept { IfOk result (λ t. Kept table.now domain.new circuit.new t) }
    ensures of { IfOk result (λ t. t.of ≡ of) }
    ensures height { IfOk result (λ t. t.height ≡ height) }
{
    room(circuit)?;
    let tree = domain.unknown(circuit, table, of, height)?;
    Ok(tree)
}

/// Whether the two trees stand for one value.
pub fn equal(
    domain: &mut Bounded,
    circuit: &mut Circuit,
    table: &TypeTable,
    pair: &TreePair,
) -> Result<Lit, NoMemory>
    requires { KeepsPair table.now domain.old circuit.old pair.now }
    ensures { OnOk result (Goes table.now domain.old circuit.old domain.new circuit.new) }
{
    room(circuit)?;
    let same = domain.equal(circuit, table, &pair.left, &pair.right)?;
    Ok(same)
}

/// Whether the left tree is a proper subtree of the right one.
pub fn below(
    domain: &mut Bounded,
    circuit: &mut Circuit,
    table: &TypeTable,
    pair: &TreePair,
) -> Result<Lit, NoMemory>
    requires { KeepsPair table.now domain.old circuit.old pair.now }
    ensures { OnOk result (Goes table.now domain.old circuit.old domain.new circuit.new) }
{
    room(circuit)?;
    let below = domain.below(circuit, table, &pair.left, &pair.right)?;
    Ok(below)
}

/// The left tree where the choice is true, and else the right one.
pub fn merge(
    domain: &mut Bounded,
    circuit: &mut Circuit,
    table: &TypeTable,
    choice: Lit,
    pair: &TreePair,
) -> Result<BoundedTree, NoMemory>
    requires choice { IsOf circuit.old choice }
    requires pair { KeepsPair table.now domain.old circuit.old pair.now }
    ensures goes { OnOk result (Goes table.now domain.old circuit.old domain.new circuit.new) }
    ensures kept { IfOk result (λ t. Kept table.now domain.new circuit.new t) }
{
    room(circuit)?;
    let tree = domain.merge(circuit, table, choice, &pair.left, &pair.right)?;
    Ok(tree)
}
