//! Circuits that are built to be measured.

ghost use Rattle.std.specs.Prelude.{◌≡◌, ◌+◌, ◌*◌, ◌^◌, ◌≤◌, length, IfOk};
ghost use Rattle.pp_gate.specs.Circuit.{IsOf};
ghost use Rattle.pp_gate.specs.Growth.{Grows, AddsGates};

use pp_clause::Lit;
use pp_gate::{Circuit, NoMemory};
use pp_wordgate::unknown;
use pp_wordscale::mul;

/// Adds three inputs and four gates a turn, each over the newest literals, so that none is shared, to a circuit that
/// has no gates yet. Each gate may be asked for twice.
pub fn add_turns(circuit: &mut Circuit, turns: u32, twice: bool) -> Result<(), NoMemory>
    requires new { length circuit.old ≡ 1 }
    requires turns { turns ≤ 2 ^ 25 }
{
    let _inputs = pp_bits::inputs(circuit, 3)?;
    if twice {
        grow(circuit, turns)?;
    }
    grow(circuit, turns)
}

/// The literals of one turn.
#[derive(Clone, Copy)]
struct Newest {
    a: Lit,
    b: Lit,
    c: Lit,
}

/// One gate of each kind in each turn, from the three inputs on.
fn grow(circuit: &mut Circuit, turns: u32) -> Result<(), NoMemory>
    requires inputs { 4 ≤ length circuit.old }
    requires room { length circuit.old + 4 * turns ≤ 2 ^ 30 }
    ensures grows { Grows circuit.old circuit.new (4 * turns) }
{
    let mut last = Newest {
        a: Lit::new(2, true),
        b: Lit::new(3, true),
        c: Lit::new(4, true),
    };
    for turn in 0..turns {
        last = linked(circuit, last)?;
    }
    Ok(())
}

/// One gate of each kind.
fn linked(circuit: &mut Circuit, last: Newest) -> Result<Newest, NoMemory>
    requires room { length circuit.old + 4 ≤ 2 ^ 30 }
    requires first { IsOf circuit.old last.a }
    requires second { IsOf circuit.old last.b }
    requires third { IsOf circuit.old last.c }
    ensures adds { AddsGates circuit.old circuit.new 4 }
    ensures new_first { IfOk result (λ r. IsOf circuit.new r.a) }
    ensures new_second { IfOk result (λ r. IsOf circuit.new r.b) }
    ensures new_third { IfOk result (λ r. IsOf circuit.new r.c) }
{
    let odd = circuit.xor(last.a, last.b)?;
    let both = circuit.and(odd, last.c)?;
    let chosen = circuit.mux(both, odd, last.a)?;
    let most = circuit.majority(odd, chosen, last.c.negated())?;
    Ok(Newest {
        a: chosen,
        b: most,
        c: both,
    })
}

/// Multiplies a word so many times, in a circuit that has no gates yet.
pub fn multiply(circuit: &mut Circuit, count: u32) -> Result<(), NoMemory>
    requires new { length circuit.old ≡ 1 }
    requires count { count ≤ 2 ^ 16 }
{
    let mut product = unknown(circuit)?;
    let factor = unknown(circuit)?;
    for turn in 0..count {
        product = mul(circuit, product, factor)?;
    }
    Ok(())
}
