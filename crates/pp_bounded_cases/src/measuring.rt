//! How large circuits of bounded trees are, and how fast they are built: `benches/bounded.sh` times them.

ghost use Rattle.std.specs.Prelude.{◌≡◌, length};
ghost use Rattle.pp_gate.specs.Circuit.{IsOf};
ghost use Rattle.pp_bounded_samples.specs.Kept.{KeepsPair};
ghost use Rattle.pp_bounded_samples.specs.Sample.{IsLow, IsSample};

use anyhow::{Result, bail, ensure};
use pp_bounded::Bounded;
use pp_bounded_samples::pair::TreePair;
use pp_bounded_samples::reading::read;
use pp_bounded_samples::table::{LIST, WIDE, is_low};
use pp_bounded_samples::trees::{below, equal, fresh, merge, unknown_pair};
use pp_bounded_samples::words::{number, word};
use pp_clause::{Assignment, Lit};
use pp_gate::Circuit;
use pp_prog::{DataId, TypeTable};
use std::alloc::Global;

/// What `CASE CALL TIMES` measures, where the trees and the call are made so many times.
pub fn measure(alloc: Global, table: &TypeTable, line: &str) -> Result<String>
    requires { IsSample table.now }
{
    let mut gates = (0, 0);
    for _ in 0..number(line, 2, 0, u32::MAX)? {
        gates = measured(alloc, table, word(line, 0), word(line, 1))?;
    }
    Ok(format!(in alloc; "{} gates, and {} more", gates.0, gates.1)?)
}

/// How many gates the constant, an input for a choice and two unknown trees have, and how many the call adds.
fn measured(alloc: Global, table: &TypeTable, case: &str, call: &str) -> Result<(u32, u32)>
    requires { IsSample table.now }
{
    let (of, height) = match case {
        "lists" => (DataId(LIST), 6),
        "wide" => (DataId(WIDE), 4),
        _ => bail!("no such case"),
    };
    ensure!(is_low(of, height), "no such trees");
    let mut circuit = Circuit::new(alloc)?;
    measured_in(&mut circuit, table, of, height, call)
}

/// These numbers, in a circuit that has no gates yet.
fn measured_in(
    circuit: &mut Circuit,
    table: &TypeTable,
    of: DataId,
    height: u32,
    call: &str,
) -> Result<(u32, u32)>
    requires sample { IsSample table.now }
    requires low { IsLow of height }
    requires new { length circuit.old ≡ 1 }
{
    let choice = circuit.input()?;
    let mut domain = fresh(circuit, table, choice)?;
    let pair = unknown_pair(&mut domain, circuit, table, of, height)?;
    let trees = circuit.gates();
    call_on(&mut domain, circuit, table, call, choice, &pair)?;
    Ok((trees, circuit.gates().saturating_sub(trees)))
}

/// The call of this name.
fn call_on(
    domain: &mut Bounded,
    circuit: &mut Circuit,
    table: &TypeTable,
    call: &str,
    choice: Lit,
    pair: &TreePair,
) -> Result<()>
    requires choice { IsOf circuit.old choice }
    requires pair { KeepsPair table.now domain.old circuit.old pair.now }
{
    match call {
        "equal" => {
            let _same = equal(domain, circuit, table, pair)?;
        }
        "below" => {
            let _below = below(domain, circuit, table, pair)?;
        }
        "merge" => {
            let _tree = merge(domain, circuit, table, choice, pair)?;
        }
        "read" => {
            let alloc = circuit.allocator();
            let all = circuit.complete(&Assignment::of(alloc, &[])?)?;
            let _value = read(alloc, domain, circuit, table, &all, &pair.left)?;
        }
        _ => {}
    }
    Ok(())
}
