//! The functions of all units.

ghost use Rattle.std.specs.Prelude.{◌≡◌, ◌<◌, ◌^◌, [], Ok, length};
ghost use Rattle.pp_declared.specs.Declare.{declare};
ghost use Rattle.pp_declared.specs.Listed.{decls_in, defs_of};
ghost use Rattle.pp_declared.specs.Shown.{AreFewOfDefs, def_ins, units_of};
ghost use Rattle.pp_fault.specs.Part.{Tells};
ghost use Rattle.pp_types.specs.Functions.{defs_after};

use pp_declared::{DefAt, definitions};
use pp_fault::Halt;
use pp_list::Items;
use pp_names::Names;
use pp_tree::Unit;
use pp_typed::TypedDefs;
use pp_typing::definition;
use std::alloc::Global;

/// Types the functions of units that declare these names. It refuses the first that has no typing.
#[tactic(auto, using(crate::proofs::EachDef::few_defs, crate::proofs::EachDef::defs_counted))]
pub(crate) fn all_defs(alloc: Global, units: &[Unit], names: &Names) -> Result<TypedDefs, Halt>
    requires units { length units.now < 2 ^ 32 }
    requires declared { declare (units_of units.now) ≡ Ok names.now }
    ensures { Tells result (defs_after names.now [] (defs_of (decls_in (units_of units.now))) names.now.functions) }
{
    let defs = definitions(alloc, units)?;
    each_def(alloc, names, defs.as_slice())
}

/// Types functions whose signatures are declared, one for each.
fn each_def(alloc: Global, names: &Names, defs: &[DefAt]) -> Result<TypedDefs, Halt>
    requires few { AreFewOfDefs (def_ins defs.now) }
    requires counted { length defs.now ≡ length names.now.functions }
    ensures { Tells result (defs_after names.now [] (def_ins defs.now) names.now.functions) }
{
    let signatures = names.declared().functions.as_slice();
    let mut done = Items::new(alloc);
    for i in 0..defs.len() {
        let def = &defs[i];
        done.push(definition(alloc, names, def.source, &def.def, &signatures[i])?)?;
    }
    Ok(done)
}
