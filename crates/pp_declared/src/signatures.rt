//! The functions of all units, as their callers see them.

ghost use Rattle.std.specs.Prelude.{◌<◌, ◌^◌, [], length, map};
ghost use Rattle.pp_declared.specs.Declare.{signature, signatures_after};
ghost use Rattle.pp_declared.specs.Declares.{typed_root};
ghost use Rattle.pp_declared.specs.Shown.{AreFewOfDefs, class_ins, def_in, def_ins};
ghost use Rattle.pp_fault.specs.Part.{Tells};

use crate::DefAt;
use crate::ctors::param_sorts;
use crate::roots::Roots;
use pp_fault::Halt;
use pp_list::Items;
use pp_sorts::sort_of;
use pp_text::Name;
use pp_typed::{Signature, Signatures};
use std::alloc::Global;

/// The functions that definitions declare. It refuses the types of parameters and results.
pub(crate) fn all_signatures(
    alloc: Global,
    roots: &Roots,
    defs: &[DefAt],
) -> Result<Signatures, Halt>
    requires { AreFewOfDefs (def_ins defs.now) }
    ensures { Tells result (signatures_after (map typed_root (class_ins roots.now.classes.now)) [] (def_ins defs.now)) }
{
    let mut signatures = Items::new(alloc);
    for i in 0..defs.len() {
        signatures.push(signature(alloc, roots, &defs[i])?)?;
    }
    Ok(signatures)
}

/// The function that a definition declares.
fn signature(alloc: Global, roots: &Roots, d: &DefAt) -> Result<Signature, Halt>
    requires { length (def_in d.now).def.type_params < 2 ^ 32 }
    ensures { Tells result (signature (map typed_root (class_ins roots.now.classes.now)) (def_in d.now)) }
{
    let scope = roots.scope(d.def.type_params, d.source);
    let params = param_sorts(alloc, &scope, d.def.params)?;
    let result = sort_of(alloc, &scope, &d.def.result)?;
    Ok(Signature {
        name: Name::of(alloc, d.def.name)?,
        type_params: d.def.type_params.len() as u32,
        params,
        list: d.def.list,
        result,
    })
}
