//! What holds of the assignments of every circuit. These functions do nothing; their contracts are the laws.

ghost use Rattle.pp_gate.specs.Laws.{InputsComplete, InputsDetermine, GrowthExtends, GrowthKeeps, GivesByVariables};
ghost use Rattle.pp_gate.specs.Laws.{LiteralByVariables};
ghost use Rattle.pp_gate.specs.Cone.{AskedGiven, AskedComplete, AskedKeep};

/// Every choice of values for the inputs has an assignment that gives each gate its value.
#[tactic(auto, using(crate::proofs::Extension::inputs_complete))]
pub fn inputs_complete()
    ensures { InputsComplete }
{}

/// Two assignments that give each gate its value and agree on the inputs agree on every variable of the circuit.
#[tactic(auto, using(crate::proofs::Agreement::inputs_determine))]
pub fn inputs_determine()
    ensures { InputsDetermine }
{}

/// Each assignment that gives the old gates their values, with any values for the new inputs, has one that agrees
/// with it on the old variables and gives all gates their values and those inputs those values.
pub fn growth_extends()
    ensures { GrowthExtends }
{}

/// An assignment that gives the new gates their values gives the old ones theirs.
#[tactic(auto, using(crate::proofs::Agreement::Gives_old))]
pub fn growth_keeps()
    ensures { GrowthKeeps }
{}

/// Whether an assignment gives each gate its value depends on the variables of the circuit alone.
#[tactic(auto, using(crate::proofs::Agreement::gives_by_variables))]
pub fn gives_by_variables()
    ensures { GivesByVariables }
{}

/// The value of a literal of the circuit depends on the variables of the circuit alone.
#[tactic(auto, using(crate::proofs::Agreement::literal_by_variables))]
pub fn literal_by_variables()
    ensures { LiteralByVariables }
{}

/// An assignment that gives each gate its value gives those on which some literals stand theirs.
#[tactic(auto, using(crate::proofs::Cones::asked_given))]
pub fn asked_given()
    ensures { AskedGiven }
{}

/// An assignment that gives the gates on which some literals stand their values can be completed to one that gives each
/// gate its value: it keeps the inputs, and the variables on which these literals stand.
#[tactic(auto, using(crate::proofs::Cones::asked_complete))]
pub fn asked_complete()
    ensures { AskedComplete }
{}

/// Each assignment that gives each gate its value and has the same inputs keeps those variables.
#[tactic(auto, using(crate::proofs::Cones::asked_keep))]
pub fn asked_keep()
    ensures { AskedKeep }
{}
