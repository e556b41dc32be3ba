//! Why the printed name of an instance tells it: no two functions of a program, and no two datatypes, have one printed
//! name. The function does nothing: its contract is the law.
#![tactic(auto)]

ghost use Rattle.pp_instance_names.specs.Laws.{NamesTellMembers};

/// No two functions of a program have one printed name, and no two datatypes have. It does nothing: its contract is the
/// law.
pub fn names_tell_members()
    ensures { NamesTellMembers }
{}
