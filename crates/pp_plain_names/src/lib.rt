//! Why the declared names of a unit are plain: each is a word, so it has no comma or bracket, and a printed type, as
//! `Map[Int, List[A]]`, and a printed value, as `Cons(1, Nil())`, tell their parts. The names of parameters are words
//! too. Each function does nothing: its contract is the law.
#![tactic(auto)]

ghost use Rattle.pp_plain_names.specs.Laws.{DeclaredNamesArePlain, DeclaredNamesAreWords, DeclaredObjectsAreBare};
ghost use Rattle.pp_plain_names.specs.Laws.{DeclaredParamsAreWords};

/// In a name that a unit of a text declares the bytes of ASCII are letters, digits and underscores. It does nothing:
/// its contract is the law.
pub fn declared_names_are_words()
    ensures { DeclaredNamesAreWords }
{}

/// In the name of a parameter of a function that a unit of a text declares the bytes of ASCII are letters, digits and
/// underscores. It does nothing: its contract is the law.
pub fn declared_params_are_words()
    ensures { DeclaredParamsAreWords }
{}

/// A case object that a unit of a text declares has no fields. It does nothing: its contract is the law.
pub fn declared_objects_are_bare()
    ensures { DeclaredObjectsAreBare }
{}

/// A name that a unit of a text declares has none of `,`, `[` and `]`. It does nothing: its contract is the law.
pub fn declared_names_are_plain()
    ensures { DeclaredNamesArePlain }
{}
