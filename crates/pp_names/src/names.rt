//! The declarations of all units, found by their names.

ghost use Rattle.std.specs.Prelude.{◌≡◌, ◌<◌, [], length, IfOk, IfSome};
ghost use Rattle.pp_names.specs.Find.{AreNamesOf, HasOwners, ctors_of, find_ctor, find_function, find_root, root_names};

use crate::by_root::ctors_by_root;
use crate::{NameTable, NoMemory};
use pp_typed::Declared;
use std::alloc::Global;
use std::marker::Model;

/// The names of roots, constructors and functions, each in a space of its own.
#[derive(Drop)]
pub struct Spaces {
    pub roots: NameTable,
    pub ctors: NameTable,
    pub functions: NameTable,
}

impl Spaces {
    /// Spaces without names. It takes no memory.
    pub fn new(alloc: Global) -> Spaces
        ensures roots { result.roots ≡ [] }
        ensures ctors { result.ctors ≡ [] }
        ensures functions { result.functions ≡ [] }
    {
        Spaces {
            roots: NameTable::new(alloc),
            ctors: NameTable::new(alloc),
            functions: NameTable::new(alloc),
        }
    }
}

/// The declarations of all units, whose roots, constructors and functions are found by their names, and the
/// constructors of each root by its place. Contracts see the declarations. None of its methods takes memory.
#[derive(Drop)]
pub struct Names {
    declared: Declared,
    spaces: Spaces,
    by_root: Vec<Vec<u32>>,
}

impl Model for Names {
    ghost use Rattle.std.specs.Prelude.{length};
    ghost use Rattle.std.specs.Coded.{codes};
    ghost use Rattle.pp_typed.specs.contracts.sort.GenericSort as sort;
    ghost use Rattle.pp_typed.specs.declared.declared.Declared.{Declared};
    ghost use Rattle.pp_names.specs.Find.{AreNamesOf, owners_of};
    ghost use Rattle.pp_names.specs.Places.{AreGrouped, lists_of};

    ghost Value = { Declared };

    ghost coded = { Prim.hlevel (codes, sort.the_row.coded) };

    ghost view = { λ n. n.declared };

    ghost invariant = { λ n. AreNamesOf n.declared n.spaces.roots n.spaces.ctors n.spaces.functions
        × AreGrouped (lists_of n.by_root) (length n.declared.roots) (owners_of n.declared.ctors) };
}

impl Names {
    /// The declarations, whose names are those of the spaces. The only error is want of memory.
    pub fn of(alloc: Global, declared: Declared, spaces: Spaces) -> Result<Names, NoMemory>
        requires names { AreNamesOf declared spaces.roots spaces.ctors spaces.functions }
        requires owners { HasOwners declared }
        ensures { IfOk result (λ n. n ≡ declared) }
    {
        let count = spaces.ctors.len();
        let by_root = ctors_by_root(
            alloc,
            declared.roots.len(),
            declared.ctors.as_slice(),
            count,
        )?;
        Ok(Names {
            declared,
            spaces,
            by_root,
        })
    }

    /// The declarations.
    pub fn declared(&self) -> &Declared
        ensures { result.now ≡ self.now }
    {
        &self.declared
    }

    /// The declarations, without the tables.
    pub fn into_declared(self) -> Declared
        ensures { result ≡ self }
    {
        self.declared
    }

    /// The table of the names of the roots.
    pub fn root_table(&self) -> &NameTable
        ensures { result.now ≡ root_names self.now }
    {
        &self.spaces.roots
    }

    /// The place of the first root of this name; None exactly where there is none.
    pub fn find_root(&self, name: &str) -> Option<u32>
        ensures place { result ≡ find_root self.now name.now }
        ensures within { IfSome result (λ r. r < length self.now.roots) }
    {
        self.spaces.roots.find(name)
    }

    /// The place of the first constructor of this name; None exactly where there is none.
    pub fn find_ctor(&self, name: &str) -> Option<u32>
        ensures place { result ≡ find_ctor self.now name.now }
        ensures within { IfSome result (λ c. c < length self.now.ctors) }
    {
        self.spaces.ctors.find(name)
    }

    /// The place of the first function of this name; None exactly where there is none.
    pub fn find_function(&self, name: &str) -> Option<u32>
        ensures place { result ≡ find_function self.now name.now }
        ensures within { IfSome result (λ f. f < length self.now.functions) }
    {
        self.spaces.functions.find(name)
    }

    /// The places of the root's constructors, in order of declaration.
    pub fn ctors_of(&self, root: u32) -> &[u32]
        requires { root < length self.now.roots }
        ensures { result.now ≡ ctors_of self.now root }
    {
        self.by_root[root as usize].as_slice()
    }
}
