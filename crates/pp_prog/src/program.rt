//! Valid programs.

ghost use Rattle.std.specs.Prelude.{◌≡◌, ◌↔◌, ◌<◌, ◌^◌, ℕ, IfOk, IsTrue, MatchOption, Some, length, slice_get};
ghost use Rattle.std.specs.List.{list_all};
ghost use Rattle.pp_graph.specs.Reaches.{AreGroups, IsGroup};
ghost use Rattle.pp_prog.specs.Calls.{OneGroup, call_table};
ghost use Rattle.pp_prog.specs.ExprSorts.{is_sorted};
ghost use Rattle.pp_prog.specs.Names.{IsFirstNamed, NoneNamed};
ghost use Rattle.pp_prog.specs.Valid.{IsValid};

use crate::calls::call_table;
use crate::{Check, Checks, Function, FunctionId, Functions, TypeTable};
use pp_list::Items;
use std::alloc::{AllocError, Global};

/// A valid program: its datatypes, its functions and its checks, each in the order of their numbers.
#[derive(Drop)]
pub struct Program {
    pub types: TypeTable,
    pub functions: Functions,
    pub checks: Checks,
    groups: Items<u32>,
    ghost few_functions: { length functions < 2 ^ 32 },
    ghost few_checks: { length checks < 2 ^ 32 },
    ghost sorted: { IsTrue (list_all (is_sorted types functions) functions) },
    ghost valid: { ∥ IsValid types functions checks ∥₁ },
    ghost grouped: { ∥ AreGroups (call_table functions) groups ∥₁ },
}

impl Program {
    /// The program of these lists, which are valid, the checks being those of the functions in order.
    pub fn of(
        alloc: Global,
        types: TypeTable,
        functions: Functions,
        checks: Checks,
    ) -> Result<Program, AllocError>
        requires { IsValid types functions checks }
        ensures types { IfOk result (λ p. p.types ≡ types) }
        ensures functions { IfOk result (λ p. p.functions ≡ functions) }
        ensures checks { IfOk result (λ p. p.checks ≡ checks) }
    {
        let calls = call_table(alloc, functions.as_slice())?;
        let groups = pp_graph::groups_of(alloc, calls.as_slice())?;
        Ok(Program {
            types,
            functions,
            checks,
            groups,
        })
    }

    /// The datatypes and constructors. It takes no memory.
    pub fn types(&self) -> &TypeTable
        ensures { result.now ≡ self.now.types }
    {
        &self.types
    }

    /// The checks, in the order of their numbers. It takes no memory.
    pub fn checks(&self) -> &[Check]
        ensures all { result.now ≡ self.now.checks }
        ensures few { length result.now < 2 ^ 32 }
    {
        self.checks.as_slice()
    }

    /// How many functions the program has. It takes no memory.
    pub fn function_count(&self) -> u32
        ensures { result ≡ length self.now.functions }
    {
        self.functions.len() as u32
    }

    /// The function with this number. It takes no memory.
    pub fn function(&self, f: FunctionId) -> &Function
        requires { f.0 < length self.now.functions }
        ensures { slice_get self.now.functions f.0 ≡ Some result.now }
    {
        &self.functions.as_slice()[f.0 as usize]
    }

    /// The first function with this printed name; None exactly where no function has it. It takes no memory.
    pub fn find(&self, name: &str) -> Option<FunctionId>
        ensures { MatchOption result (NoneNamed self.now.functions name.now)
            (λ f. IsFirstNamed self.now.functions name.now f.0) }
    {
        let functions = self.functions.as_slice();
        for i in 0..functions.len() {
            if has_name(&functions[i], name) {
                return Some(FunctionId(i as u32));
            }
        }
        None
    }

    /// The number of the function's group, which is the least function of the group. Two functions have one number
    /// exactly where they are the same or reach each other by calls, those in contracts included. It takes no memory.
    pub fn group_of(&self, f: FunctionId) -> u32
        requires { f.0 < length self.now.functions }
        ensures least { IsGroup (call_table self.now.functions) f.0 result }
        ensures shared { (g n : ℕ) → IsGroup (call_table self.now.functions) g n
            → (n ≡ result) ↔ OneGroup self.now.functions g f.0 }
    {
        self.groups.as_slice()[f.0 as usize]
    }
}

fn has_name(f: &Function, name: &str) -> bool
    ensures { IsTrue result ↔ (f.now.name ≡ name.now) }
{
    f.name.as_str() == name
}
