//! The parts of frames and modes: what is put on the stack, and what is taken off it.
//!
//! Each frame and each mode has its parts on the stack, so that there is one wherever it is asked for; no clause says
//! so. Where there were none, the empty one or a spare tree would be answered, as `specs/Parts` says.
#![tactic(auto, using(crate::proofs::Stacked::stacked_push))]

ghost use Rattle.std.specs.Prelude.{◌≡◌, [], IfOk, option_map};
ghost use Rattle.pp_tree_build.specs.Parts.{claim_parts};
ghost use Rattle.pp_tree.specs.Shown.{decl_of, pattern_of, tree_of, type_of};
ghost use Rattle.pp_parse_state.specs.Parts.{top_case_list, top_contracts, top_decl, top_expr, top_expr_list};
ghost use Rattle.pp_parse_state.specs.Parts.{top_given_type, top_guard, top_head, top_name, top_pattern};
ghost use Rattle.pp_parse_state.specs.Parts.{top_pattern_list, top_post, top_type, top_type_list};
ghost use Rattle.pp_parse_state.specs.Shown.{shown};
ghost use Rattle.pp_parse_state.specs.Values.{case_text, contracts_of, head_of, stacked};
ghost use Rattle.pp_parse_state.specs.Shown.{with_case_list, with_contracts, with_decl, with_expr, with_expr_list};
ghost use Rattle.pp_parse_state.specs.Shown.{with_given_type, with_guard, with_head, with_name, with_pattern};
ghost use Rattle.pp_parse_state.specs.Shown.{with_pattern_list, with_post, with_type, with_type_list};
ghost use Rattle.pp_parse_state.specs.Shown.{without_case_list, without_contracts, without_decl, without_expr};
ghost use Rattle.pp_parse_state.specs.Shown.{without_expr_list, without_given_type, without_guard, without_head};
ghost use Rattle.pp_parse_state.specs.Shown.{without_name, without_pattern, without_pattern_list, without_post};
ghost use Rattle.pp_parse_state.specs.Shown.{without_type, without_type_list};

use crate::{Contracts, Head, NoMemory, Stack};
use pp_tree::{Case, Decl, Expr, Pattern, TypeText};
use pp_tree_build::{Built, Checked, Claim};

impl<'a> Stack<'a> {
    /// Puts a name on the stack.
    pub fn put_name(&mut self, part: &'a str) -> Result<(), NoMemory>
        ensures { IfOk result (λ _. shown self.new ≡ with_name part.now (shown self.old)) }
    {
        self.names.push(part)?;
        Ok(())
    }

    /// The name on the stack.
    pub fn name(&self) -> &'a str
        ensures { result.now ≡ top_name (shown self.now).parts }
    {
        match self.names.split_last() {
            Some((name, _)) => name,
            None => "",
        }
    }

    /// Takes a name off the stack.
    pub fn take_name(&mut self) -> &'a str
        ensures part { result.now ≡ top_name (shown self.old).parts }
        ensures others { shown self.new ≡ without_name (shown self.old) }
    {
        self.names.pop().unwrap_or("")
    }

    /// Puts a written type on the stack.
    pub fn put_type(&mut self, part: &'a Built<TypeText<'a>>) -> Result<(), NoMemory>
        ensures { IfOk result (λ _. shown self.new ≡ with_type (type_of part.now.tree) (shown self.old)) }
    {
        self.types.push(part)?;
        Ok(())
    }

    /// Takes a written type off the stack.
    pub fn take_type(&mut self) -> &'a Built<TypeText<'a>>
        ensures part { type_of result.now.tree ≡ top_type (shown self.old).parts }
        ensures others { shown self.new ≡ without_type (shown self.old) }
    {
        self.types.pop().unwrap_or(self.spares.of)
    }

    /// Puts a pattern on the stack.
    pub fn put_pattern(&mut self, part: &'a Built<Pattern<'a>>) -> Result<(), NoMemory>
        ensures { IfOk result (λ _. shown self.new ≡ with_pattern (pattern_of part.now.tree) (shown self.old)) }
    {
        self.patterns.push(part)?;
        Ok(())
    }

    /// Takes a pattern off the stack.
    pub fn take_pattern(&mut self) -> &'a Built<Pattern<'a>>
        ensures part { pattern_of result.now.tree ≡ top_pattern (shown self.old).parts }
        ensures others { shown self.new ≡ without_pattern (shown self.old) }
    {
        self.patterns.pop().unwrap_or(self.spares.pattern)
    }

    /// Puts an expression on the stack.
    pub fn put_expr(&mut self, part: &'a Built<Expr<'a>>) -> Result<(), NoMemory>
        ensures { IfOk result (λ _. shown self.new ≡ with_expr (tree_of part.now.tree) (shown self.old)) }
    {
        self.exprs.push(part)?;
        Ok(())
    }

    /// Takes an expression off the stack.
    pub fn take_expr(&mut self) -> &'a Built<Expr<'a>>
        ensures part { tree_of result.now.tree ≡ top_expr (shown self.old).parts }
        ensures others { shown self.new ≡ without_expr (shown self.old) }
    {
        self.exprs.pop().unwrap_or(self.spares.expr)
    }

    /// Puts a written type, or that none is written, on the stack.
    pub fn put_given_type(&mut self, part: Option<&'a Built<TypeText<'a>>>) -> Result<(), NoMemory>
        ensures { IfOk result (λ _. shown self.new
            ≡ with_given_type (option_map (λ t. type_of t.now.tree) part.entry) (shown self.old)) }
    {
        self.given_types.push(part)?;
        Ok(())
    }

    /// Takes a written type, or that none is written, off the stack.
    pub fn take_given_type(&mut self) -> Option<&'a Built<TypeText<'a>>>
        ensures part { option_map (λ t. type_of t.now.tree) result ≡ top_given_type (shown self.old).parts }
        ensures others { shown self.new ≡ without_given_type (shown self.old) }
    {
        self.given_types.pop().unwrap_or(None)
    }

    /// Puts the guard of a case, or that there is none, on the stack.
    pub fn put_guard(&mut self, part: Option<&'a Built<Expr<'a>>>) -> Result<(), NoMemory>
        ensures { IfOk result (λ _. shown self.new
            ≡ with_guard (option_map (λ e. tree_of e.now.tree) part.entry) (shown self.old)) }
    {
        self.guards.push(part)?;
        Ok(())
    }

    /// Takes the guard of a case, or that there is none, off the stack.
    pub fn take_guard(&mut self) -> Option<&'a Built<Expr<'a>>>
        ensures part { option_map (λ e. tree_of e.now.tree) result ≡ top_guard (shown self.old).parts }
        ensures others { shown self.new ≡ without_guard (shown self.old) }
    {
        self.guards.pop().unwrap_or(None)
    }

    /// Puts a list of types on the stack.
    pub fn put_type_list(&mut self, part: Vec<&'a Built<TypeText<'a>>>) -> Result<(), NoMemory>
        ensures { IfOk result (λ _. shown self.new
            ≡ with_type_list (stacked (λ t. type_of t.now.tree) part.entry.items []) (shown self.old)) }
    {
        self.type_lists.push(part)?;
        Ok(())
    }

    /// Takes a list of types off the stack.
    pub fn take_type_list(&mut self) -> Vec<&'a Built<TypeText<'a>>>
        ensures part { stacked (λ t. type_of t.now.tree) result.items [] ≡ top_type_list (shown self.old).parts }
        ensures others { shown self.new ≡ without_type_list (shown self.old) }
    {
        self.type_lists.pop().unwrap_or(Vec::new(self.alloc))
    }

    /// Puts a list of patterns on the stack.
    pub fn put_pattern_list(&mut self, part: Vec<&'a Built<Pattern<'a>>>) -> Result<(), NoMemory>
        ensures { IfOk result (λ _. shown self.new
            ≡ with_pattern_list (stacked (λ p. pattern_of p.now.tree) part.entry.items []) (shown self.old)) }
    {
        self.pattern_lists.push(part)?;
        Ok(())
    }

    /// Takes a list of patterns off the stack.
    pub fn take_pattern_list(&mut self) -> Vec<&'a Built<Pattern<'a>>>
        ensures part { stacked (λ p. pattern_of p.now.tree) result.items [] ≡ top_pattern_list (shown self.old).parts }
        ensures others { shown self.new ≡ without_pattern_list (shown self.old) }
    {
        self.pattern_lists.pop().unwrap_or(Vec::new(self.alloc))
    }

    /// Puts a list of expressions on the stack.
    pub fn put_expr_list(&mut self, part: Vec<&'a Built<Expr<'a>>>) -> Result<(), NoMemory>
        ensures { IfOk result (λ _. shown self.new
            ≡ with_expr_list (stacked (λ e. tree_of e.now.tree) part.entry.items []) (shown self.old)) }
    {
        self.expr_lists.push(part)?;
        Ok(())
    }

    /// Takes a list of expressions off the stack.
    pub fn take_expr_list(&mut self) -> Vec<&'a Built<Expr<'a>>>
        ensures part { stacked (λ e. tree_of e.now.tree) result.items [] ≡ top_expr_list (shown self.old).parts }
        ensures others { shown self.new ≡ without_expr_list (shown self.old) }
    {
        self.expr_lists.pop().unwrap_or(Vec::new(self.alloc))
    }

    /// Puts a list of cases on the stack.
    pub fn put_case_list(&mut self, part: Vec<&'a Built<Case<'a>>>) -> Result<(), NoMemory>
        ensures { IfOk result (λ _. shown self.new
            ≡ with_case_list (stacked (λ c. case_text c.now.tree) part.entry.items []) (shown self.old)) }
    {
        self.case_lists.push(part)?;
        Ok(())
    }

    /// Takes a list of cases off the stack.
    pub fn take_case_list(&mut self) -> Vec<&'a Built<Case<'a>>>
        ensures part { stacked (λ c. case_text c.now.tree) result.items [] ≡ top_case_list (shown self.old).parts }
        ensures others { shown self.new ≡ without_case_list (shown self.old) }
    {
        self.case_lists.pop().unwrap_or(Vec::new(self.alloc))
    }

    /// Puts the head of a declaration on the stack.
    pub fn put_head(&mut self, part: Head<'a>) -> Result<(), NoMemory>
        ensures { IfOk result (λ _. shown self.new ≡ with_head (head_of part.entry) (shown self.old)) }
    {
        self.heads.push(part)?;
        Ok(())
    }

    /// Takes the head of a declaration off the stack.
    pub fn take_head(&mut self) -> Head<'a>
        ensures part { head_of result ≡ top_head (shown self.old).parts }
        ensures others { shown self.new ≡ without_head (shown self.old) }
    {
        self.heads.pop().unwrap_or(Head::none(self.alloc))
    }

    /// Puts the contracts of a body on the stack.
    pub fn put_contracts(&mut self, part: Contracts<'a>) -> Result<(), NoMemory>
        ensures { IfOk result (λ _. shown self.new ≡ with_contracts (contracts_of part.entry) (shown self.old)) }
    {
        self.contracts.push(part)?;
        Ok(())
    }

    /// Takes the contracts of a body off the stack.
    pub fn take_contracts(&mut self) -> Contracts<'a>
        ensures part { contracts_of result ≡ top_contracts (shown self.old).parts }
        ensures others { shown self.new ≡ without_contracts (shown self.old) }
    {
        self.contracts.pop().unwrap_or(Contracts::none(self.alloc))
    }

    /// Puts the postcondition of a body, or that there is none, on the stack.
    pub fn put_post(&mut self, part: Option<Claim<'a>>) -> Result<(), NoMemory>
        ensures { IfOk result (λ _. shown self.new
            ≡ with_post (option_map claim_parts part.entry) (shown self.old)) }
    {
        self.posts.push(part)?;
        Ok(())
    }

    /// Takes the postcondition of a body, or that there is none, off the stack.
    pub fn take_post(&mut self) -> Option<Claim<'a>>
        ensures part { option_map claim_parts result ≡ top_post (shown self.old).parts }
        ensures others { shown self.new ≡ without_post (shown self.old) }
    {
        self.posts.pop().unwrap_or(None)
    }

    /// Puts a whole declaration on the stack.
    pub fn put_decl(&mut self, part: &'a Checked<Decl<'a>>) -> Result<(), NoMemory>
        ensures { IfOk result (λ _. shown self.new ≡ with_decl (decl_of part.now.tree) (shown self.old)) }
    {
        self.decls.push(part)?;
        Ok(())
    }

    /// Takes a whole declaration off the stack.
    pub fn take_decl(&mut self) -> &'a Checked<Decl<'a>>
        ensures part { decl_of result.now.tree ≡ top_decl (shown self.old).parts }
        ensures others { shown self.new ≡ without_decl (shown self.old) }
    {
        self.decls.pop().unwrap_or(self.spares.decl)
    }
}
