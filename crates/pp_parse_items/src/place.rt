//! Where the parser stands.

use bumpalo::Bump;
use pp_parse_state::{Mode, NoMemory, Placed};
use pp_tree::{Decl, Import, Unit};
use pp_tree_build::Checked;
use std::alloc::Global;

/// Where the parser stands between declarations. Each stands for the mode of `pp_grammar` that has its name.
#[derive(Clone, Copy)]
pub enum ItemMode<'a> {
    AtStart,
    AtItem,
    AfterItem,
    AfterPackage,
    AfterPackageName,
    AfterImport,
    AfterPathName(Placed<'a>, bool),
    AfterPathDot(Placed<'a>, bool),
    WantChosen(Placed<'a>),
    AfterChosen(Placed<'a>),
    AfterObject,
    AfterObjectTitle,
    AfterObjectLine,
    AfterAt,
    AfterAnnotation,
    AfterAnnotationLine,
    AfterCase,
    AfterModifiers(bool, bool),
}

/// What is read of the unit.
#[derive(Drop)]
pub struct Parsed<'a> {
    pub imports: Vec<Import<'a>>,
    pub objects: Vec<&'a str>,
    pub decls: Vec<&'a Checked<Decl<'a>>>,
}

/// Where the parser stands: between declarations or within one, each with whether an object is open, or at the end.
#[derive(Clone, Copy)]
pub enum Place<'a> {
    Between(bool, ItemMode<'a>),
    Within(bool, Mode),
    Done(&'a Checked<Unit<'a>>),
}

impl<'a> Parsed<'a> {
    ghost use Rattle.std.specs.Prelude.{◌≡◌, IfOk};
    ghost use Rattle.pp_tree.specs.Shown.{decl_of, unit_of};
    ghost use Rattle.pp_grammar.specs.Joining.{nothing_parsed, unit_of as plain_unit, with_decl, with_import};
    ghost use Rattle.pp_grammar.specs.Joining.{with_object};
    ghost use Rattle.pp_parse_state.specs.Values.{placed_of};
    ghost use Rattle.pp_parse_items.specs.Shown.{parsed_of};

    /// Nothing is read.
    pub fn none(alloc: Global) -> Parsed<'a>
        ensures { parsed_of result ≡ nothing_parsed }
    {
        Parsed {
            imports: Vec::new(alloc),
            objects: Vec::new(alloc),
            decls: Vec::new(alloc),
        }
    }

    /// An import of an object is read.
    #[tactic(auto, using(pp_parse_state::proofs::Stacked::stacked_push))]
    pub fn import(&mut self, object: Placed<'a>) -> Result<(), NoMemory>
        ensures { IfOk result (λ _. parsed_of self.new ≡ with_import (parsed_of self.old) (placed_of object.entry)) }
    {
        self.imports.push(Import {
            name: object.word,
            at: object.at,
        })?;
        Ok(())
    }

    /// An object is opened.
    #[tactic(auto, using(pp_parse_state::proofs::Stacked::stacked_push))]
    pub fn open(&mut self, name: &'a str) -> Result<(), NoMemory>
        ensures { IfOk result (λ _. parsed_of self.new ≡ with_object (parsed_of self.old) name.now) }
    {
        self.objects.push(name)?;
        Ok(())
    }

    /// A declaration is read.
    #[tactic(auto, using(pp_parse_state::proofs::Stacked::stacked_push))]
    pub fn declare(&mut self, decl: &'a Checked<Decl<'a>>) -> Result<(), NoMemory>
        ensures { IfOk result (λ _. parsed_of self.new ≡ with_decl (parsed_of self.old) (decl_of decl.now.tree)) }
    {
        self.decls.push(decl)?;
        Ok(())
    }

    /// The unit that is read.
    #[tactic(auto, using(pp_parse_frames::proofs::Finished::list_finished))]
    pub fn unit(&self, arena: &'a Bump) -> Result<&'a Checked<Unit<'a>>, NoMemory>
        ensures { IfOk result (λ u. unit_of u.now.tree ≡ plain_unit (parsed_of self.now)) }
    {
        pp_tree_build::unit(arena, &self.imports, &self.objects, &self.decls)
    }
}
