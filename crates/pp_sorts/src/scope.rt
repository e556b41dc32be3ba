//! The types that a declaration may name.

ghost use Rattle.std.specs.Prelude.{◌≡◌, ◌<◌, ◌^◌, length};
ghost use Rattle.pp_names.specs.Places.{place_of};
ghost use Rattle.pp_names.specs.Find.{names_of};
ghost use Rattle.pp_sorts.specs.IsSort.{head_of, root_head};
ghost use Rattle.pp_sorts.specs.Words.{words_of};

use crate::Head;
use pp_list::at;
use pp_names::NameTable;
use pp_typed::TypedRoot;

/// The roots, found by their names, and the type parameters of a declaration in a source, which is numbered from 1.
#[derive(Drop)]
pub struct TypeScope<'a> {
    pub names: &'a NameTable,
    pub roots: &'a [TypedRoot],
    pub params: &'a [&'a str],
    pub source: u32,
    ghost named: { names.now ≡ names_of roots.now },
    ghost few: { length params.now < 2 ^ 32 },
}

impl<'a> TypeScope<'a> {
    /// What the name of a type stands for; None exactly where it stands for nothing. It takes no memory.
    pub fn head_of(&self, name: &str) -> Option<Head>
        ensures { result ≡ head_of self.now.roots.now (words_of self.now.params.now) name.now }
    {
        if name == "Int" {
            return Some(Head::Int);
        }
        if name == "Boolean" {
            return Some(Head::Bool);
        }
        match place_of(self.params, name) {
            Some(i) => Some(Head::Param(i)),
            None => self.root_head(name),
        }
    }

    /// The first root of the name.
    fn root_head(&self, name: &str) -> Option<Head>
        ensures { result ≡ root_head self.now.roots.now (place_of name.now (names_of self.now.roots.now)) }
    {
        match self.names.find(name) {
            Some(r) => match at(self.roots, r as usize) {
                Some(root) => Some(Head::Root(r, root.type_params)),
                None => None,
            },
            None => None,
        }
    }
}

/// The place of the first of the texts that is this one. It takes no memory.
pub(crate) fn place_of(texts: &[&str], name: &str) -> Option<u32>
    requires { length texts.now < 2 ^ 32 }
    ensures { result ≡ place_of name.now (words_of texts.now) }
{
    for i in 0..texts.len() {
        if name == texts[i] {
            return Some(i as u32);
        }
    }
    None
}
