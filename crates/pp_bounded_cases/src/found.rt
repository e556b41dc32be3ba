//! What is read of two trees, of the comparisons of them and of the choice between them.

use crate::case::{Case, spell};
use anyhow::{Result, ensure};
use pp_case_line::CaseLine;
use pp_prog::Value;

/// The values for which the two trees and the choice between them stand, and what the domain's comparisons say.
#[derive(Drop)]
pub struct Found {
    pub left: Value,
    pub right: Value,
    pub same: bool,
    pub below: bool,
    pub merged: Value,
}

impl Found {
    /// Fails where the values themselves compare otherwise, another one was chosen, or one is higher than the trees.
    pub fn check(&self, case: &Case) -> Result<()> {
        ensure!(self.left.same(&self.right) == self.same, "not as equal");
        ensure!(
            self.left.is_below(&self.right) == self.below,
            "not as below"
        );
        let chosen = if case.left_chosen {
            &self.left
        } else {
            &self.right
        };
        ensure!(self.merged.same(chosen), "another choice");
        for value in [&self.left, &self.right] {
            ensure!(value.height() <= u64::from(case.height), "too high");
        }
        Ok(())
    }

    /// Adds the values, each spelled behind a blank, with the comparisons between them.
    pub fn show(&self, line: &mut CaseLine) {
        spell(line, &self.left);
        line.put(" |");
        spell(line, &self.right);
        let (same, below) = (u8::from(self.same), u8::from(self.below));
        line.put(format_args!(" | {same} {below} |"));
        spell(line, &self.merged);
    }
}
