//! What an expression stands in.

ghost use Rattle.std.specs.Prelude.{◌<◌, ◌^◌, length};

use pp_names::Names;

/// All declarations, the type parameters and the name of the function around an expression, and its source from 1.
#[derive(Drop)]
pub struct Context<'n, 'a> {
    pub names: &'n Names,
    pub type_params: &'a [&'a str],
    pub function: &'a str,
    pub source: u32,
    ghost few: { length type_params.now < 2 ^ 32 },
}
