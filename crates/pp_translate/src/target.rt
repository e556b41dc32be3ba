//! What is translated into.

use pp_list::Items;
use pp_numbers::Numbers;
use pp_prog::TypeTable;

/// What is known of the program before its functions are translated: its types, the numbers of its instances, and at
/// each function's place the number of its group.
#[derive(Drop)]
pub struct Target {
    pub types: TypeTable,
    pub numbers: Numbers,
    pub groups: Items<u32>,
}
