//! Lists and boxes at a type of their own.

use super::*;
use std::test::Fail;

#[test]
fn lists_and_boxes_show_what_they_hold(rt: HostRuntime) -> Result<(), Fail> {
    let alloc = rt.alloc();
    let mut items = Items::new(alloc);
    items.push(7u32)?;
    items.push(8)?;
    assert_eq!(rt; items.as_slice().len(), 2usize);
    assert!(rt; matches!(at(items.as_slice(), 1), Some(8)));
    assert!(rt; at(items.as_slice(), 2).is_none());
    let boxed = Boxed::new(alloc, 9u32)?;
    assert_eq!(rt; *boxed.get(), 9u32);
    Ok(())
}
