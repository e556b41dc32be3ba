//! Values: numbers, truth values and constructor trees.

ghost use Rattle.std.specs.Prelude.{◌≡◌, ◌↔◌, ◌^◌, ◌-◌, min, IsTrue, IfOk};
ghost use Rattle.pp_prog.specs.Values.{IsBelow, height};

use crate::CtorId;
use pp_list::Items;
use std::alloc::{AllocError, Global};

/// A value of the language: a number of 32 bits, a truth value, or a constructor with a value for each field.
#[derive(Drop)]
pub enum Value {
    Int(i32),
    Bool(bool),
    Tree(CtorId, Items<Value>),
}

/// A list of values.
pub type Values = Items<Value>;

impl Value {
    /// A value that equals this one. The only error is want of memory.
    pub fn copy(&self, alloc: Global) -> Result<Value, AllocError>
        ensures { IfOk result (λ v. v ≡ self.now) }
    {
        match self {
            Value::Int(n) => Ok(Value::Int(*n)),
            Value::Bool(b) => Ok(Value::Bool(*b)),
            Value::Tree(c, fields) => {
                let fields = fields.as_slice();
                let mut copies = Items::new(alloc);
                for field in fields {
                    copies.push(field.copy(alloc)?)?;
                }
                Ok(Value::Tree(*c, copies))
            }
        }
    }

    /// Whether the two are the same tree. It takes no memory.
    pub fn same(&self, other: &Value) -> bool
        ensures { IsTrue result ↔ (self.now ≡ other.now) }
    {
        match (self, other) {
            (Value::Int(a), Value::Int(b)) => *a == *b,
            (Value::Bool(a), Value::Bool(b)) => *a == *b,
            (Value::Tree(c, xs), Value::Tree(d, ys)) => {
                let xs = xs.as_slice();
                let ys = ys.as_slice();
                if *c != *d || xs.len() != ys.len() {
                    return false;
                }
                for i in 0..xs.len() {
                    if !xs[i].same(&ys[i]) {
                        return false;
                    }
                }
                true
            }
            _ => false,
        }
    }

    /// The height: 0 of a number and a truth value, and one more than the highest field of a tree. It is exact up to
    /// 2^64 - 1, where it stays. It takes no memory.
    pub fn height(&self) -> u64
        ensures { result ≡ min (height self.now) (2 ^ 64 - 1) }
    {
        match self {
            Value::Int(_) => 0,
            Value::Bool(_) => 0,
            Value::Tree(_, fields) => {
                let mut most = 0u64;
                for field in fields.as_slice() {
                    most = most.max(field.height());
                }
                most.saturating_add(1)
            }
        }
    }

    /// Whether this value is a proper subtree of the other: a field of it, or below one. It takes no memory.
    pub fn is_below(&self, other: &Value) -> bool
        ensures { IsTrue result ↔ IsBelow self.now other.now }
    {
        match other {
            Value::Int(_) => false,
            Value::Bool(_) => false,
            Value::Tree(_, fields) => {
                for field in fields.as_slice() {
                    if self.same(field) || self.is_below(field) {
                        return true;
                    }
                }
                false
            }
        }
    }
}
