//! What is known of the value of a step.

ghost use Rattle.std.specs.Prelude.{◌≡◌, ◌&&◌, true, nat_eq, IfSome};
ghost use Rattle.pp_prog.specs.declared.value.Value.{Value};
ghost use Rattle.pp_steps.specs.Meaning.{Values};
ghost use Rattle.pp_closure.specs.Facts as spec;
ghost use Rattle.pp_closure.specs.Facts.{HasHigh, HasLow, Tells};
ghost use Rattle.pp_closure.specs.Sums.{whole};

use pp_prog::CtorId;

/// A constructor, and how many fields it has.
#[derive(Clone, Copy)]
pub(crate) struct Shape {
    pub ctor: CtorId,
    pub fields: usize,
}

/// What is known of the value of a step: another step that has it, or the step itself; the truth value that it is; the
/// constructor that it has; a step that makes it, which is a number, a sum or a constructor with its fields; and bounds
/// of the number that it is. Besides, how often the bounds were moved, and the next step of its class, the last one's
/// being the first.
#[derive(Clone, Copy)]
pub(crate) struct Class {
    pub name: u32,
    pub truth: Option<bool>,
    pub shape: Option<Shape>,
    pub maker: Option<u32>,
    pub low: Option<i32>,
    pub high: Option<i32>,
    pub moves: u32,
    pub next: u32,
}

impl Shape {
    /// Whether it is the other one.
    pub(crate) fn is(self, other: Shape) -> bool
        ensures { result ≡ (nat_eq self.ctor.0 other.ctor.0 && nat_eq self.fields other.fields) }
    {
        self.ctor.0 == other.ctor.0 && self.fields == other.fields
    }
}

impl Class {
    /// Nothing is known of the step's value.
    pub(crate) fn of(number: u32) -> Class
        ensures { result ≡ spec.unknown number }
    {
        Class {
            name: number,
            truth: None,
            shape: None,
            maker: None,
            low: None,
            high: None,
            moves: 0,
            next: number,
        }
    }

    /// What is known of one value by two classes, by this one first.
    pub(crate) fn with(&self, other: &Class) -> Class
        ensures { (ρ : Values) (v : Value) → Tells ρ self.now v → Tells ρ other.now v → Tells ρ result v }
    {
        Class {
            name: self.name,
            truth: self.truth.or(other.truth),
            shape: self.shape.or(other.shape),
            maker: self.maker.or(other.maker),
            low: higher(self.low, other.low),
            high: lower(self.high, other.high),
            moves: self.moves.max(other.moves),
            next: other.next,
        }
    }

    /// Whether no value is as both tell.
    pub(crate) fn excludes(&self, other: &Class) -> bool
        ensures { (ρ : Values) (v : Value) → result ≡ true → Tells ρ self.now v → Tells ρ other.now v → ⊥ }
    {
        self.excludes_truth(other) || self.excludes_shape(other) || self.excludes_number(other)
    }

    /// Whether one tells of a number that is less than any of which the other one does.
    fn excludes_number(&self, other: &Class) -> bool
        ensures { (ρ : Values) (v : Value) → result ≡ true → Tells ρ self.now v → Tells ρ other.now v → ⊥ }
    {
        exceeds(self.low, other.high) || exceeds(other.low, self.high)
    }

    /// The number that the value is, where the bounds leave only one.
    pub(crate) fn number(&self) -> Option<i32>
        ensures { IfSome result (λ n. (ρ : Values) (v : Value) → Tells ρ self.now v → whole v ≡ n) }
    {
        only(self.low, self.high)
    }

    /// Whether one tells of a true value and the other of a false one.
    fn excludes_truth(&self, other: &Class) -> bool
        ensures { (ρ : Values) (v : Value) → result ≡ true → Tells ρ self.now v → Tells ρ other.now v → ⊥ }
    {
        match (self.truth, other.truth) {
            (Some(one), Some(two)) => one != two,
            _ => false,
        }
    }

    /// Whether they tell of different constructors.
    pub(crate) fn excludes_shape(&self, other: &Class) -> bool
        ensures { (ρ : Values) (v : Value) → result ≡ true → Tells ρ self.now v → Tells ρ other.now v → ⊥ }
    {
        match (self.shape, other.shape) {
            (Some(one), Some(two)) => !one.is(two),
            _ => false,
        }
    }
}

/// The higher one of two lower bounds.
fn higher(one: Option<i32>, other: Option<i32>) -> Option<i32>
    ensures { (v : Value) → HasLow one v → HasLow other v → HasLow result v }
{
    match (one, other) {
        (Some(a), Some(b)) => { if a < b { other } else { one } }
        (None, _) => other,
        _ => one,
    }
}

/// The lower one of two upper bounds.
fn lower(one: Option<i32>, other: Option<i32>) -> Option<i32>
    ensures { (v : Value) → HasHigh one v → HasHigh other v → HasHigh result v }
{
    match (one, other) {
        (Some(a), Some(b)) => { if b < a { other } else { one } }
        (None, _) => other,
        _ => one,
    }
}

/// Whether no number lies between the bounds.
pub(crate) fn exceeds(low: Option<i32>, high: Option<i32>) -> bool
    ensures { result ≡ true → (v : Value) → HasLow low v → HasHigh high v → ⊥ }
{
    match (low, high) {
        (Some(low), Some(high)) => low > high,
        _ => false,
    }
}

/// The one number between the bounds.
fn only(low: Option<i32>, high: Option<i32>) -> Option<i32>
    ensures { IfSome result (λ n. (v : Value) → HasLow low v → HasHigh high v → whole v ≡ n) }
{
    match (low, high) {
        (Some(low), Some(high)) => { if low == high { Some(low) } else { None } }
        _ => None,
    }
}
