//! The order in which checks are worked on.

ghost use Rattle.std.specs.Prelude.{◌≡◌};
ghost use Rattle.std.specs.Option.{option_map};
ghost use Rattle.pp_words.specs.Order as spec;

/// In which order the checks are worked on: one after the other; or one round of each in turn, in the order of their
/// numbers or in the opposite one.
#[derive(Clone, Copy, Debug, PartialEq, Eq)]
pub enum Order {
    One,
    Turns,
    Back,
}

fn order_named(name: &str) -> Option<Order>
    ensures { result ≡ spec.order_named name.now }
{
    match name {
        "one" => Some(Order::One),
        "turns" => Some(Order::Turns),
        "back" => Some(Order::Back),
        _ => None,
    }
}

/// The order that is written, or the default; None where what is written is none.
pub(crate) fn order_of(text: Option<&str>) -> Option<Order>
    ensures { result ≡ spec.order_of (option_map (λ text. text.now) text.entry) }
{
    match text {
        Some(name) => order_named(name),
        None => Some(Order::One),
    }
}
