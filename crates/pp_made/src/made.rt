//! Making the source of a seed.

ghost use Rattle.std.specs.Prelude.{◌≡◌, ◌++◌, ◌≤◌, IfOk, OnOk, length, string_bytes};
ghost use Rattle.std.specs.List.{concat};
ghost use Rattle.pp_limits.specs.declared.TheConstants.{MOST_SEED};
ghost use Rattle.pp_text.specs.Limits.{most_bytes};
ghost use Rattle.pp_made.specs.Made.{count_with, step_with};
ghost use Rattle.pp_made.specs.Made as spec;

use pp_text::NoMemory;
use std::alloc::Global;

/// The object's first line, and the type of lists.
const OPENING: &str = "object Made {
  sealed abstract class L
  case class Cons(h: Int, t: L) extends L
  case class Nil() extends L
";

/// Adds the function of a number that counts a list, up to the bound.
fn push_count(out: &mut String, number: u32, bound: u64) -> Result<(), NoMemory>
    ensures { OnOk result (string_bytes out.new ≡ string_bytes out.old ++ concat (count_with number bound)) }
{
    write!(
        out,
        "  def count{number}(l: L): Int = {{
    decreases(l)
    l match {{
      case Cons(_, t) =>
        val n = count{number}(t)
        if (n >= {bound}) {bound} else n + 1
      case Nil() => 0
    }}
  }} ensuring (res => 0 <= res && res <= {bound})
"
    )
}

/// Adds the function of a number that steps up to the bound, and from it to 0.
fn push_step(out: &mut String, number: u32, bound: u64) -> Result<(), NoMemory>
    ensures { OnOk result (string_bytes out.new ≡ string_bytes out.old ++ concat (step_with number bound)) }
{
    write!(
        out,
        "  def step{number}(x: Int): Int = {{
    require(0 <= x && x <= {bound})
    if (x < {bound}) x + 1 else 0
  }} ensuring (res => 0 <= res && res <= {bound})
"
    )
}

/// The source of a seed: an object with the two functions of each number from 1 to the seed. It is short enough for a
/// source where the seed is at most 200, as those are that an option takes. The only error is want of memory.
pub fn made_source(alloc: Global, seed: u32) -> Result<String, NoMemory>
    ensures bytes { IfOk result (λ s. string_bytes s ≡ spec.made_source seed) }
    ensures short { IfOk result (λ s. seed ≤ MOST_SEED → length (string_bytes s) ≤ most_bytes) }
{
    let mut out = String::from_str(alloc, OPENING)?;
    for earlier in 0..seed {
        let number = earlier + 1;
        let bound = 10 + u64::from(number);
        push_count(&mut out, number, bound)?;
        push_step(&mut out, number, bound)?;
    }
    out.push_str("}\n")?;
    Ok(out)
}
