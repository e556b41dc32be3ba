//! Putting lines.

ghost use Rattle.std.specs.Prelude.{◌≡◌, ◌≤◌, OnOk, OnErr, map, string_bytes};
ghost use Rattle.std.specs.Io.KnownBytes.{Appends};
ghost use Rattle.std.specs.List.{concat};
ghost use Rattle.pp_print.specs.Puts.{IsCut};
ghost use Rattle.pp_seam.specs.Faults.{Rose};
ghost use Rattle.pp_seam.specs.Pieces.{AppendsFront};

use pp_seam::{PutFault, Sink};

/// Puts the lines in order, each as one piece, up to the first fault. It takes no memory.
///
/// # Errors
///
/// `Failed` where a put failed, and so the sink's count of faults rose. Then the lines before this one were taken
/// whole, of this one a front was taken, and nothing was put after it.
pub fn put_lines<K: Sink>(out: &mut K, lines: &[String]) -> Result<(), PutFault>
    ensures whole { OnOk result (Appends (K.taken out.old) (K.taken out.new) (concat (map string_bytes lines.now))) }
    ensures steady { OnOk result (K.faults out.new ≡ K.faults out.old) }

    // on a fault
    ensures front { OnErr result (IsCut (map string_bytes lines.now) (K.taken out.old) (K.taken out.new)) }
    ensures prefix { OnErr result (AppendsFront (K.taken out.old) (K.taken out.new)
        (concat (map string_bytes lines.now))) }
    ensures cause { OnErr result (Rose (K.faults out.old) (K.faults out.new)) }

    ensures later { K.faults out.old ≤ K.faults out.new }
{
    for line in lines {
        out.put(line.as_bytes())?;
    }
    Ok(())
}
