//! The text of a choice of pivots.
ghost use Rattle.std.specs.Prelude.{◌≡◌, ◌<◌, ◌++◌, ◌∷◌, [], All, length};
ghost use Rattle.std.specs.List.{flat_map};
ghost use Rattle.mi_choose.specs.Farthest.{objects_at};
ghost use Rattle.mi_outside.specs.Outside.{Sends};
ghost use Rattle.mi_call.specs.Choosing.{choice_text, pivot_line};

use mi_base::{Vector, VectorList};
use mi_choose::{Choice, Places};
use mi_outside::{Sink, SinkFailed};
use mi_print::{Line, send_numbers};

fn send_pivot<S: Sink>(vector: &Vector, out: &mut S) -> Result<(), SinkFailed>
    ensures { Sends (S.state out.old) (S.state out.new) (pivot_line vector.now) result }
{
    let mut line = Line::new("pivot");
    for coordinate in vector.as_slice() {
        line.coordinate(*coordinate);
    }
    line.send(out)
}

/// Sends a line for each object at these places.
fn send_pivots<S: Sink>(
    objects: &VectorList,
    places: &Places,
    out: &mut S,
) -> Result<(), SinkFailed>
    requires { All (λ place. place < length objects.now) places.now }
    ensures { Sends (S.state out.old) (S.state out.new) (flat_map pivot_line (objects_at objects.now places.now)) result }
{
    for place in places.as_slice() {
        send_pivot(objects.at(*place as usize), out)?;
    }
    Ok(())
}

/// Sends the chosen objects, how far they leave the others, and how far apart they are. It takes no
/// memory.
pub fn send_choice<S: Sink>(
    objects: &VectorList,
    choice: &Choice,
    out: &mut S,
) -> Result<(), SinkFailed>
    requires { All (λ place. place < length objects.now) choice.now.chosen }
    ensures { Sends (S.state out.old) (S.state out.new) (choice_text objects.now choice.now) result }
{
    send_pivots(objects, &choice.chosen, out)?;
    send_numbers("cover", &[choice.cover as u64], out)?;
    send_numbers("apart", &[choice.apart as u64], out)
}
