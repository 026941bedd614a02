// A symmetric function drawn into a buffer that the board lends.
ghost use Rattle.std.specs.Prelude.{◌≡◌, ◌≤◌, length};
ghost use Rattle.symmetric.specs.Vectors.{held};
ghost use Rattle.drawing.specs.Pieces.{drawing_of, draw_answer, drawn_over};
ghost use Rattle.drawing.specs.Reduced.{DrawnReduced};

use crate::drawn::Drawn;
use crate::page::Page;
use diagram::Node;
use refusal::Refusal;
use symmetric::ValueVector;

// Draws a symmetric function as its reduced ordered diagram, into the front of a buffer, and answers how
// many nodes there are and the root; a buffer that is too short stays as it is. The board lends the buffer, so
// the count is answered beside it.
#[tactic(auto, using(crate::proofs::Diagrams::reduced))]
pub fn draw(vector: &ValueVector, buffer: &mut [Node]) -> Result<Drawn, Refusal>
    ensures answer { result ≡ draw_answer (drawing_of (held vector.now)) (length buffer.old) }
    ensures after { buffer.new ≡ drawn_over (drawing_of (held vector.now)) buffer.old }
    ensures reduced { DrawnReduced (held vector.now) }
    ensures few { length (drawing_of (held vector.now)).nodes ≤ 136 }
{
    let page = Page::filled(vector);
    let count = page.nodes.len();
    if buffer.len() < count {
        return Err(Refusal::NodesShort { count });
    }
    buffer[..count].copy_from_slice(&page.nodes);
    Ok(Drawn {
        count,
        root: page.refers[0],
    })
}
