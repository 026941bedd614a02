// A page filled, piece by piece and level by level.
ghost use Rattle.std.specs.Prelude.{◌≡◌, ◌+◌, ◌<◌, ◌≤◌, length};
ghost use Rattle.drawing.specs.Pieces.{blank, settled, place_of, with_piece, with_pieces, with_levels};
ghost use Rattle.drawing.specs.Page.{draft};

use crate::page::Page;
use arrayvec::ArrayVec;
use design::first_meeting;
use diagram::Node;
use std::array;
use symmetric::ValueVector;

impl Page {
    // The page with all levels drawn, the last one first.
    #[tactic(auto, unfolding(crate::specs::Pieces::with_levels))]
    pub fn filled(vector: &ValueVector) -> Page
        ensures { draft result ≡ with_levels vector.now.inputs vector.now.bits vector.now.inputs }
    {
        let mut page = Page::blank(vector);
        for level in (0..vector.inputs()).rev() {
            page.draw_level(vector, level);
        }
        page
    }

    // The page before any level is drawn: each piece is one value.
    fn blank(vector: &ValueVector) -> Page
        ensures { draft result ≡ blank vector.now.bits }
    {
        let bits = vector.bits();
        Page {
            nodes: ArrayVec::new(),
            refers: array::from_fn(|k| (bits >> k) % 2),
        }
    }

    // Draws all pieces of a level. Room is asked for here and below, in each step for what it may place: a page knows how many
    // nodes stand, and how many are still to come only its levels know.
    #[tactic(auto, unfolding(crate::specs::Pieces::with_pieces))]
    fn draw_level(&mut self, vector: &ValueVector, level: u32)
        requires level { level < vector.now.inputs }
        requires room { length self.old.nodes.items + level + 1 ≤ 136 }
        ensures { draft self.new ≡ with_pieces vector.now.inputs vector.now.bits level (level + 1) (draft self.old) }
    {
        for k in 0..=level as usize {
            self.draw_piece(vector, level, k);
        }
    }

    // Draws the piece k of a level. The drawing writes a table, in which references are numbers (0 and 1 marks, 3 + p the
    // node at place p); a `Target` is for reading one.
    fn draw_piece(&mut self, vector: &ValueVector, level: u32, k: usize)
        requires level { level < vector.now.inputs }
        requires piece { k ≤ level }
        requires room { length self.old.nodes.items < 136 }
        ensures { draft self.new ≡ with_piece vector.now.inputs vector.now.bits level k (draft self.old) }
    {
        let span = 1 << (vector.inputs() - level + 1);
        let piece = (vector.bits() >> k) % span;
        if piece == 0 {
            self.refers[k] = 0;
        } else if piece == span - 1 {
            self.refers[k] = 1;
        } else {
            let (low, high) = (self.refers[k], self.refers[k + 1]);
            self.settle(k, Node { level, low, high });
        }
    }

    // Refers from k to a node, which is placed unless an equal one stands already.
    fn settle(&mut self, k: usize, node: Node)
        requires piece { k < 17 }
        requires room { length self.old.nodes.items < 136 }
        ensures { draft self.new ≡ settled k node (place_of node (draft self.old).nodes) (draft self.old) }
    {
        match first_meeting(&self.nodes, &node) {
            Some(place) => {
                self.refers[k] = 3 + place as u32;
            }
            None => {
                self.refers[k] = 3 + self.nodes.len() as u32;
                self.nodes.push(node);
            }
        }
    }
}
