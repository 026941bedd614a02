// Covers made at random, of cubes no two of which meet.
use crate::maker::{Maker, expected};
use crate::shapes::Shape;
use cover::{Cover, Cube, Kind};
use std::alloc::AllocError;

// Halves a cube along an input that it leaves free.
fn halve(cubes: &mut Vec<Cube>, place: usize, input: u16) -> Result<(), AllocError> {
    let Some(cube) = cubes.get_mut(place) else {
        return Ok(());
    };
    if cube.fixed & input != 0 {
        return Ok(());
    }
    cube.fixed |= input;
    let upper = Cube {
        value: cube.value | input,
        ..*cube
    };
    cubes.push(upper)?;
    Ok(())
}

impl Maker {
    // The cubes that all rows of an output are split into.
    fn pieces(&mut self, output: u32) -> Result<Vec<Cube>, AllocError> {
        let all = Cube {
            output,
            kind: u32::from(Kind::On),
            fixed: 0,
            value: 0,
        };
        let mut cubes = Vec::from_slice(self.heap, &[all])?;
        for step in 0..self.dice.below(60) {
            let place = self.dice.below(step + 1) as usize;
            let input = self.frame.input(&mut self.dice);
            halve(&mut cubes, place, input)?;
        }
        Ok(cubes)
    }

    // Adds the pieces to a table: of four one is left out, one is a don't-care and two are on.
    fn paint(&mut self, pieces: &[Cube], table: &mut Vec<Cube>) -> Result<(), AllocError> {
        for piece in pieces {
            let kind = match self.dice.below(4) {
                0 => continue,
                1 => Kind::DontCare,
                _ => Kind::On,
            };
            let kind = u32::from(kind);
            table.push(Cube { kind, ..*piece })?;
        }
        Ok(())
    }

    // For each output, pieces that all its rows are split into.
    pub(crate) fn split(&mut self) -> Result<Vec<Cube>, AllocError> {
        let mut table = Vec::new(self.heap);
        for output in 0..self.frame.outputs() {
            let pieces = self.pieces(output)?;
            self.paint(&pieces, &mut table)?;
        }
        Ok(table)
    }

    // Any kind, as a number.
    fn kind(&mut self) -> u32 {
        u32::from(if self.dice.below(2) == 0 {
            Kind::On
        } else {
            Kind::DontCare
        })
    }

    // Any cube.
    fn any(&mut self) -> Cube {
        let output = self.frame.output(&mut self.dice);
        let kind = self.kind();
        let fixed = self.frame.set(&mut self.dice);
        let value = self.frame.set(&mut self.dice) & fixed;
        Cube {
            output,
            kind,
            fixed,
            value,
        }
    }

    // Whether a cover takes the cube beside those that it has.
    fn is_taken(&self, table: &[Cube], cube: Cube) -> Result<bool, AllocError> {
        let mut more = Vec::from_slice(self.heap, table)?;
        more.push(cube)?;
        Ok(Cover::new(self.frame.inputs(), self.frame.outputs(), more).is_ok())
    }

    // Any cubes, without those that meet one before.
    pub(crate) fn kept(&mut self) -> Result<Vec<Cube>, AllocError> {
        let mut table = Vec::new(self.heap);
        for _ in 0..1 + self.dice.below(80) {
            let cube = self.any();
            if self.is_taken(&table, cube)? {
                table.push(cube)?;
            }
        }
        Ok(table)
    }

    // As many cubes as a cover takes: 13 inputs are fixed, to one of each two neighbouring values.
    pub(crate) fn crowd(&mut self) -> Result<Vec<Cube>, AllocError> {
        let mut table = Vec::new(self.heap);
        for place in 0u16..4096 {
            let kind = self.kind();
            let value = 2 * place + self.dice.below(2) as u16;
            table.push(Cube {
                output: 0,
                kind,
                fixed: 8191,
                value,
            })?;
        }
        Ok(table)
    }

    // A cover of the frame, of cubes that come about in this way.
    pub(crate) fn cover<F: FnOnce(&mut Maker) -> Result<Vec<Cube>, AllocError>>(
        &mut self,
        cubes: F,
    ) -> anyhow::Result<Shape<Cover>>
        requires { F.IsAlwaysCallable cubes }
    {
        let table = cubes(self)?;
        let parts = table.len();
        Ok(Shape {
            design: expected(Cover::new(self.frame.inputs(), self.frame.outputs(), table))?,
            parts,
        })
    }
}
