// A sheet written into a buffer that the burner lends.
ghost use Rattle.std.specs.Prelude.{◌≡◌, ◌*◌, length};
ghost use Rattle.burn.specs.Files.{contents, head_block, entry_block, entry_blocks, write_answer, overwritten};

use crate::block::{BLOCK, Block, closed};
use crate::entry::{Entry, Fields, HEAD, OUTPUT};
use crate::sheet::Sheet;
use refusal::Refusal;

// The block of an output.
fn block_of(entry: &Entry, number: u8) -> Block
    ensures { result ≡ entry_block number entry.now }
{
    closed(Fields {
        kind: OUTPUT,
        number,
        first: entry.price,
        second: u8::from(entry.taken),
        low: entry.vector,
        high: entry.wrong,
    })
}

impl Sheet {
    // The first block.
    fn first_block(&self) -> Block
        ensures { result ≡ head_block (contents self.now) }
    {
        closed(Fields {
            kind: HEAD,
            number: 0,
            first: self.inputs.count() as u8,
            second: self.entries.len() as u8,
            low: self.limit,
            high: self.spent,
        })
    }

    // The blocks of all outputs, over a part that is as long as they are.
    fn write_entries(&self, part: &mut [u8])
        requires { length part.old ≡ length (contents self.now).entries * 512 }
        ensures { part.new ≡ entry_blocks 1 (contents self.now).entries }
    {
        // by place: of chunks lent by `chunks_exact_mut` no proof knows what the part holds afterwards
        for (index, entry) in self.entries.as_slice().iter().enumerate() {
            let block = block_of(entry, index as u8 + 1);
            let start = index * BLOCK;
            part[start..start + BLOCK].copy_from_slice(&block);
        }
    }

    // Writes the file into the front of a buffer and answers its length; a buffer that is too short stays as it is.
    // The buffer is lent by the burner, and may be longer: so the length is answered beside it.
    pub fn write(&self, buffer: &mut [u8]) -> Result<usize, Refusal>
        ensures answer { result ≡ write_answer (contents self.now) buffer.old }
        ensures after { buffer.new ≡ overwritten (contents self.now) buffer.old }
    {
        let length = (self.entries.len() + 1) * BLOCK;
        if buffer.len() < length {
            return Err(Refusal::BufferShort { length });
        }
        let first = self.first_block();
        buffer[0..BLOCK].copy_from_slice(&first);
        self.write_entries(&mut buffer[BLOCK..length]);
        Ok(length)
    }
}
