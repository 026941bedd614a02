// A burn file loaded: its blocks, then its fields, then the sheet. A fault goes up as it is found.
ghost use Rattle.std.specs.Prelude.{◌≡◌, ◌-◌, length, Ok, Err, MatchResult};
ghost use Rattle.std.specs.List.{concat};
ghost use Rattle.burn.specs.Files.{entries_read, blocks_read, fields_read, table_read, loaded, Answers, FileLaws};

use crate::block::Blocks;
use crate::entry::{Entry, Table};
use crate::field::{read_entry, read_head};
use crate::outputs::Outputs;
use crate::rule::Inputs;
use crate::sheet::Sheet;
use arrayvec::ArrayVec;
use refusal::Refusal;
use std::alloc::Global;

// The blocks of a file, once all their sums are right.
fn read_blocks(file: &[u8]) -> Result<Blocks<'_>, Refusal>
    ensures { MatchResult result (λ b. (blocks_read file.now ≡ Ok (length b.all.now)) × (concat b.all.now ≡ file.now)) (λ e. blocks_read file.now ≡ Err e) }
{
    let blocks = Blocks::of(file)?;
    blocks.check_sums()?;
    Ok(blocks)
}

// The entries of the blocks behind the first.
fn read_entries(blocks: &Blocks, inputs: Inputs) -> Result<ArrayVec<Entry, 8>, Refusal>
    ensures { MatchResult result (λ t. entries_read inputs (concat blocks.now.all.now) 1 (length blocks.now.all.now - 1) ≡ Ok t.items) (λ e. entries_read inputs (concat blocks.now.all.now) 1 (length blocks.now.all.now - 1) ≡ Err e) }
{
    let mut entries = ArrayVec::new();
    for (number, block) in (1u32..).zip(&blocks.all[1..]) {
        entries.push(read_entry(block, number, inputs)?);
    }
    Ok(entries)
}

// All fields of the file, once its blocks are right.
fn read_fields(file: &[u8]) -> Result<Table, Refusal>
    ensures { table_read result ≡ fields_read file.now }
{
    let blocks = read_blocks(file)?;
    let head = read_head(&blocks.all[0])?;
    let entries = read_entries(&blocks, head.inputs)?;
    Ok(Table { head, entries })
}

// The sheet of a file, or the first fault of the file: all sums are tried, then all fields, then the causes.
pub fn load(heap: Global, file: &[u8]) -> Result<Sheet, Refusal>
    ensures answer { Answers (loaded file.now) result }
    ensures laws { FileLaws }
{
    let table = read_fields(file)?;
    let outputs = Outputs {
        entries: table.entries.as_slice(),
    };
    outputs.check_causes(table.head)?;
    let kept = Vec::from_slice(heap, outputs.entries)?;
    Ok(Sheet {
        inputs: table.head.inputs,
        limit: table.head.limit,
        spent: table.head.spent,
        entries: kept,
    })
}
