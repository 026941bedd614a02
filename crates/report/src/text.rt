// The text that is printed of a burn file.
ghost use Rattle.std.specs.Prelude.{◌≡◌, ◌+◌, Some, IfOk, string_bytes};
ghost use Rattle.burn.specs.Files.{contents, loaded};
ghost use Rattle.report.specs.Listing.{digits, listed, reported};

use burn::Sheet;
use refusal::Refusal;
use std::alloc::{AllocError, Global};
use std::fmt;

// The values of a vector, from weight 0 up to the inputs of a sheet.
#[derive(Clone, Copy)]
struct Values<'a> {
    sheet: &'a Sheet,
    vector: u32,
}

// A digit for each weight.
impl fmt::Display for Values<'_> {
    ghost output = { λ v. Some (digits v.vector 0 ((contents v.sheet.now).inputs + 1)) };

    #[tactic(auto, unfolding(crate::specs::Listing::digits))]
    fn fmt<W: fmt::Write>(&self, f: &mut fmt::Formatter<W>) -> fmt::Result {
        for weight in 0..self.sheet.inputs() + 1 {
            let digit = (self.vector >> weight) % 2;
            write!(f, "{digit}")?;
        }
        Ok(())
    }
}

// A sheet that is to be listed.
#[derive(Clone, Copy)]
struct Listing<'a> {
    sheet: &'a Sheet,
}

// The first line, and a line for each output.
impl fmt::Display for Listing<'_> {
    ghost output = { λ l. Some (listed (contents l.sheet.now)) };

    fn fmt<W: fmt::Write>(&self, f: &mut fmt::Formatter<W>) -> fmt::Result {
        let sheet = self.sheet;
        let inputs = sheet.inputs();
        let outputs = sheet.entries().len();
        let limit = sheet.limit();
        let spent = sheet.spent();
        writeln!(f, "n {inputs} m {outputs} limit {limit} spent {spent}")?;
        for (output, entry) in sheet.entries().iter().enumerate() {
            let price = entry.price;
            let taken = u32::from(entry.taken);
            let vector = entry.vector;
            let values = Values { sheet, vector };
            let wrong = entry.wrong;
            writeln!(
                f,
                "{output} price {price} taken {taken} vector {values} wrong {wrong}"
            )?;
        }
        Ok(())
    }
}

// The listing of a sheet.
pub fn listing_of(heap: Global, sheet: &Sheet) -> Result<String, AllocError>
    ensures { IfOk result (λ t. string_bytes t ≡ listed (contents sheet.now)) }
{
    Listing { sheet }.to_string(heap)
}

// What is printed of a file: its listing, or the one line that says why it is refused.
pub fn report_of(heap: Global, file: &[u8]) -> Result<String, AllocError>
    ensures { IfOk result (λ t. string_bytes t ≡ reported (loaded file.now)) }
{
    match burn::load(heap, file) {
        Ok(sheet) => listing_of(heap, &sheet),
        Err(Refusal::NoMemory) => Err(AllocError),
        Err(refusal) => format!(in heap; "refused {refusal}\n"),
    }
}
