// Every refusal that a call of this repository can give, in one table.
#![tactic(auto)]

mod show;
mod table;

pub use table::{Cause, Refusal};

#[cfg(test)]
mod tests {
    use super::*;
    use std::test::Fail;

    #[test]
    fn the_text_is_the_number_and_the_values(rt: HostRuntime) -> Result<(), Fail> {
        let heap = rt.alloc();
        let none = Refusal::FileLength.to_string(heap)?;
        let one = Refusal::Gap { next: 257 }.to_string(heap)?;
        let two = Refusal::BadField { block: 1, byte: 3 }.to_string(heap)?;
        let cause = u32::from(Cause::Spent);
        let kind = Refusal::BadCause { cause }.to_string(heap)?;
        assert!(rt; none.as_str() == "22");
        assert!(rt; one.as_str() == "14 257");
        assert!(rt; two.as_str() == "24 1 3");
        assert!(rt; kind.as_str() == "25 2");
        Ok(())
    }
}
