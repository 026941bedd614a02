// Each refusal of a file at its edges, and what writing leaves.
use burn::{Entry, Sheet, load};
use refusal::Refusal;
use std::alloc::{AllocError, Global};
use std::test::Fail;

// A byte of the sample by its place, what it becomes, whether the sum is made right again, and what a load then says.
struct Case(usize, u8, bool, &'static str);

// One byte of each field out of its range and at the edge of it, both sums, and each rule that the fields keep together.
const CASES: [Case; 29] = [
    Case(508, 57, false, "23 0"),
    Case(1020, 87, false, "23 1"),
    Case(515, 2, false, "23 1"),
    Case(0, 2, true, "24 0 0"),
    Case(1, 1, true, "24 0 1"),
    Case(2, 0, true, "24 0 2"),
    Case(2, 17, true, "24 0 2"),
    Case(2, 16, true, "sheet"),
    Case(3, 0, true, "24 0 3"),
    Case(3, 9, true, "24 0 3"),
    Case(12, 1, true, "24 0 12"),
    Case(507, 1, true, "24 0 507"),
    Case(512, 1, true, "24 1 0"),
    Case(513, 2, true, "24 1 1"),
    Case(514, 0, true, "24 1 2"),
    Case(515, 2, true, "24 1 3"),
    Case(516, 28, true, "24 1 4"),
    Case(516, 15, true, "sheet"),
    Case(520, 5, true, "24 1 8"),
    Case(524, 1, true, "24 1 12"),
    Case(1019, 1, true, "24 1 507"),
    Case(3, 2, true, "25 1"),
    Case(514, 255, true, "25 2"),
    Case(515, 0, true, "25 2"),
    Case(520, 4, true, "25 2"),
    Case(8, 4, true, "25 2"),
    Case(4, 2, true, "25 3"),
    Case(4, 4, true, "sheet"),
    Case(7, 255, true, "sheet"),
];

// An output that is taken.
fn entry(price: u8, vector: u32, wrong: u32) -> Entry {
    Entry {
        price,
        taken: true,
        vector,
        wrong,
    }
}

// The sheet of three inputs and one output, price 3, taken, value vector 12, one wrong row.
fn sample(heap: Global, limit: u32) -> Result<Sheet, Refusal> {
    Sheet::new(3, limit, 3, Vec::from_slice(heap, &[entry(3, 12, 1)])?)
}

// The sum of (place + 1) × byte, reckoned backwards: what each byte adds is added once more for each byte before it.
fn sum_of(block: &[u8]) -> u32 {
    let mut tail = 0u32;
    let mut sum = 0u32;
    for byte in block.iter().rev() {
        tail = tail.wrapping_add(u32::from(*byte));
        sum = sum.wrapping_add(tail);
    }
    sum
}

// Makes the sum right of the block in which a byte was changed; the other block's stays as it was written.
fn sum_again(file: &mut [u8], place: usize) {
    let (blocks, _) = file.as_chunks_mut::<512>();
    if let Some(block) = blocks.get_mut(place / 512) {
        let sum = sum_of(&block[..508]);
        block[508..].copy_from_slice(&sum.to_le_bytes());
    }
}

// What a load says: the text of its refusal, or 'sheet'.
fn said(heap: Global, file: &[u8]) -> Result<String, AllocError> {
    match load(heap, file) {
        Ok(_) => String::from_str(heap, "sheet"),
        Err(refusal) => refusal.to_string(heap),
    }
}

#[test]
fn each_field_is_held_to_its_rule(rt: HostRuntime) -> Result<(), Fail> {
    let heap = rt.alloc();
    let sheet = sample(heap, 3)?;
    for Case(place, value, summed, says) in CASES.iter() {
        let mut file = [0u8; 1024];
        assert_eq!(rt; sheet.write(&mut file)?, 1024);
        assert!(rt; *place < 1024);
        file[*place] = *value;
        if *summed {
            sum_again(&mut file, *place);
        }
        let said = said(heap, &file)?;
        assert!(rt; said.as_str() == *says, "{says}");
    }
    Ok(())
}

#[test]
fn only_two_to_nine_blocks_are_a_file(rt: HostRuntime) -> Result<(), Fail> {
    let heap = rt.alloc();
    let zeros = [0u8; 5120];
    for length in [0usize, 1, 511, 512, 513, 1023, 1025, 4607, 4609, 5120] {
        assert!(rt; length <= 5120);
        assert!(rt; said(heap, &zeros[0..length])?.as_str() == "22");
    }
    Ok(())
}

#[test]
fn whole_blocks_are_tried_by_their_fields(rt: HostRuntime) -> Result<(), Fail> {
    let heap = rt.alloc();
    let zeros = [0u8; 4608];
    for length in [1024usize, 4608] {
        assert!(rt; length <= 4608);
        assert!(rt; said(heap, &zeros[0..length])?.as_str() == "24 0 0");
    }
    Ok(())
}

#[test]
fn a_short_buffer_stays_and_a_long_one_keeps_its_tail(rt: HostRuntime) -> Result<(), Fail> {
    let heap = rt.alloc();
    let sheet = sample(heap, 3)?;
    let mut short = [7u8; 1023];
    assert_eq!(rt;
        sheet.write(&mut short),
        Err(Refusal::BufferShort { length: 1024 })
    );
    assert_eq!(rt; short[0], 7);
    assert_eq!(rt; short[1022], 7);
    let mut buffer = [7u8; 1030];
    assert_eq!(rt; sheet.write(&mut buffer), Ok(1024));
    assert_eq!(rt; buffer[508], 56);
    assert_eq!(rt; buffer[1020], 86);
    assert_eq!(rt; buffer[1023], 0);
    assert_eq!(rt; buffer[1024], 7);
    assert_eq!(rt; buffer[1029], 7);
    Ok(())
}

#[test]
fn a_sheet_is_refused_as_its_file_would_be(rt: HostRuntime) -> Result<(), Fail> {
    let heap = rt.alloc();
    let goods = [entry(3, 12, 1); 9];
    for (inputs, limit, spent, count, made) in [
        (0, 3, 3, 1usize, false),
        (17, 3, 3, 1, false),
        (3, 3, 0, 0, false),
        (3, 99, 27, 9, false),
        (3, 99, 24, 8, true),
        (3, 3, 2, 1, false),
        (3, 2, 3, 1, false),
        (3, u32::MAX, 3, 1, true),
    ] {
        assert!(rt; count <= 9);
        let entries = Vec::from_slice(heap, &goods[0..count])?;
        assert_eq!(rt; Sheet::new(inputs, limit, spent, entries).is_ok(), made);
    }
    Ok(())
}

#[test]
fn a_sheet_with_a_bad_entry_is_refused(rt: HostRuntime) -> Result<(), Fail> {
    let heap = rt.alloc();
    let good = entry(3, 12, 1);
    for bad in [entry(0, 12, 1), entry(3, 16, 1), entry(3, 12, 5)] {
        assert!(rt; Sheet::new(3, 99, 6, Vec::from_slice(heap, &[good, bad])?).is_err());
    }
    Ok(())
}

// The refusal of a sheet of these values, or none.
fn refusal(
    heap: Global,
    limit: u32,
    spent: u32,
    entries: &[Entry],
) -> Result<Option<Refusal>, Fail> {
    Ok(Sheet::new(3, limit, spent, Vec::from_slice(heap, entries)?).err())
}

// A field by its block and first byte.
fn bad_field(block: u32, byte: u32) -> Option<Refusal> {
    Some(Refusal::BadField { block, byte })
}

// A rule that the fields break together.
fn bad_cause(cause: u32) -> Option<Refusal> {
    Some(Refusal::BadCause { cause })
}

#[test]
fn the_refusal_names_the_field_or_the_cause(rt: HostRuntime) -> Result<(), Fail> {
    let heap = rt.alloc();
    let good = entry(3, 12, 1);
    assert_eq!(rt; refusal(heap, 3, 0, &[])?, bad_field(0, 3));
    assert_eq!(rt; refusal(heap, 99, 27, &[good; 9])?, bad_field(0, 3));
    assert_eq!(rt; refusal(heap, 99, 24, &[good; 8])?, None);
    assert_eq!(rt;
        refusal(heap, 99, 6, &[good, entry(0, 12, 1)])?,
        bad_field(2, 2)
    );
    assert_eq!(rt;
        refusal(heap, 99, 6, &[good, entry(3, 16, 1)])?,
        bad_field(2, 4)
    );
    assert_eq!(rt;
        refusal(heap, 99, 6, &[good, entry(3, 12, 5)])?,
        bad_field(2, 8)
    );
    assert_eq!(rt; refusal(heap, 3, 2, &[good])?, bad_cause(2));
    assert_eq!(rt; refusal(heap, 2, 3, &[good])?, bad_cause(3));
    assert_eq!(rt; refusal(heap, u32::MAX, 3, &[good])?, None);
    Ok(())
}
