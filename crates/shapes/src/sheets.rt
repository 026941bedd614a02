// The burn file of a small service, and its listing.
use crate::maker::expected;
use report::report_of;
use samples::small_cover;
use service::Service;

// The sum that closes a block: its last four bytes, the lowest first.
fn sum_of(block: &[u8; 512]) -> u32 {
    let [.., a, b, c, d] = *block;
    u32::from_le_bytes([a, b, c, d])
}

// Cover A at price 3 and limit 3, its only output taken.
pub(crate) fn list_small(rt: &HostRuntime) -> anyhow::Result<()> {
    let heap = rt.alloc();
    let mut service = expected(Service::open(heap, expected(small_cover(heap))?, 3, &[3]))?;
    println!(rt; "cover A at price 3 and limit 3:")?;
    println!(rt; "number 1: {}", service.take(1, 0))?;
    let mut file = [0u8; 1024];
    let length = expected(expected(service.sheet(heap))?.write(&mut file))?;
    let (blocks, _) = file.as_chunks::<512>();
    println!(rt;
        "burn file: {length} bytes, block sums {} and {}",
        sum_of(&blocks[0]),
        sum_of(&blocks[1])
    )?;
    rt.print(report_of(heap, &file)?)?;
    Ok(())
}
