// Standard input, as far as a burn file can reach.
ghost use Rattle.std.specs.Prelude.{◌≤◌, IfOk, vec_len};

use std::io;
use std::io::Read;

// The length of the longest burn file: nine blocks.
const LONGEST: usize = 9 * 512;

// All of standard input, or more than the longest burn file of it: what is longer is refused whatever it holds.
pub fn read_file(rt: &HostRuntime) -> io::Result<Vec<u8>>
    ensures { IfOk result (λ v. vec_len v ≤ 5120) }
{
    let mut source = rt.stdin();
    let mut file = Vec::new(rt.alloc());
    let mut buffer = [0u8; 512];
    // a loop: `read_to_end` says nothing of the length, since what standard input still holds is not known
    while file.len() <= LONGEST {
        let count = source.read(&mut buffer)?;
        if count == 0 {
            break;
        }
        file.extend_from_slice(&buffer[0..count])?;
    }
    Ok(file)
}
