// Images read: standard input has one after the other, each behind its length in two bytes; a line for each, 0 or 16. What is cut off at
// the end of the input counts as it stands.
#![tactic(auto)]

use base_lines::input::read_full;
use replay::images;
use std::io;

fn main(rt: HostRuntime) -> io::Result<()> {
    let mut input = rt.reader();
    let mut size = [0u8; 2];
    let mut image = [0u8; 65535];
    for _ in 0..u64::MAX {
        if read_full(&mut input, &mut size)? < 2 {
            break;
        }
        let length = usize::from(u16::from_le_bytes(size));
        let n = read_full(&mut input, &mut image[..length])?;
        let number = images::read(&image[..n]).number;
        println!(rt; "{number}")?;
    }
    Ok(())
}
