// Reading the bytes of an input into a buffer, for the programs.
#![tactic(auto)]

ghost use Rattle.input.specs.Prefix.{IsPrefixLen};

use std::io::Read;

// Reads until the buffer is full, the input ends or a read fails, and gives how many bytes it has put at the buffer's start.
pub fn read_full(input: &mut impl Read, buf: &mut [u8]) -> usize
    ensures { IsPrefixLen result buf.new }
{
    let mut done = 0;
    // No `for`: a turn moves on by as many bytes as the read gave.
    while done < buf.len() {
        let Ok(n) = input.read(&mut buf[done..]) else {
            break;
        };
        if n == 0 {
            break;
        }
        done += n;
    }
    done
}
