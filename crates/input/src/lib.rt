// What the programs read, into a lent buffer: standard input, or a file of the working directory.
#![tactic(auto)]

ghost use Rattle.std.specs.Prelude.{◌≤◌, IfOk, IfSome, length};

use std::fs::Files;
use std::io::{ErrorKind, Read};
use std::{fs, io};

// Reads until the buffer is full or the input ends, and answers how many bytes were read. How far each read comes the system decides, so the
// loop is no `for`.
pub fn read<R: Read>(reader: &mut R, buf: &mut [u8]) -> io::Result<usize>
    ensures { IfOk result (λ n. n ≤ length buf.new) }
{
    let mut done: usize = 0;
    while done < buf.len() {
        let more = reader.read(&mut buf[done..])?;
        if more == 0 {
            break;
        }
        done += more;
    }
    Ok(done)
}

// Reads a file likewise; `None` where there is no such file.
pub fn read_file<R: Files>(rt: &R, path: &str, buf: &mut [u8]) -> io::Result<Option<usize>>
    ensures { IfOk result (λ held. IfSome held (λ n. n ≤ length buf.new)) }
{
    let mut file = match fs::open(rt, path) {
        Ok(file) => file,
        Err(error) if error.kind() == ErrorKind::NotFound => return Ok(None),
        Err(error) => return Err(error),
    };
    let n = read(&mut file, buf)?;
    Ok(Some(n))
}
