// Input for the programs: standard input, and the files that their arguments name. The end of the input and a read that fails are
// told apart, so that half a case is never taken for a whole one; why a read or a write failed is said on standard error.
#![tactic(auto)]

ghost use Rattle.std.specs.Prelude.{◌≡◌, ◌<◌, length, IfOk, IfSome, MatchResult};
ghost use Rattle.std.specs.Result.{result_ok};
ghost use Rattle.std.specs.Io.KnownBytes.{IsAtEnd};
ghost use Rattle.io.specs.Counts.{IsPrefixLen};

use std::fs::File;
use std::io::{Cursor, Error, Read, Write};
use std::rt::{Env, Files};

// A read that failed: how many bytes came before it, at the buffer's start, and why.
#[derive(Drop)]
pub struct Failed {
    pub length: usize,
    pub error: Error,
}

// Reads until the buffer is full, the input ends or a read fails, and answers how many bytes came; a read that a signal
// interrupts has failed. Which bytes come from the system no contract can say, but that with room left the input has ended.
pub fn read_from<R: Read>(reader: &mut R, buffer: &mut [u8]) -> Result<usize, Failed>
    ensures prefix_len { MatchResult result (λ n. IsPrefixLen n buffer.new) (λ f. IsPrefixLen f.length buffer.new) }
    ensures end { IfOk result (λ n. n < length buffer.new → IsAtEnd (R.remaining reader.new)) }
{
    let mut length: usize = 0;
    // Kept: no plainer form; each read says how far the next one begins, and std's `read_exact` loses how many bytes came.
    while length < buffer.len() {
        let more = match reader.read(&mut buffer[length..]) {
            Ok(more) => more,
            Err(error) => return Err(Failed { length, error }),
        };
        if more == 0 {
            return Ok(length);
        }
        length += more;
    }
    Ok(length)
}

// The file that the program's argument of that number names, opened for reading; none where there is no such argument, its bytes
// are not UTF-8, which std's paths are, or the file cannot be opened.
fn open_argument<R: Env + Files>(rt: &R, number: usize) -> Option<R::File> {
    let mut name = io::buffer();
    let n = rt.arg(number, &mut name).ok()?;
    let text = std::str::from_utf8(&name[..n]).ok()?;
    File::open(rt, text).ok()
}

// What was read of a file: nothing where a read failed, for bytes before a failed read are no file.
fn whole(read: Result<usize, Failed>) -> Option<usize>
    ensures { result ≡ result_ok read }
{
    read.ok()
}

// Reads the file that the program's argument of that number names, until the buffer is full or the file ends, and answers how
// many bytes it has there; none where it cannot be opened or a read fails. With room left a file was read to its end.
pub fn read_argument<R: Env + Files>(rt: &R, number: usize, buffer: &mut [u8]) -> Option<usize>
    ensures prefix_len { IfSome result (λ n. IsPrefixLen n buffer.new) }
    ensures end { IfSome result (λ n. n < length buffer.new → (file : R.File) × IsAtEnd (R.File.remaining file)) }
{
    let mut file = open_argument(rt, number)?;
    whole(read_from(&mut file, buffer))
}

// Writes a line to standard error: what failed, a colon and the system's words for the error, without the number that std puts behind
// them. Nothing is handed back, and what a terminal takes no contract can say: the lines are compared in tests/test_failures.py.
pub fn say<R: Eprint>(rt: &R, what: &str, error: &Error) {
    let mut text = [0u8; 320];
    let mut said = Cursor::new(&mut text[..]);
    let _ = write!(said, "{error}");
    let n = said.position() as usize;
    let words = std::str::from_utf8(text.get(..n).unwrap_or(&[])).unwrap_or("");
    let reason = match words.split_once(" (os error ") {
        Some((reason, _)) => reason,
        None => words,
    };
    let _ = rt.eprintln(format_args!("{what}: {reason}"));
}
