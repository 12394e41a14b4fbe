// Reads a script of calls on the session table from standard input and writes the book's answers to standard output, both in
// the layout of crates/script/specs/Script.antt. It reads at most 65,536 bytes, which are 585 calls. Where a read or a write
// fails it says so on standard error, and nothing is answered of a script that was not read whole.
#![tactic(auto)]

fn main(rt: HostRuntime) {
    let mut input = io::large_buffer();
    let n = match stdio::read_from(&mut rt.stdin(), &mut input) {
        Ok(n) => n,
        Err(failed) => return stdio::say(&rt, "replay: standard input", &failed.error),
    };
    let mut out = io::large_buffer();
    // All answers fit: 585 of 70 bytes.
    let _ = script::replay(&input[..n], &mut out);
    let size = 70 * (n / 112);
    if let Err(error) = rt.write_all(&out[..size]) {
        stdio::say(&rt, "replay: standard output", &error);
    }
}
