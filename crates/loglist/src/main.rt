// Reads a case from standard input, and writes what the message log and the server's decision answer to its messages. Where a
// read or a write fails it says so on standard error, and nothing is said of a case that was not read whole.
#![tactic(auto)]

fn main(rt: HostRuntime) {
    // A case of more than 32,768 bytes is bad, however it goes on: what does not fit here is not missed.
    let mut input = io::large_buffer();
    let n = match stdio::read_from(&mut rt.stdin(), &mut input) {
        Ok(n) => n,
        Err(failed) => return stdio::say(&rt, "loglist: standard input", &failed.error),
    };
    let text = listing::list(&input[..n]);
    if let Err(error) = rt.write_all(text.as_slice()) {
        stdio::say(&rt, "loglist: standard output", &error);
    }
}
