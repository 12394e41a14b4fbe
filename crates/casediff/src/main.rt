// Compares two cases, from the files that its two arguments name, and writes a line for each difference, and nothing where they
// are equal. A file that cannot be read is no bytes, which are bad contents. Where the write fails it says so on standard error:
// nothing means equal, so a lost answer must not be silent.
#![tactic(auto)]

fn main(rt: HostRuntime) {
    // A case of more than 32,768 bytes is bad, however it goes on: no more is read of either file.
    let mut first = [0u8; 32769];
    let mut second = [0u8; 32769];
    let n = stdio::read_argument(&rt, 1, &mut first).unwrap_or(0);
    let m = stdio::read_argument(&rt, 2, &mut second).unwrap_or(0);
    let mut text = [0u8; 358280];
    let length = comparing::compare(&first[..n], &second[..m], &mut text).unwrap_or(0);
    if let Err(error) = rt.write_all(&text[..length]) {
        stdio::say(&rt, "casediff: standard output", &error);
    }
}
