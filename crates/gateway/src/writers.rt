// Writing a hello (document 02, order 1), and going through the extensions of one that was read.
ghost use Rattle.std.specs.Prelude.{◌≡◌};
ghost use Rattle.seqs.specs.Flag.{yes};
ghost use Rattle.hello.specs.Next.{next_at};
ghost use Rattle.writing.specs.Promise.{WritesClient, WritesServer};

use hello::Next;
use writing::Written;

#[unsafe(no_mangle)]
pub extern "C" fn axle_next_extension(message: &[u8], at: usize) -> Next
    ensures { result ≡ next_at message.now at }
{
    hello::next_extension(message, at)
}

#[unsafe(no_mangle)]
pub extern "C" fn axle_write_client_hello(
    version: u16,
    random: &[u8],
    identifier: &[u8],
    suites: &[u8],
    methods: &[u8],
    block: u8,
    types: &[u16],
    lengths: &[u16],
    data: &[u8],
    out: &mut [u8],
) -> Written
    ensures { WritesClient version random.now identifier.now suites.now methods.now (yes block) types.now lengths.now «data».now out.old out.new result }
{
    writing::write_client_hello(
        version,
        random,
        identifier,
        suites,
        methods,
        block != 0,
        types,
        lengths,
        data,
        out,
    )
}

#[unsafe(no_mangle)]
pub extern "C" fn axle_write_server_hello(
    version: u16,
    random: &[u8],
    identifier: &[u8],
    suite: u16,
    compression: u8,
    block: u8,
    types: &[u16],
    lengths: &[u16],
    data: &[u8],
    out: &mut [u8],
) -> Written
    ensures { WritesServer version random.now identifier.now suite compression (yes block) types.now lengths.now «data».now out.old out.new result }
{
    writing::write_server_hello(
        version,
        random,
        identifier,
        suite,
        compression,
        block != 0,
        types,
        lengths,
        data,
        out,
    )
}
