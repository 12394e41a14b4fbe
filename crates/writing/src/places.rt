// Writing to a place of a lent buffer. Each function answers the place behind what it wrote, but for the extension block, which ends a
// message, and its list.
// Kept: a struct of the buffer and the place would have both in each clause all the same.
ghost use Rattle.std.specs.Prelude.{◌≡◌, true, [], ◌∷◌, ◌++◌, ◌+◌, ◌*◌, ◌-◌, ◌≤◌, ◌<◌, length};
ghost use Rattle.seqs.specs.Pick.{pick};
ghost use Rattle.hello.specs.Written.{two_bytes, written_list, written_block};
ghost use Rattle.hello.specs.Cuts.{width_of};
ghost use Rattle.writing.specs.Messages.{three_bytes, vector8, vector16};
ghost use Rattle.octets.specs.Placed.{placed};
ghost use Rattle.writing.specs.Steps.{block_size, vector_of};
ghost use Rattle.writing.specs.Lent.{lent, list_size};

use crate::lists::List;
use crate::opening::Opening;

// Kept: byte by byte, since `copy_from_slice` asks for memmove, and the archive promises C to ask for memcpy and memset alone.
fn put(out: &mut [u8], at: usize, bytes: &[u8]) -> usize
    requires { at + length bytes.now ≤ length out.old }
    ensures { (result ≡ at + length bytes.now) × (out.new ≡ placed out.old at bytes.now) }
{
    let end = at + bytes.len();
    for i in 0..bytes.len() {
        out[at + i] = bytes[i];
    }
    end
}

pub(crate) fn put_byte(out: &mut [u8], at: usize, byte: u8) -> usize
    requires { at + 1 ≤ length out.old }
    ensures { (result ≡ at + 1) × (out.new ≡ placed out.old at (byte ∷ [])) }
{
    out[at] = byte;
    at + 1
}

// A number in two bytes.
pub(crate) fn put_pair(out: &mut [u8], at: usize, number: usize) -> usize
    requires { (at + 2 ≤ length out.old) × (number < 65536) }
    ensures { (result ≡ at + 2) × (out.new ≡ placed out.old at (two_bytes number)) }
{
    out[at] = (number / 256) as u8;
    out[at + 1] = (number % 256) as u8;
    at + 2
}

// A vector of at most `high` bytes, of which each states its length in as many bytes as `high` takes, one or two.
pub(crate) fn put_vector(out: &mut [u8], at: usize, bytes: &[u8], high: usize) -> usize
    requires { (at + width_of high + length bytes.now ≤ length out.old) × (length bytes.now ≤ high) × (high < 65536) }
    ensures { (result ≡ at + width_of high + length bytes.now) × (out.new ≡ placed out.old at (vector_of high bytes.now)) }
{
    let from = if high < 256 {
        put_byte(out, at, bytes.len() as u8)
    } else {
        put_pair(out, at, bytes.len())
    };
    put(out, from, bytes)
}

// The header of a message of `size` bytes, version, random and identifier: how both hellos begin.
pub(crate) fn put_opening(out: &mut [u8], kind: u8, size: usize, opening: &Opening) -> usize
    requires { (7 + length opening.now.random.now + length opening.now.identifier.now ≤ length out.old) × (4 ≤ size) × (size ≤ 65536) × (length opening.now.identifier.now ≤ 32) }
    ensures { (result ≡ 7 + length opening.now.random.now + length opening.now.identifier.now) × (out.new ≡ placed out.old 0 ((kind ∷ three_bytes (size - 4)) ++ two_bytes opening.now.version ++ opening.now.random.now ++ vector8 opening.now.identifier.now)) }
{
    put_byte(out, 0, kind);
    put_byte(out, 1, 0);
    put_pair(out, 2, size - 4);
    put_pair(out, 4, opening.version as usize);
    let at = put(out, 6, opening.random);
    put_vector(out, at, opening.identifier, 32)
}

// An extension: its type, and its data behind their length.
fn put_extension(out: &mut [u8], at: usize, kind: u16, data: &[u8]) -> usize
    requires { (at + 4 + length «data».now ≤ length out.old) × (length «data».now < 65536) }
    ensures { (result ≡ at + 4 + length «data».now) × (out.new ≡ placed out.old at (two_bytes kind ++ vector16 «data».now)) }
{
    let length = put_pair(out, at, kind as usize);
    put_vector(out, length, data, 65535)
}

// The extensions, one after the other.
fn put_list(out: &mut [u8], at: usize, list: &List)
    requires { (at + list_size list.now ≤ length out.old) × (list_size list.now < 65536) }
    ensures { out.new ≡ placed out.old at (written_list (lent list.now)) }
{
    let mut to = at;
    for (kind, data) in *list {
        to = put_extension(out, to, kind, data);
    }
}

// The extension block, if there is one: a length that covers the list, and the list.
pub(crate) fn put_block(out: &mut [u8], at: usize, list: &List)
    requires { (at + block_size list.now.block (length list.now.types.now) (length list.now.«data».now) ≤ length out.old) × (block_size list.now.block (length list.now.types.now) (length list.now.«data».now) < 65536) }
    ensures { out.new ≡ placed out.old at (pick list.now.block (written_block (lent list.now)) []) }
{
    if list.block {
        let from = put_pair(out, at, 4 * list.types.len() + list.data.len());
        put_list(out, from, list);
    }
}
