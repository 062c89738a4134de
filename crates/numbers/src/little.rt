// A number in bytes, the lowest byte first, and a node of such numbers.
ghost use Rattle.std.specs.Prelude.{◌≡◌, ◌+◌, ◌*◌, ◌≤◌, length, get_or};
ghost use Rattle.numbers.specs.Little.{little, number_count, number_at, put_number, node_in};

use nodes::node::{NODE_WORDS, Node};

// How many bytes a number takes.
pub const NUMBER_BYTES: usize = 4;

// How many bytes a node takes.
pub const NODE_BYTES: usize = NUMBER_BYTES * NODE_WORDS;

// Returns the number of whole numbers in `bytes`.
fn number_count(bytes: &[u8]) -> usize
    ensures { result ≡ number_count bytes.now }
{
    bytes.len() / NUMBER_BYTES
}

// Returns the number that the four bytes from `at` on make.
fn number_from(bytes: &[u8], at: usize) -> u32
    requires { at + 4 ≤ length bytes.now }
    ensures { result ≡ little (get_or bytes.now at 0) (get_or bytes.now (at + 1) 0)
        (get_or bytes.now (at + 2) 0) (get_or bytes.now (at + 3) 0) }
{
    u32::from_le_bytes([bytes[at], bytes[at + 1], bytes[at + 2], bytes[at + 3]])
}

// Returns the number at `index` of the bytes, counted in numbers, or 0 where they have none there.
pub fn number_at(bytes: &[u8], index: usize) -> u32
    ensures { result ≡ number_at bytes.now index }
{
    if number_count(bytes) <= index {
        return 0;
    }
    number_from(bytes, NUMBER_BYTES * index)
}

// Writes `number` at `index` of the bytes, counted in numbers; where they have none there, no byte
// changes.
pub fn put_number(bytes: &mut [u8], index: usize, number: u32)
    ensures { bytes.new ≡ put_number bytes.old index number }
{
    if number_count(bytes) <= index {
        return;
    }
    let at = NUMBER_BYTES * index;
    bytes[at..at + NUMBER_BYTES].copy_from_slice(&number.to_le_bytes());
}

// Returns the node at `index` of a list that lies in bytes, or a node of zeros where the list has
// none there.
pub fn node_in(bytes: &[u8], index: usize) -> Node
    ensures { result ≡ node_in bytes.now index }
{
    if bytes.len() / NODE_BYTES <= index {
        return Node::default();
    }
    let at = NODE_BYTES * index;
    Node {
        document: number_from(bytes, at),
        start: number_from(bytes, at + NUMBER_BYTES),
        end: number_from(bytes, at + 2 * NUMBER_BYTES),
        level: number_from(bytes, at + 3 * NUMBER_BYTES),
    }
}
