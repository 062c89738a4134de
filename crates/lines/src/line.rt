// Puts each kind of line into a text.
ghost use Rattle.std.specs.Prelude.{◌≡◌, ◌+◌, ◌≤◌, length};
ghost use Rattle.answers.specs.Output.{written};
ghost use Rattle.lines.specs.Line.{LINE_BYTES, pair_line, pair_with, lines_for, total_line, refusal_line};
ghost use Rattle.lines.specs.Private.Puts.{Puts};

use crate::text::Writer;
use answers::answer::name_of;
use nodes::node::{Node, node_at, node_count};

// The most bytes of a pair's line.
pub const LINE_BYTES: usize = 33;

// The bytes of a buffer for one of the two other lines.
pub const NOTE_BYTES: usize = 32;

// Puts the line of a pair.
#[tactic(auto, using(crate::proofs::Fields::field_laws))]
fn put_line(writer: &mut Writer, ancestor: Node, descendant: Node)
    requires { writer.old.at + LINE_BYTES ≤ length writer.old.text.now }
    ensures { Puts writer.old (pair_line (pair_with ancestor descendant)) writer.new }
{
    writer.put_field(ancestor.document as u64, b' ');
    writer.put_field(ancestor.start as u64, b' ');
    writer.put_field(descendant.start as u64, b'\n');
}

// Puts the lines of the pairs at the beginning of `text` and returns how many bytes they have. It
// puts as many as there is room for, however long they are. A pair is eight words, the ancestor's
// and then the descendant's.
pub fn put_lines(pairs: &[u32], text: &mut [u8]) -> usize
    ensures { record {
      length : result ≡ length (lines_for pairs.now text.old);
      text : text.new ≡ written (lines_for pairs.now text.old) text.old;
    } }
{
    let room = text.len() / LINE_BYTES;
    let count = room.min(node_count(pairs) / 2);
    let mut writer = Writer { text, at: 0 };
    // Rests on PairLines: lines_more, lines_least.
    for index in 0..count {
        put_line(
            &mut writer,
            node_at(pairs, 2 * index),
            node_at(pairs, 2 * index + 1),
        );
    }
    writer.at
}

// Puts the line that says how many pairs there are at the beginning of `text`, and returns how many
// bytes it has.
#[tactic(auto, using(crate::proofs::Fields::field_laws))]
pub fn put_total(count: u64, text: &mut [u8; NOTE_BYTES]) -> usize
    ensures { record {
      length : result ≡ length (total_line count);
      text : text.new ≡ written (total_line count) text.old;
    } }
{
    let mut writer = Writer { text, at: 0 };
    writer.put_bytes(b"pairs ");
    writer.put_field(count, b'\n');
    writer.at
}

// Puts the line that says why nothing is listed at the beginning of `text`, and returns how many
// bytes it has. It gives the answer's number and its name, which `answers` keeps in a table.
#[tactic(auto, using(crate::proofs::Fields::field_laws))]
pub fn put_refusal(answer: u32, text: &mut [u8; NOTE_BYTES]) -> usize
    ensures { record {
      length : result ≡ length (refusal_line answer);
      text : text.new ≡ written (refusal_line answer) text.old;
    } }
{
    let mut writer = Writer { text, at: 0 };
    writer.put_bytes(b"refused ");
    writer.put_field(answer as u64, b' ');
    let name = name_of(answer);
    writer.put_unfilled(&name);
    writer.put_byte(b'\n');
    writer.at
}
