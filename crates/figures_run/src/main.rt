// The scope's figures that aren't marked [P], except those of the book. They are empty lists, lists
// of 4,096 nodes, of one node more and of one word more, and the largest sum of a sheet. For each
// the program prints what the calls answer.
#![tactic(auto)]

use answers::answer::name_of;
use answers::verdict::{Counted, Verdict};
use lists::list::check_list;
use nodes::node::{Node, node_count, put_node};
use pairs::page::next_page;
use sheets::sheet::write_sheet;
use std::fmt::{Display, Formatter};
use std::{fmt, str};
use tickets::ticket::{Order, Relation, fresh};

// A verdict as it is printed: the number and name of its answer, the list that it speaks of and the
// index there.
#[derive(Clone, Copy)]
struct Printed(Verdict);

impl Display for Printed {
    fn fmt<W: fmt::Write>(&self, f: &mut Formatter<W>) -> fmt::Result {
        let Verdict {
            answer,
            list,
            index,
        } = self.0;
        let name = name_of(answer);
        let name = str::from_utf8(&name).unwrap_or("");
        write!(f, "{answer} [{name}] list {list} index {index}")
    }
}

// Runs the five cases: empty lists, lists at the limit, one node past it and one word past it, and
// the largest sum of a sheet. Where standard output can't be written, the rest of the run goes on
// all the same.
fn main(rt: HostRuntime) {
    let mut most = [0u32; 16384];
    let mut one_node_more = [0u32; 16388];
    let mut one_word_more = [0u32; 16385];
    texts_case(&rt, "empty lists", &mut [0u32; 0]);
    texts_case(&rt, "4096 nodes", &mut most);
    texts_case(&rt, "4097 nodes", &mut one_node_more);
    texts_case(&rt, "16385 words", &mut one_word_more);
    sheet_case(&rt);
}

// Makes a list of `words`: as many texts of level `level`, one after the other from `start` on, as
// they have room for. Words that are left over stay as they were.
fn put_texts(words: &mut [u32], start: u32, level: u32) {
    let mut place = start;
    for index in 0..node_count(words) {
        let text = Node {
            document: 5,
            start: place,
            end: place,
            level,
        };
        put_node(words, index, text);
        place = place.wrapping_add(1);
    }
}

// Runs the case of a list of texts, as many as `words` have room for: alone, and joined with
// itself.
fn texts_case(rt: &impl Print, label: &str, words: &mut [u32]) {
    put_texts(words, 0, 1);
    let _ = println!(rt; "{label}: {}", Printed(check_list(words).into()));
    page_case(rt, label, words);
}

// Prints the page of the list `words` joined with itself, with room for one pair in the output.
fn page_case(rt: &impl Print, label: &str, words: &[u32]) {
    let mut out = [0u32; 8];
    let ticket = fresh(Relation::Inside, Order::Descendant);
    let page = next_page(words, words, ticket, &mut out);
    let verdict = Printed(page.verdict);
    let done = if page.done { "done" } else { "not done" };
    let _ = println!(rt; "{label}, joined: {verdict}, pairs {}, {done}", page.count);
}

// Prints the sheet of a zone with 4,096 samples, each with the most hundredths.
fn sheet_case(rt: &impl Print) {
    let zones = [5u32, 0, 5000, 1];
    let mut samples = [0u32; 16384];
    let hundredths = [10000u32; 4096];
    let mut out = [0u32; 3];
    put_texts(&mut samples, 1, 2);
    let sheet = Counted::from(write_sheet(&zones, &samples, &hundredths, &mut out));
    let verdict = Printed(sheet.verdict);
    let [count, present, sum] = out;
    let _ = print!(rt; "4096 samples of 10000: {verdict}, zones {}", sheet.count);
    let _ = println!(rt; ", samples {count}, present {present}, sum {sum}");
}
