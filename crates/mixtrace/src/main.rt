// Takes the published example state through the six rounds, and through one mixing by each form.
#![tactic(auto)]

use cbeam::both_forms::mixed_by_both;
use cbeam::example;
use cbeam::plain::rounds::rows_after;
use std::fmt::{Display, Radix};
use std::io;

// A name and the words after it, each by so many digits.
fn print_words<W: Copy + Radix>(
    rt: &impl Print,
    name: impl Display + Drop,
    digits: usize,
    words: &[W],
) -> io::Result<()> {
    print!(rt; "{name}")?;
    for word in words {
        print!(rt; " {word:0digits$X}")?;
    }
    println!(rt; "")
}

fn main(rt: HostRuntime) -> io::Result<()> {
    print_words(&rt, "start", 2, example::STATE)?;
    for round in 1..7 {
        if let Some(rows) = rows_after(example::STATE, round) {
            print_words(&rt, format_args!("round {round}"), 4, &rows)?;
        }
    }
    let mixed = mixed_by_both(example::STATE);
    print_words(&rt, "plain", 2, &mixed.plain)?;
    print_words(&rt, "planar", 2, &mixed.planar)?;
    let verdict = if mixed.plain == mixed.planar {
        "agree"
    } else {
        "differ"
    };
    println!(rt; "the two forms {verdict}")
}
