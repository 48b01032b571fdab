// judge: reads the words of one sentence from standard input, numbers parted by spaces or line ends, and prints whether it holds.
#![tactic(auto)]

use std::io::Read;
use word_text::answer::{Line, verdict_of_text};

fn main(rt: HostRuntime) -> anyhow::Result<()> {
    let mut text = Vec::new(rt.alloc());
    rt.stdin().read_to_end(&mut text)?;
    let line = Line(verdict_of_text(rt.alloc(), &text)?);
    // its text, since a Display may fail and its law speaks only of what is written without an error
    rt.println(line.text())?;
    Ok(())
}
