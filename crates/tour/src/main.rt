// A tour of the books and the mempools: what each accepts, what it refuses, and what comes of it.
#![tactic(auto)]

mod books;
mod mempools;

use books::show_books;
use mempools::show_mempools;

fn main(rt: HostRuntime) -> anyhow::Result<()> {
    show_books(&rt)?;
    show_mempools(&rt)
}
