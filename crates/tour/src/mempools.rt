// Shows what the shipped mempools accept, refuse and hand out.
ghost use Rattle.std.specs.Prelude.{◌≡◌, [], OnOk};

use mempool::delivery::drain;
use mempool::pool::Mempool;
use mempool::prompt::Prompt;
use mempool::slow::Slow;
use std::io;
use swap::limits::MAX_LINES;
use swap::records::Waiting;

const DELTA: u32 = 2;

fn filed(number: u32, filer: u8, tick: u32) -> Waiting {
    Waiting {
        number,
        filer,
        tick,
    }
}

fn offer<M: Mempool>(rt: &HostRuntime, pool: &mut M, w: Waiting) -> io::Result<()> {
    match pool.submit(w) {
        Ok(()) => println!(rt; "{w}: accepted"),
        Err(refusal) => println!(rt; "{w}: refused, {refusal}"),
    }
}

fn deliver<M: Mempool>(rt: &HostRuntime, pool: &mut M, tick: u32) -> anyhow::Result<()> {
    let taken = drain(rt.alloc(), pool, tick, DELTA)?;
    if taken.is_empty() {
        println!(rt; "tick {tick}: nothing")?;
    }
    for w in taken.iter() {
        println!(rt; "tick {tick}: {w}")?;
    }
    Ok(())
}

// As many as may wait, and then one more, twice.
fn fill<M: Mempool>(rt: &HostRuntime, pool: &mut M) -> io::Result<()> {
    let accepted = (0..MAX_LINES as u32)
        .filter(|&number| pool.submit(filed(number, 3, 6)).is_ok())
        .count();
    println!(rt; "{accepted} more: accepted")?;
    for number in [1000, 0] {
        offer(rt, pool, filed(number, 3, 6))?;
    }
    Ok(())
}

// Some transactions, what is handed out at each tick, and then as many as may wait. In the end none waits.
fn rehearse<M: Mempool>(rt: &HostRuntime, pool: &mut M) -> anyhow::Result<()>
    ensures { OnOk result (M.Mempool.waiting pool.new ≡ []) }
{
    let some = [
        filed(4, 0, 1),
        filed(2, 1, 1),
        filed(9, 2, 0),
        filed(6, 0, 2),
        filed(2, 2, 2),
    ];
    for w in some {
        offer(rt, pool, w)?;
    }
    for tick in 2..6 {
        deliver(rt, pool, tick)?;
    }
    fill(rt, pool)?;
    pool.clear();
    println!(rt; "cleared")?;
    Ok(())
}

pub(crate) fn show_mempools(rt: &HostRuntime) -> anyhow::Result<()> {
    println!(rt; "a prompt mempool, delta {DELTA}")?;
    rehearse(rt, &mut Prompt::new(rt.alloc())?)?;
    println!(rt; "a slow mempool, delta {DELTA}")?;
    rehearse(rt, &mut Slow::new(rt.alloc())?)
}
