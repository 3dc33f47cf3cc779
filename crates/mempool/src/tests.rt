use crate::pool::Mempool;
use crate::prompt::Prompt;
use crate::refusal::Refusal;
use crate::slow::Slow;
use std::test::Fail;
use swap::records::Waiting;

const LATE: Waiting = Waiting {
    number: 2,
    filer: 1,
    tick: 1,
};

const EARLY: Waiting = Waiting {
    number: 7,
    filer: 0,
    tick: 0,
};

#[test]
fn prompt_hands_out_the_oldest(rt: HostRuntime) -> Result<(), Fail> {
    let mut pool = Prompt::new(rt.alloc())?;
    assert_eq!(rt; pool.submit(LATE), Ok(()));
    assert_eq!(rt; pool.submit(EARLY), Ok(()));
    assert_eq!(rt; pool.submit(LATE), Err(Refusal::Duplicate));
    assert_eq!(rt; pool.take(1, 3), Some(EARLY));
    assert_eq!(rt; pool.take(1, 3), Some(LATE));
    assert_eq!(rt; pool.take(1, 3), None);
    Ok(())
}

#[test]
fn slow_waits_for_delta(rt: HostRuntime) -> Result<(), Fail> {
    let mut pool = Slow::new(rt.alloc())?;
    assert_eq!(rt; pool.submit(LATE), Ok(()));
    assert_eq!(rt; pool.submit(EARLY), Ok(()));
    assert_eq!(rt; pool.take(2, 3), None);
    assert_eq!(rt; pool.take(3, 3), Some(EARLY));
    assert_eq!(rt; pool.take(3, 3), None);
    assert_eq!(rt; pool.take(4, 3), Some(LATE));
    Ok(())
}
