//! Both share rules on worked figures and on both sides of each limit.
use ledger::{LargestRemainderRule, RunningRule, ShareFault, ShareRule};
use std::process::Abort;
use std::test::Fail;

/// That a rule gives just these shares.
fn gives<const N: usize, R: ShareRule>(
    rt: &impl Abort,
    rule: &R,
    total: i64,
    weights: [u64; N],
    shares: [i64; N],
) {
    let mut out = [7; N];
    assert!(rt; rule.share(total, &weights, &mut out).is_ok());
    assert_eq!(rt; out, shares);
}

/// What a rule answers. Refused, all places hold 7 still.
fn answer<R: ShareRule>(
    rt: &impl Abort,
    rule: &R,
    total: i64,
    weights: &[u64],
    out: &mut [i64],
) -> Result<(), u8> {
    out.fill(7);
    let answer = rule.share(total, weights, out);
    assert!(rt; answer.is_ok() || out.iter().all(|x| *x == 7));
    answer.map_err(ShareFault::number)
}

#[test]
fn worked_figures(rt: HostRuntime) {
    gives(&rt, &RunningRule, 10, [1, 1, 1], [3, 3, 4]);
    gives(&rt, &LargestRemainderRule, 10, [1, 1, 1], [4, 3, 3]);
    gives(&rt, &RunningRule, -10, [120, 990], [-1, -9]);
    gives(&rt, &LargestRemainderRule, -10, [120, 990], [-1, -9]);
    // the odd units go where the parts pass them, or to the largest remainders, and not always to the last row
    gives(&rt, &RunningRule, 5, [2, 2, 2, 1], [1, 1, 2, 1]);
    gives(&rt, &LargestRemainderRule, 5, [2, 2, 2, 1], [2, 1, 1, 1]);
    gives(
        &rt,
        &LargestRemainderRule,
        -7,
        [1, 3, 0, 3],
        [-1, -3, 0, -3],
    );
}

#[test]
fn nothing_shared(rt: HostRuntime) {
    gives(&rt, &RunningRule, 0, [0, 0], [0, 0]);
    gives(&rt, &LargestRemainderRule, 0, [0, 0], [0, 0]);
    gives(&rt, &RunningRule, 0, [3, 4], [0, 0]);
    assert_eq!(rt; answer(&rt, &RunningRule, 1, &[0, 0], &mut [0; 2]), Err(20));
    assert_eq!(rt;
        answer(&rt, &LargestRemainderRule, -1, &[0, 0], &mut [0; 2]),
        Err(20)
    );
}

/// The answers at each limit, and one past it.
fn limits<R: ShareRule>(rule: &R, rt: &(impl Abort + AllocGlobal)) -> Result<(), Fail> {
    assert_eq!(rt; answer(rt, rule, 50_000_000, &[1], &mut [0; 1]), Ok(()));
    assert_eq!(rt; answer(rt, rule, 50_000_001, &[1], &mut [0; 1]), Err(6));
    assert_eq!(rt; answer(rt, rule, -50_000_000, &[1], &mut [0; 1]), Ok(()));
    assert_eq!(rt; answer(rt, rule, -50_000_001, &[1], &mut [0; 1]), Err(6));
    assert_eq!(rt; answer(rt, rule, i64::MIN, &[0], &mut [0; 1]), Err(6));
    assert_eq!(rt;
        answer(rt, rule, 1, &[87_839_999_999, 1], &mut [0; 2]),
        Ok(())
    );
    assert_eq!(rt;
        answer(rt, rule, 1, &[87_840_000_000, 1], &mut [0; 2]),
        Err(6)
    );
    assert_eq!(rt;
        answer(rt, rule, 1, &[u64::MAX, u64::MAX], &mut [0; 2]),
        Err(6)
    );
    assert_eq!(rt; answer(rt, rule, 0, &[], &mut []), Err(6));
    assert_eq!(rt; answer(rt, rule, 1, &[1, 1], &mut [0; 1]), Err(6));
    assert_eq!(rt; answer(rt, rule, 1, &[1, 1], &mut [0; 3]), Err(6));
    let weights = vec![in rt.alloc(); 1; 401]?;
    let mut out = vec![in rt.alloc(); 0; 401]?;
    assert!(rt; weights.len() == 401 && out.len() == 401);
    assert_eq!(rt;
        answer(rt, rule, 1, &weights[0..400], &mut out[0..400]),
        Ok(())
    );
    assert_eq!(rt; answer(rt, rule, 1, &weights, &mut out), Err(6));
    Ok(())
}

#[test]
fn running_limits(rt: HostRuntime) -> Result<(), Fail> {
    limits(&RunningRule, &rt)
}

#[test]
fn largest_remainder_limits(rt: HostRuntime) -> Result<(), Fail> {
    limits(&LargestRemainderRule, &rt)
}
