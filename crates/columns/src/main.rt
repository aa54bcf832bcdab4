//! columns: shares a measured quantity and unidentified gas among users by both share rules, adds the users' columns up
//! again, and says whether each column equals what was shared.
#![tactic(auto)]

use ledger::{LargestRemainderRule, RunningRule, ShareRule};
use quantities::share_and_add;
use std::io;

/// Prints the shares, with commas between them.
fn print_column(rt: &HostRuntime, column: &[i64]) -> io::Result<()> {
    let Some((first, rest)) = column.split_first() else {
        return Ok(());
    };
    print!(rt; "{first}")?;
    for share in rest {
        print!(rt; ",{share}")?;
    }
    Ok(())
}

/// Shares a quantity by a rule, and prints the users' column beside it.
fn print_shared<R: ShareRule>(
    rt: &HostRuntime,
    rule: &R,
    quantity: i64,
    weights: &[u64],
    column: &mut [i64],
) -> io::Result<()> {
    match share_and_add(rule, quantity, weights, column) {
        Ok(sum) => {
            print!(rt; "  quantity={quantity} shares=")?;
            print_column(rt, column)?;
            let columns = if sum == quantity {
                "equal"
            } else {
                "different"
            };
            println!(rt; " sum={sum} columns={columns}")
        }
        Err(fault) => {
            let number = fault.number();
            println!(rt; "  quantity={quantity} refused={number}")
        }
    }
}

/// Both quantities by one rule.
fn print_rule<R: ShareRule>(rt: &HostRuntime, name: &str, rule: &R) -> io::Result<()> {
    println!(rt; "{name}:")?;
    print_shared(rt, rule, 10, &[1, 1, 1], &mut [0; 3])?;
    print_shared(rt, rule, -10, &[120, 990], &mut [0; 2])
}

fn main(rt: HostRuntime) -> io::Result<()> {
    println!(rt;
        "10 kWh measured, shared among three equal users, and -10 kWh unidentified, shared by 120 and 990"
    )?;
    print_rule(&rt, "running rule", &RunningRule)?;
    print_rule(&rt, "largest-remainder rule", &LargestRemainderRule)
}
