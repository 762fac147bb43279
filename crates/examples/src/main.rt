//! Three runs of the command, one after another, with the scripts, table files and feeds of `data/`: a day of trading
//! (a join, totals by sector and the ten greatest trades), a risk report (each fill at the last known price, and a
//! published table) and the monitoring of two sites (a merge, groups, alarms and the last readings).
#![tactic(auto)]

use host_run::run_line;
use std::process::ExitCode;

const LINES: [&str; 3] = [
    "run day_of_trading/script day_of_trading/feed",
    "run risk_report/script risk_report/feed --callers 1",
    "run monitoring/script monitoring/feed",
];

fn main(rt: HostRuntime) -> ExitCode {
    for line in LINES {
        let status = run_line(&rt, line);
        if status != 0 {
            return ExitCode::from(status);
        }
    }
    ExitCode::SUCCESS
}
