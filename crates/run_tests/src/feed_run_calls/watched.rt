//! Watched runs.

/// The watched table.
pub(super) const SORTED: &str = "table t qty:long\ns = sort t -qty\nprint s\n";

const TWO_STEPS: &str = "t,t\na,0,5\na,1,20\n.\nt,t\na,2,10\n.\n";

const FAILING: &str = "t,t\na,0,5\na,1,20\n.\nt,t\na,0,10\n.\n";

/// The words, the feed, the status and what is written.
pub(super) const WATCHED: [(&str, &str, u8, &str); 6] = [
    (
        "watch s f s 0 2",
        TWO_STEPS,
        0,
        "step,1,s\na,0,20\na,1,5\nstep,2,s\nr,1,1\na,1,10\ndone,2\n",
    ),
    (
        "watch s f s 0 2 --every 2",
        TWO_STEPS,
        0,
        "step,2,s\na,0,20\na,1,10\ndone,2\n",
    ),
    ("watch s f z 0 2", TWO_STEPS, 12, "fault,12,watch,z\n"),
    (
        "watch s f s 1 1 --workers 2",
        TWO_STEPS,
        0,
        "step,1,s\na,1,5\nstep,2,s\nr,1,1\na,1,10\ndone,2\n",
    ),
    (
        "watch s f s 0 1 --every 3",
        FAILING,
        7,
        "step,1,s\na,0,20\nfault,7,step,2,6,added-taken,0\n",
    ),
    ("watch s f s 0 0", TWO_STEPS, 2, "fault,2,usage\n"),
];
