//! Made runs, summed up.

/// The words of a demonstration and what it prints, whatever the workers and the callers.
pub(super) const SUMMARIES: [(&str, &str); 4] = [
    (
        "demo 0",
        "demo,0,0\nsize,trades,0\nsize,ref,8\nsize,big,0\nsize,val,0\nsize,j,0\nsize,bysec,0\nsize,srt,0\nsize,top10,0\nsize,both,0\ndone,0\n",
    ),
    ("demo 10", TEN_STEPS),
    ("demo 10 --workers 4", TEN_STEPS),
    ("demo --callers 2 --snaps 5 10", TEN_STEPS),
];

const TEN_STEPS: &str =
    "demo,10,99\nsize,trades,180\nsize,ref,8\nsize,big,99\nsize,val,99\nsize,j,99\nsize,bysec,2\nsize,srt,99\nsize,top10,10\nsize,both,279\ndone,10\n";
