//! Runs whose gate holds nodes and a caller until others have come or gone: nodes are worked at once, a node waits for its own inputs alone, and a snapshot is taken while a node is at work.

use super::long::rows_file;
use super::{Failing, call};
use std::sync::atomic::{AtomicU64, Ordering};
use std::test::Fail;
use tick_io::Gate;

/// The caller, as a gate sees it.
const CALLER: u32 = 256;

/// What is waited for is waited for at most so many turns.
const TURNS: u32 = 100_000_000;

/// The bit of the leave of the caller. The bit of the arrival of a node is that of its number.
const CALLER_LEFT: u64 = 1 << 16;

/// Who is held, and the bits of what is waited for.
type Hold = (u32, u64);

/// One run with its holds. Its script may open `t.csv`, a thousand rows, each of its number.
struct Meeting {
    words: &'static str,
    script: &'static str,
    feed: &'static str,
    text: &'static str,
    /// The step in which nodes are held.
    step: u64,
    holds: [Hold; 3],
    /// How many are held.
    count: u64,
}

/// Nobody has this number.
const NOBODY: Hold = (1000, 0);

const MEETINGS: [Meeting; 6] = [
    // Two workers work two nodes at once.
    Meeting {
        words: "run s f --workers 2",
        script: "table t x:long\np = where t x > 0\nq = where t x > 1\n",
        feed: "t,t\na,0,5\n.\n",
        text: "done,1\n",
        step: 1,
        holds: [(1, 0b110), (2, 0b110), NOBODY],
        count: 2,
    },
    // Three workers work three nodes at once.
    Meeting {
        words: "run s f --workers 3",
        script: "table t x:long\np = where t x > 0\nq = where t x > 1\nr = where t x > 2\n",
        feed: "t,t\na,0,5\n.\n",
        text: "done,1\n",
        step: 1,
        holds: [(1, 0b1110), (2, 0b1110), (3, 0b1110)],
        count: 3,
    },
    // They do so too in a second step that is not light, since 300 rows go in it, behind a first one that is.
    Meeting {
        words: "run s f --workers 3",
        script: "table t x:long from \"t.csv\"\np = where t x > 0\nq = where t x > 1\nr = where t x > 2\n",
        feed: "t,t\na,1000,5\n.\nt,t\nr,0,299\n.\n",
        text: "done,2\n",
        step: 2,
        holds: [(1, 0b1110), (2, 0b1110), (3, 0b1110)],
        count: 3,
    },
    // The node `q` is held until `r` has come, which waits for `p` alone.
    Meeting {
        words: "run s f --workers 2",
        script: "table t x:long\np = where t x > 0\nq = where t x > 1\nr = where p x > 2\n",
        feed: "t,t\na,0,5\n.\n",
        text: "done,1\n",
        step: 1,
        holds: [(2, 0b1000), NOBODY, NOBODY],
        count: 1,
    },
    // The first worker is held in `q` until the two nodes have come that `p` makes ready at another, which needs a third.
    Meeting {
        words: "run s f --workers 3",
        script: "table t x:long\np = where t x > 0\nq = where t x > 1\nr = where p x > 2\ns = where p x > 3\n",
        feed: "t,t\na,0,5\n.\n",
        text: "done,1\n",
        step: 1,
        holds: [(2, 0b11000), (3, 0b11000), (4, 0b11000)],
        count: 3,
    },
    // The caller is held until a node of step 1 has come, and the node until the caller has its snapshot: that of step 0.
    Meeting {
        words: "run s f --callers 1 --snaps 1",
        script: "table t x:long\nb = where t x > 0\npublish t 10\n",
        feed: "t,t\na,1,2\n.\n",
        text: "snap,0,0,0,t\nsnap,0,1,1,t\nw,1,2\ndone,1\n",
        step: 1,
        holds: [(CALLER, 0b10), (1, CALLER_LEFT), NOBODY],
        count: 2,
    },
];

/// Holds who is to be held until all that it waits for is seen.
#[derive(Drop)]
struct HoldingGate {
    step: u64,
    holds: [Hold; 3],
    /// How often each node has come: four bits a node.
    entries: AtomicU64,
    seen: AtomicU64,
    met: AtomicU64,
}

impl HoldingGate {
    /// Whether a node that comes does so in the step in which nodes are held. The caller always does.
    fn is_in_step(&self, node: u32) -> bool {
        if node >= 16 {
            return true;
        }
        let place = node * 4;
        let entries = self.entries.fetch_add(1 << place, Ordering::SeqCst);
        (entries >> place) % 16 + 1 == self.step
    }

    /// Waits until all of these bits are seen, but not without end.
    fn wait(&self, bits: u64) {
        for _ in 0..TURNS {
            if self.seen.load(Ordering::SeqCst) & bits == bits {
                self.met.fetch_add(1, Ordering::SeqCst);
                return;
            }
        }
    }
}

impl Gate for HoldingGate {
    fn enter(&self, node: u32) {
        if !self.is_in_step(node) {
            return;
        }
        if node < 16 {
            self.seen.fetch_or(1 << node, Ordering::SeqCst);
        }
        for (held, bits) in self.holds {
            if held == node {
                self.wait(bits);
            }
        }
    }

    fn leave(&self, node: u32) {
        if node == CALLER {
            self.seen.fetch_or(CALLER_LEFT, Ordering::SeqCst);
        }
    }
}

#[test]
fn nodes_and_callers_meet(rt: HostRuntime) -> Result<(), Fail> {
    let rows = rows_file(rt.alloc())?;
    for meeting in &MEETINGS {
        let gate = HoldingGate {
            step: meeting.step,
            holds: meeting.holds,
            entries: AtomicU64::new(0),
            seen: AtomicU64::new(0),
            met: AtomicU64::new(0),
        };
        let script = String::from_str(rt.alloc(), meeting.script)?;
        let feed = String::from_str(rt.alloc(), meeting.feed)?;
        let texts = [
            ("s", Some(script.as_str())),
            ("f", Some(feed.as_str())),
            ("t.csv", Some(rows.as_str())),
        ];
        let (status, out) = call(&rt, rt.alloc(), meeting.words, &texts, Failing::NONE, &gate)?;
        let text = meeting.text;
        assert_eq!(rt; status, 0, "{text}");
        assert_eq!(rt; out.bytes(), text.as_bytes());
        assert_eq!(rt; gate.met.load(Ordering::SeqCst), meeting.count, "{text}");
    }
    Ok(())
}
