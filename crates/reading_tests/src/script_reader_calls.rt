//! Scripts with their plans or refusals.

use script_lines::fault::ScriptKind;
use script_reader::fault::ScriptFault;
use script_reader::reader::read_script;
use std::test::Fail;
use tick_model::items::Items;

/// A script that is refused, with the line and the kind.
struct Refused {
    text: &'static str,
    line: u64,
    kind: ScriptKind,
}

/// A script that is accepted, and how many nodes, literals, printed and published tables it has.
struct Accepted {
    text: &'static str,
    nodes: usize,
    literals: usize,
    printed: usize,
    published: usize,
}

const REFUSED: [Refused; 18] = [
    Refused {
        text: "table t x:long\nb = where t x >",
        line: 2,
        kind: ScriptKind::BadLine,
    },
    Refused {
        text: "print t",
        line: 1,
        kind: ScriptKind::UnknownName,
    },
    Refused {
        text: "table t x:long\nb = where t y > 1",
        line: 2,
        kind: ScriptKind::UnknownColumn,
    },
    Refused {
        text: "table t x:long\n\n# remark\n\tt = where t x > 1",
        line: 4,
        kind: ScriptKind::TakenName,
    },
    Refused {
        text: "table t x:long\nprint t\nprint t",
        line: 3,
        kind: ScriptKind::TakenName,
    },
    Refused {
        text: "table t x:long x:long",
        line: 1,
        kind: ScriptKind::TakenColumn,
    },
    Refused {
        text: "table t x:text\nb = where t x > 1",
        line: 2,
        kind: ScriptKind::WrongKind,
    },
    Refused {
        text: "table t x:long\ntable u y:text\nj = join t u on x = y take y",
        line: 3,
        kind: ScriptKind::WrongKind,
    },
    Refused {
        text: "table t x:long\ntable u y:long\nm = merge t u",
        line: 3,
        kind: ScriptKind::WrongKind,
    },
    Refused {
        text: "table t x:text\ng = agg t do s = sum x",
        line: 2,
        kind: ScriptKind::WrongKind,
    },
    Refused {
        text: "table t x:long\nh = head 4194305 t",
        line: 2,
        kind: ScriptKind::NumberRange,
    },
    Refused {
        text: "table t x:long\nb = where t x > 9223372036854775808",
        line: 2,
        kind: ScriptKind::NumberRange,
    },
    Refused {
        text: "table t x:long\nh = head 9223372036854775808 ?",
        line: 2,
        kind: ScriptKind::NumberRange,
    },
    Refused {
        text: "table t x:long\nh = head ? 9223372036854775808",
        line: 2,
        kind: ScriptKind::BadLine,
    },
    Refused {
        text: "print a23456789012345678901234567890123",
        line: 1,
        kind: ScriptKind::BadLine,
    },
    Refused {
        text: "print \u{e9}",
        line: 1,
        kind: ScriptKind::BadLine,
    },
    Refused {
        text: "table t x:long\npublish t 0",
        line: 2,
        kind: ScriptKind::NumberRange,
    },
    Refused {
        text: "table t x:long\npublish t 262144",
        line: 2,
        kind: ScriptKind::TooWide,
    },
];

const ACCEPTED: [Accepted; 6] = [
    Accepted {
        text: "",
        nodes: 0,
        literals: 0,
        printed: 0,
        published: 0,
    },
    Accepted {
        text: "table t sym:text\r\nb = where t sym = \"B\" or sym = \"B\" and not [sym != \"C\"]\r\nprint b",
        nodes: 2,
        literals: 2,
        printed: 1,
        published: 0,
    },
    Accepted {
        text: "table t x:long\npublish t 262143",
        nodes: 1,
        literals: 0,
        printed: 0,
        published: 1,
    },
    Accepted {
        text: "table asof at:long\nj = asof asof asof at at take x = at\nprint j\nprint asof",
        nodes: 2,
        literals: 0,
        printed: 2,
        published: 0,
    },
    Accepted {
        text: "table t a:text b:long\ng = agg t by a do n = count, s = sum b, f = first a, m = max b\ns = sort g -m, a\nh = head 0 s",
        nodes: 4,
        literals: 0,
        printed: 0,
        published: 0,
    },
    Accepted {
        text: "table t x:long\nm = merge t t t\nb = where m x>=1+2*x",
        nodes: 3,
        literals: 0,
        printed: 0,
        published: 0,
    },
];

#[test]
fn refusals(rt: HostRuntime) {
    for case in &REFUSED {
        match read_script(rt.alloc(), case.text.as_bytes()) {
            Err(ScriptFault::Refused { line, kind }) => {
                assert!(rt; line == case.line && kind == case.kind, "{}", case.text);
            }
            _ => panic!(rt; "{}", case.text),
        }
    }
}

#[test]
fn plans(rt: HostRuntime) -> Result<(), Fail> {
    for case in &ACCEPTED {
        let script = read_script(rt.alloc(), case.text.as_bytes())?;
        assert_eq!(rt; script.plan.nodes.len(), case.nodes);
        assert_eq!(rt; script.literals.len(), case.literals);
        assert_eq!(rt; script.plan.printed.len(), case.printed);
        assert_eq!(rt; script.plan.published.len(), case.published);
        let plan = script.bind(rt.alloc(), &Items::new(rt.alloc()))?;
        assert!(rt; plan.lawful(), "{}", case.text);
    }
    Ok(())
}
