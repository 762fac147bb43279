//! Feeds and table files, each with what is read of it or the first record that is refused.

use super::scripts::script_of;
use feed_reader::{TextFault, TextKind, read_feed, read_table};
use std::alloc::AllocError;
use std::test::Fail;

/// Two sources, `t` and `u`, of a text column `sym` and a number column `qty`.
const TWO_SOURCES: &str = "table t sym:text qty:long\ntable u sym:text qty:long\n";

/// The number of a refused record, and the kind; nothing where the text is read.
type ReadRefusal = Option<(u64, TextKind)>;

const FEEDS: [(&str, ReadRefusal); 66] = [
    ("", None),
    (".\n", None),
    ("t,t\na,0,IBM,5\na,1,AAPL,20\n.\n", None),
    ("t,t\na,0,IBM,5\na,1,AAPL,20\n.", None),
    ("\u{feff}t,t\r\n\r\na,0,IBM,5\r.\r\n", None),
    ("\"t\",\"t\"\na,\"0\",\"x, \"\"y\"\"\",5\n.\n", None),
    (
        "t,t\nt,t\n.\nt,t\nr,0,0\ns,1,1,4\na,0,A,7\nt,t\ns,5,5,-2\na,9,A,3\nm,0,A,8\n.\n",
        None,
    ),
    (
        "t,t\nr,0,3\nr,4,9\ns,0,1,1\ns,2,3,-1099511627775\na,7,,\nm,7,,0\nt,u\na,0,A,1\n.\n",
        None,
    ),
    (
        "t,t\na,00000000000000000,A,-9223372036854775807\na,1099511627775,A,9223372036854775807\n.\n",
        None,
    ),
    // a feed that is cut after so many bytes
    ("t", Some((1, TextKind::FieldCount))),
    ("t,", Some((1, TextKind::UnknownTable))),
    ("t,t", Some((1, TextKind::Unfinished))),
    ("t,t\n", Some((1, TextKind::Unfinished))),
    ("t,t\na", Some((2, TextKind::FieldCount))),
    ("t,t\na,0,IBM", Some((2, TextKind::FieldCount))),
    ("t,t\na,0,IBM,", Some((2, TextKind::Unfinished))),
    ("t,t\na,0,IBM,5\n", Some((2, TextKind::Unfinished))),
    ("t,t\na,0,IBM,5\na,1,AAPL", Some((3, TextKind::FieldCount))),
    (
        "t,t\na,0,IBM,5\na,1,AAPL,20\n",
        Some((3, TextKind::Unfinished)),
    ),
    // tags
    ("x,1", Some((1, TextKind::BadTag))),
    ("\"\"", Some((1, TextKind::BadTag))),
    ("tt,t", Some((1, TextKind::BadTag))),
    ("T,t", Some((1, TextKind::BadTag))),
    (" t,t", Some((1, TextKind::BadTag))),
    // places
    ("a,0,A,1", Some((1, TextKind::OutOfOrder))),
    ("r", Some((1, TextKind::OutOfOrder))),
    (".\ns,0,0,1", Some((2, TextKind::OutOfOrder))),
    ("t,t\n.\nm,0,A,1", Some((3, TextKind::OutOfOrder))),
    ("t,t\ns,0,0,1\nr,1,1", Some((3, TextKind::OutOfOrder))),
    ("t,t\na,0,A,1\ns,1,1,1", Some((3, TextKind::OutOfOrder))),
    ("t,t\nm,0,A,1\na,1,A,1", Some((3, TextKind::OutOfOrder))),
    ("t,t\na,0,A,1\nr,x", Some((3, TextKind::OutOfOrder))),
    // numbers of fields
    ("t,t,t", Some((1, TextKind::FieldCount))),
    ("t,t\nr,0", Some((2, TextKind::FieldCount))),
    ("t,t\ns,0,0", Some((2, TextKind::FieldCount))),
    ("t,t\na,0,A,1,2", Some((2, TextKind::FieldCount))),
    ("t,t\nm,x,1", Some((2, TextKind::FieldCount))),
    (".,.", Some((1, TextKind::FieldCount))),
    // numbers
    ("t,t\nr,2,1", Some((2, TextKind::BadNumber))),
    ("t,t\nr,,1", Some((2, TextKind::BadNumber))),
    ("t,t\nr,1,1099511627776", Some((2, TextKind::BadNumber))),
    ("t,t\nr,-1,1", Some((2, TextKind::BadNumber))),
    ("t,t\nr,+1,1", Some((2, TextKind::BadNumber))),
    (
        "t,t\nr,00000000000000000001,1",
        Some((2, TextKind::BadNumber)),
    ),
    ("t,t\ns,2,1,1", Some((2, TextKind::BadNumber))),
    ("t,t\ns,1,1,0", Some((2, TextKind::BadNumber))),
    ("t,t\ns,1,1,-0", Some((2, TextKind::BadNumber))),
    ("t,t\ns,1,1,1099511627776", Some((2, TextKind::BadNumber))),
    ("t,t\ns,1,1,-1099511627776", Some((2, TextKind::BadNumber))),
    (
        "t,t\na,1,A,-9223372036854775808",
        Some((2, TextKind::BadNumber)),
    ),
    (
        "t,t\na,1,A,9223372036854775808",
        Some((2, TextKind::BadNumber)),
    ),
    ("t,t\na,1,A,1 ", Some((2, TextKind::BadNumber))),
    ("t,t\na,x,A,1", Some((2, TextKind::BadNumber))),
    // tables
    ("t,v", Some((1, TextKind::UnknownTable))),
    ("t,T", Some((1, TextKind::UnknownTable))),
    // what does not ascend
    ("t,t\na,1,A,1\na,1,A,2", Some((3, TextKind::OutOfOrder))),
    ("t,t\nm,1,A,1\nm,0,A,2", Some((3, TextKind::OutOfOrder))),
    ("t,t\nr,0,3\nr,3,4", Some((3, TextKind::OutOfOrder))),
    ("t,t\ns,0,3,1\ns,3,4,1", Some((3, TextKind::OutOfOrder))),
    ("t,t\na,1,A,1\na,1,A,x", Some((3, TextKind::BadNumber))),
    // the first refused record is named
    ("t,t\nr,1,1\nx\n", Some((3, TextKind::BadTag))),
    ("t,t\n.\nt,v\nx\n", Some((3, TextKind::UnknownTable))),
    (
        "t,t\na,0,A,1\nt,t\na,0,A,2\n",
        Some((4, TextKind::Unfinished)),
    ),
    (
        "t,t\na,0,A,1\nt,t\na,0,A,2\na,0,A,3\n",
        Some((5, TextKind::OutOfOrder)),
    ),
    ("t,t\nt,u\nt,v\n", Some((3, TextKind::UnknownTable))),
    ("t,t\n.\n.\nt,t\n", Some((4, TextKind::Unfinished))),
];

const TABLES: [(&str, ReadRefusal); 16] = [
    ("sym,qty", None),
    ("sym,qty\nA,1\n\"\",\n,3\n", None),
    ("\u{feff}\"sym\",qty\r\nA,00000000000000007\r\n", None),
    ("sym,qty\n\n\nA,1\n", None),
    ("", Some((1, TextKind::Header))),
    ("sym", Some((1, TextKind::Header))),
    ("qty,sym", Some((1, TextKind::Header))),
    ("sym,qty,", Some((1, TextKind::Header))),
    ("Sym,qty\nA", Some((1, TextKind::Header))),
    ("sym,qty\nA\n", Some((2, TextKind::FieldCount))),
    ("sym,qty\nA,1,2\n", Some((2, TextKind::FieldCount))),
    ("sym,qty\n\"\"\n", Some((2, TextKind::FieldCount))),
    ("sym,qty\nA,1\nA,x\n", Some((3, TextKind::BadNumber))),
    (
        "sym,qty\nA,-9223372036854775808\n",
        Some((2, TextKind::BadNumber)),
    ),
    ("sym,qty\nA,1\nA,-\nA\n", Some((3, TextKind::BadNumber))),
    (
        "sym,qty\nA,00000000000000000007\n",
        Some((2, TextKind::BadNumber)),
    ),
];

/// Bytes that are not UTF-8: two halves of one letter in two fields, in one field of a later record, and before another kind.
const NOT_TEXT: [(&[u8; 12], u64); 3] = [
    (b"t,\xc3,\xa4\n\n\n\n\n\n\n", 1),
    (b"t,t\na,0,\xff,1\n", 2),
    (b".\nx,\xff\n\n\n\n\n\n\n", 2),
];

fn refusal<X: Drop>(answer: Result<X, TextFault>) -> Result<ReadRefusal, AllocError> {
    match answer {
        Ok(_) => Ok(None),
        Err(TextFault::Refused { number, kind }) => Ok(Some((number, kind))),
        Err(TextFault::Memory) => Err(AllocError),
    }
}

#[test]
fn a_feed_is_read_or_its_first_bad_record_is_named(rt: HostRuntime) -> Result<(), Fail> {
    let script = script_of(rt.alloc(), TWO_SOURCES)?;
    for (place, (feed, want)) in FEEDS.iter().enumerate() {
        let answer = refusal(read_feed(rt.alloc(), feed.as_bytes(), &script.plan))?;
        assert!(rt; answer == *want, "feed {place}");
    }
    for (feed, number) in NOT_TEXT.iter() {
        let answer = refusal(read_feed(rt.alloc(), feed.as_slice(), &script.plan))?;
        assert!(rt; answer == Some((*number, TextKind::NotUtf8)));
    }
    Ok(())
}

#[test]
fn a_table_file_is_read_or_its_first_bad_record_is_named(rt: HostRuntime) -> Result<(), Fail> {
    let script = script_of(rt.alloc(), TWO_SOURCES)?;
    let Some(source) = script.plan.nodes.as_slice().first() else {
        return Err(Fail::from("no source"));
    };
    for (place, (text, want)) in TABLES.iter().enumerate() {
        let answer = refusal(read_table(rt.alloc(), text.as_bytes(), &source.columns))?;
        assert!(rt; answer == *want, "table file {place}");
    }
    Ok(())
}
