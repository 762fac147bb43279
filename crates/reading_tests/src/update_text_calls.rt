//! Each call once.
ghost use Rattle.std.specs.Prelude.{◌≡◌, length, map, true, IfOk};
ghost use Rattle.tick_model.specs.LawfulRuns.{AreTexts};
ghost use Rattle.tick_model.specs.Names.{are_distinct};

use std::alloc::{AllocError, Global};
use std::test::Fail;
use tick_io::MemorySink;
use tick_model::items::Items;
use tick_model::name::Name;
use tick_model::plan::{ColumnSpec, Kind};
use tick_model::update::ShiftRange;
use update_text::{
    PrintedFault, Shown, read_first_fields, read_number, read_record, read_snapshot, read_update,
    write_fields,
};

fn name(alloc: Global, text: &str) -> Result<Name, AllocError>
    ensures { IfOk result (λ name. name ≡ text.now) }
{
    Ok(Name::of(String::from_str(alloc, text)?))
}

/// The table `big` of a text column `sym` and a number column `qty`.
pub(crate) fn big(alloc: Global) -> Result<Shown, AllocError>
    ensures two { IfOk result (λ shown. length shown.columns ≡ 2) }
    ensures distinct { IfOk result (λ shown. are_distinct (map (λ column. column.name) shown.columns) ≡ true) }
{
    let mut columns = Items::new(alloc);
    columns.push(ColumnSpec {
        name: name(alloc, "sym")?,
        kind: Kind::Text,
    })?;
    columns.push(ColumnSpec {
        name: name(alloc, "qty")?,
        kind: Kind::Long,
    })?;
    Ok(Shown {
        name: name(alloc, "big")?,
        columns,
    })
}

#[test]
fn a_record_quotes_its_fields(rt: HostRuntime) -> Result<(), Fail> {
    let mut fields = Vec::new(rt.alloc());
    for field in ["done", "", "a\"b", "c,d", "e\rf", "g\nh"] {
        fields.push(String::from_str(rt.alloc(), field)?)?;
    }
    let mut sink = MemorySink::new(rt.alloc(), Vec::new(rt.alloc()));
    write_fields(rt.alloc(), &mut sink, fields.as_slice())?;
    let want = b"done,,\"a\"\"b\",\"c,d\",\"e\rf\",\"g\nh\"\n";
    assert_eq!(rt; sink.bytes(), want.as_slice());
    Ok(())
}

/// Three texts in byte order.
pub(crate) fn symbols(alloc: Global) -> Result<Items<Name>, AllocError>
    ensures { IfOk result (λ texts. AreTexts texts) }
{
    let first = name(alloc, "AAPL")?;
    let second = name(alloc, "IBM")?;
    let third = name(alloc, "X")?;
    Ok(Items::of(vec![in alloc; first, second, third]?))
}

#[test]
fn a_change_is_read_back(rt: HostRuntime) -> Result<(), Fail> {
    let shown = big(rt.alloc())?;
    let texts = symbols(rt.alloc())?;
    let text = b"step,2,big\ns,1,1,5\na,2,X,30\n";
    let printed = read_update(rt.alloc(), text, &shown, &texts)?;
    assert_eq!(rt; printed.step, 2);
    assert_eq!(rt; printed.change.cells.as_slice(), [2, 30].as_slice());
    let update = &printed.change.update;
    let moved = ShiftRange {
        begin: 1,
        end: 1,
        delta: 5,
    };
    assert_eq!(rt; update.shifted().ranges(), [moved].as_slice());
    assert_eq!(rt; update.added().first(), Some(2));
    assert_eq!(rt; update.added().len(), 1);
    assert!(rt; update.removed().is_empty() && update.modified().is_empty());
    Ok(())
}

#[test]
fn other_texts_are_refused(rt: HostRuntime) -> Result<(), Fail> {
    let shown = big(rt.alloc())?;
    let texts = symbols(rt.alloc())?;
    for text in [
        "step,2,big\ns,1,1,0\na,2,X,30\n",
        "step,2,big\ns,1,1,5\na,02,X,30\n",
        "step,2,big\ns,1,1,5\na,2,\"X\",30\n",
        "step,2,big\ns,1,1,5\na,2,Y,30\n",
        "step,2,t\ns,1,1,5\na,2,X,30\n",
        "step,2,big\na,2,X,30\ns,1,1,5\n",
        "step,2,big\n",
        "",
    ] {
        let read = read_update(rt.alloc(), text.as_bytes(), &shown, &texts);
        assert!(rt; matches!(read, Err(PrintedFault::NotPrinted)));
    }
    Ok(())
}

#[test]
fn a_record_is_read_back(rt: HostRuntime) -> Result<(), Fail> {
    let text = b"fault,3,read,\"a\"\",\nb\"\n";
    let fields = read_record(rt.alloc(), text)?;
    assert_eq!(rt; fields.len(), 4);
    let name = fields.as_slice().last().map(|field| field.as_slice());
    assert_eq!(rt; name, Some(b"a\",\nb".as_slice()));
    let first = read_first_fields(rt.alloc(), b"done,7\ndone,8\n")?;
    assert_eq!(rt; first.len(), 2);
    assert_eq!(rt; read_number(b"70")?, 70);
    assert!(rt; matches!(read_number(b"070"), Err(PrintedFault::NotPrinted)));
    Ok(())
}

#[test]
fn a_snapshot_is_read_back(rt: HostRuntime) -> Result<(), Fail> {
    let shown = big(rt.alloc())?;
    let texts = symbols(rt.alloc())?;
    let text = b"snap,2,1,7,big\nw,3,IBM,5\nw,4,,\n";
    let snapshot = read_snapshot(rt.alloc(), text, &shown, &texts)?;
    assert_eq!(rt; snapshot.caller, 2);
    assert_eq!(rt; snapshot.call, 1);
    assert_eq!(rt; snapshot.step, 7);
    assert_eq!(rt; snapshot.rows.len(), 2);
    let last = snapshot.rows.as_slice().last();
    assert!(rt; matches!(last, Some(row) if row.key == 4));
    let falling = b"snap,2,1,7,big\nw,4,IBM,5\nw,3,,\n";
    let read = read_snapshot(rt.alloc(), falling, &shown, &texts);
    assert!(rt; matches!(read, Err(PrintedFault::NotPrinted)));
    Ok(())
}
